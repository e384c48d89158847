// Nothing to run: proofs/ has that what is written reads back as itself, and what is read is written again as the same bytes.
#![tactic(auto)]
