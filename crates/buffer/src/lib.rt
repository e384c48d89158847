// What is left in a buffer that texts are put into: a definition and proofs alone.
#![tactic(auto)]
