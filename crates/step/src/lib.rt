#![tactic(auto)]

// One call on a record, as a definition in specs/, and the proofs that its runs meet the claims of `rules`. There is nothing to run.
