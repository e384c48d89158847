#![tactic(auto)]

// No code: proofs/ states the three demands clause by clause, in their order, of the code, and cites the proof of each.
