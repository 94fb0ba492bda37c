#![tactic(auto)]

// Whole calls by either solver, computed in proofs/. No code.
