#![tactic(auto)]

// Whole jobs with the answers that the Rust original gave, computed by the definitions in proofs/. No code.
