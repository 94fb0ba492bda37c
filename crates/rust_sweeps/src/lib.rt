#![tactic(auto)]

// The row of a plan at a boundary, and Taylor sweeps with the fields that the Rust original gave, computed by the definitions in proofs/. No code.
