#![tactic(auto)]

// The boundary jobs of document 01 that are marked * : one table and its theorem in proofs/. No code.
