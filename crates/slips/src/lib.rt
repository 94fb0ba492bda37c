#![tactic(auto)]

// A slip of the soak that no other statement tells, computed in proofs/. No code.
