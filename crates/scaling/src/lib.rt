#![tactic(auto)]

// Doubling the lamp (document 02, N9): the condition on a run's operations in specs/, the theorem in proofs/. No code.
