#![tactic(auto)]

// Demand 3, one claim on whole runs of the four calls: the claim in specs/, its laws in proofs/. No code.
