#![tactic(auto)]

// Units as they are left by joins and turns: the claims in specs/, their laws in proofs/. No code.
