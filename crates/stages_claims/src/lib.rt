#![tactic(auto)]

// What a soak in stages ran, refused and counted: the claims in specs/, their laws in proofs/. No code.
