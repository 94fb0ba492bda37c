#![tactic(auto)]

// Paused Krylov runs as they are left by their start and by each step: the claims in specs/, their laws in proofs/. No code.
