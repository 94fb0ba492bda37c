#![tactic(auto)]

// Lists as loops over slices make them: definitions in specs/, laws in proofs/. No code.
