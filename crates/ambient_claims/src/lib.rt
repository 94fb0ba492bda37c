#![tactic(auto)]

// Theorems on a soak under a changing ambient level: no code.
