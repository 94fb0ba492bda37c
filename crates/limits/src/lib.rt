#![tactic(auto)]

// The numbers of a job at their limits: what passes and what is refused, in proofs/. No code.
