#![tactic(auto)]

// The numbers of the reasons, and matrices that two checks would refuse with the one that does, in proofs/. No code.
