// Doubles: definitions in specs/, laws of order and rounding in proofs/. No code, but the patterns that the crates above compare with.
#![tactic(auto)]

// +infinity: the patterns below it are the finite numbers whose sign is clear.
pub const INF_BITS: u64 = 0x7ff0_0000_0000_0000;
// 1.0
pub const ONE_BITS: u64 = 0x3ff0_0000_0000_0000;
