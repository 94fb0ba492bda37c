#![tactic(auto)]

// A call on the transposed matrix as the numbers that an exported function hands back.
