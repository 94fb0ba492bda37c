#![tactic(auto)]

// Jobs of document 02, N9, computed: pairs that meet its conditions, and the job at which its own words do not do. Definitions in specs/, theorems in proofs/. No code.
