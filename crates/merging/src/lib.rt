// Extents that belong together (Ticket 9): definitions in specs/, the theorems in proofs/; no code. Crate `joining` merges by them.
#![tactic(auto)]
