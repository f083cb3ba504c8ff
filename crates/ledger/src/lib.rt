// The ledger and demand 3 (paper 01, "The ledger", "Histories"): definitions in specs/, the theorem in proofs/; no code.
#![tactic(auto)]
