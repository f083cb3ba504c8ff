// LAYOUTCOMMIT (Ticket 10): the list after a commit, and what refuses one, in specs/; the theorems in proofs/; no code. Crate `commits` commits by them.
#![tactic(auto)]
