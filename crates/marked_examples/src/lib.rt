// The marked examples K1 to K15 of paper 01, as one claim: specs/Table.antt states it, proofs/Marked.antt proves it. No code.
#![tactic(auto)]
