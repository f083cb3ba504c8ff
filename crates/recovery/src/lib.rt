// The recovery record (paper 01): the record and its calls, the two lists and how long they are, and LAYOUTRETURN on it. Crate ledger has the ledger and demand 3.
#![tactic(auto)]

pub mod counts;
pub mod listing;
pub mod record;
pub mod returns;
