// LAYOUTCOMMIT (Ticket 10).
//     ranges     the commit list: 10036 and 22
//     spot       where a sweep over extents and ranges stands: what lies there, and where something begins or ends next
//     sweep      one sweep over the boundaries of both, which hands pieces to the joiner of crate `joining`; it counts or writes
//     commit     the call: from a commit list and a list of extents lent as columns to a layout body; and the same for C
#![tactic(auto)]

pub mod commit;
mod ranges;
mod spot;
mod sweep;
