// Merging extents (Ticket 9).
//     joiner     the runs: what is fed one extent after the other, and stores each run when it starts and when it is lengthened
//     merge      the call: from a list lent as columns to the body of the merged list
// What C calls of it stands in crate `scsi`.
#![tactic(auto)]

pub mod joiner;
pub mod merge;
