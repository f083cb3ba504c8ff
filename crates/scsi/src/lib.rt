// For C: SCSI layout bodies, from crates `layouts` and `joining`. Paper 01, "Layout bodies", and Ticket 9.
//     layout     the check, the extent at a place, and the writer
//     merge      merging a list of extents into a layout body
#![tactic(auto)]

pub mod layout;
pub mod merge;
