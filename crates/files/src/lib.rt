// One file of the recovery record (paper 01), the calls on one file, and what stands beside the files; a file's mirrors are crate mirroring's,
// its write intents crate intents'.
#![tactic(auto)]

pub mod counts;
pub mod file;
pub mod head;
