// What the programs list_layout and list_rdma_layout print of a layout body, and how they read and write it; each of them only names its kind.
//     text       the text of a body, into a lent buffer
//     program    from standard input to standard output
#![tactic(auto)]

pub mod program;
pub mod text;
