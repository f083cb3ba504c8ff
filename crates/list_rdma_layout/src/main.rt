// list_rdma_layout: prints the extents of an RDMA layout body, each with its handle, or its refusal. Paper 01, "Layout bodies", and Ticket 5.
#![tactic(auto)]

use layouts::kinds::Kind;
use std::io;

fn main(rt: HostRuntime) -> io::Result<()> {
    listings::program::run(&rt, Kind::Rdma, "list_rdma_layout")
}
