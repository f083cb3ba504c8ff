// list_layout: prints the extents of a SCSI layout body, or its refusal. Paper 01, "Layout bodies" (Rules 2.11).
#![tactic(auto)]

use layouts::kinds::Kind;
use std::io;

fn main(rt: HostRuntime) -> io::Result<()> {
    listings::program::run(&rt, Kind::Scsi, "list_layout")
}
