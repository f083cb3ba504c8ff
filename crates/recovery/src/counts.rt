// The two counts (02, Ticket 8): how many files wait for repair, and how many of those are offered now. The record keeps them, so that no file is looked at.
ghost use Rattle.std.specs.Prelude.{◌≡◌};
ghost use Rattle.recovery.specs.Counts.{counts_of};

use crate::record::Record;

#[repr(C)]
#[derive(Clone, Copy)]
pub struct Counts {
    pub waiting: u64,
    pub offered: u64,
}

impl Record {
    // The lengths of the two lists.
    pub fn counts(self) -> Counts
        ensures { result ≡ counts_of self.head }
    {
        let head = self.head;
        Counts {
            waiting: head.waiting as u64,
            offered: head.offered as u64,
        }
    }
}
