// The two counts beside a record's files (02, Ticket 8): how many of them wait for repair, and how many of those are offered now. A count is kept where a file
// changes, by what the file adds to it before and after. In this order: what a file adds; a count; both, in a head.
ghost use Rattle.std.specs.Prelude.{◌≡◌};
ghost use Rattle.files.specs.Counts.{standing, recounted, moved_by};

use crate::head::Head;

// Which lists a file is on.
#[repr(C)]
#[derive(Clone, Copy)]
pub struct Standing {
    pub listed: bool,
    pub offered: bool,
}

impl Standing {
    // By whether the file is on the resilver list, and whether it has an intent.
    pub(crate) fn of(listed: bool, busy: bool) -> Standing
        ensures { result ≡ standing listed busy }
    {
        Standing {
            listed,
            offered: listed && !busy,
        }
    }
}

// A count once a file that was counted if `was` is counted if `is`: modulo 2^8, so that no record value traps.
fn recount(was: bool, is: bool, n: u8) -> u8
    ensures { result ≡ recounted was is n }
{
    match (was, is) {
        (true, false) => n.wrapping_sub(1),
        (false, true) => n.wrapping_add(1),
        _ => n,
    }
}

impl Head {
    // The head once a file that stood as `was` stands as `is`.
    pub(crate) fn moved(self, was: Standing, is: Standing) -> Head
        ensures { result ≡ moved_by was is self }
    {
        Head {
            waiting: recount(was.listed, is.listed, self.waiting),
            offered: recount(was.offered, is.offered, self.offered),
            ..self
        }
    }
}
