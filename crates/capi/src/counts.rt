// The two counts in what a caller lends (02, Ticket 8).
ghost use Rattle.std.specs.Prelude.{◌≡◌};
ghost use Rattle.recovery.specs.Counts.{counts, counts_of};

use files::head::Head;

pub(crate) fn hand_out(head: Head, waiting: &mut u64, offered: &mut u64)
    ensures { counts waiting.new offered.new ≡ counts_of head }
{
    *waiting = head.waiting as u64;
    *offered = head.offered as u64;
}
