// What C is handed of totals (Tickets 3 and 7): one column of them in a slice that it lends, and their flags in a mask.
ghost use Rattle.std.specs.Prelude.{◌≡◌};
ghost use Rattle.capi.specs.Lent.{column_of};
ghost use Rattle.mirroring.specs.Totals.{no_sums};

use mirroring::mirrors::PLACES;
use mirroring::totals::Sums;

// Each place of a lent slice gets its mirror's sum, or the proxy's, and those after them 0. A slice that has just those places is told apart: the compiler writes it straight.
fn column(sums: [u64; PLACES], lent: &mut [u64])
    ensures { lent.new ≡ column_of sums lent.old }
{
    if lent.len() == PLACES {
        lent.copy_from_slice(&sums);
        return;
    }
    let n = lent.len().min(PLACES);
    lent.fill(0);
    lent[..n].copy_from_slice(&sums[..n]);
}

// Sums by place are written to a lent slice, and their flags answered.
pub(crate) fn hand_out(sums: Sums, lent: &mut [u64]) -> u32
    ensures { (result ≡ sums.over) × (lent.new ≡ column_of sums.bytes lent.old) }
{
    let bytes = sums.bytes;
    column(bytes, lent);
    sums.over
}

// No totals are handed out: zeros. The four stay parameters: as a struct by value they may not be passed on (a call with it is not covered), and behind a `&mut` each clause
// would have to say of each of the four that it is the same reference as before.
pub(crate) fn hand_out_none(
    read: &mut [u64],
    written: &mut [u64],
    read_over: &mut u32,
    written_over: &mut u32,
)
    ensures { (read.new ≡ column_of no_sums read.old)
        × (written.new ≡ column_of no_sums written.old)
        × (read_over.new ≡ 0)
        × (written_over.new ≡ 0) }
{
    let zeros = [0u64; PLACES];
    *read_over = 0;
    *written_over = 0;
    column(zeros, read);
    column(zeros, written);
}
