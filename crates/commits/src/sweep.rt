// The sweep of a commit: over every byte where a row or a range begins or ends it hands the pieces to the joiner (crate `joining`). In this order: a piece of a row; what a sweep does with it,
// which is nothing or a store; the sweep.
ghost use Rattle.std.specs.Prelude.{◌≡◌, Bool, true, false, cond, ◌+◌, ◌-◌, ◌*◌, ◌^◌, ◌<◌, ◌≤◌, length};
ghost use Rattle.extents.specs.Extents.{list_from};
ghost use Rattle.committing.specs.Ranges.{range_at};
ghost use Rattle.committing.specs.Commit.{committed};
ghost use Rattle.joining.specs.Joiner.{stored};
ghost use Rattle.joining.specs.Merge.{list_of};
ghost use Rattle.commits.specs.Spot.{number_in};
ghost use Rattle.commits.specs.Pieces.{Asked, Found, found_said, Finds, storage_of, piece_of};

use crate::ranges::Ranges;
use crate::spot;
use crate::spot::Part;
use extents::{Refusal, Rule};
use joining::joiner::{Piece, Runs, Step};
use layouts::columns::Columns;

// Where the part from byte x on of row i, which begins at `lo`, lies in storage; a hole lies nowhere.
fn storage_of(stos: &[u64], i: usize, st: u32, lo: u64, x: u64) -> u64
    requires i_in_bounds { (i < length stos.now) × (lo ≤ x) }
    requires lo_bound { (st ≡ 3 → ⊥) → number_in stos.now i + (x - lo) < 2 ^ 64 }
    ensures { result ≡ storage_of lo (number_in stos.now i) st x }
{
    if st == 3 {
        return 0;
    }
    stos[i] + (x - lo)
}

// The piece of it from x up to y.
fn piece(stos: &[u64], t: Part, x: u64, y: u64) -> Piece
    requires row_in_bounds { (t.row < length stos.now) × (t.lo ≤ x) × (x ≤ y) }
    requires lo_bound { (t.state ≡ 3 → ⊥) → number_in stos.now t.row + (x - t.lo) < 2 ^ 64 }
    ensures { result ≡ piece_of t.row t.lo (number_in stos.now t.row) t.state x y }
{
    Piece {
        row: t.row,
        offset: x,
        len: y - x,
        storage: storage_of(stos, t.row, t.state, t.lo, x),
        state: t.state,
    }
}

// What a sweep does with what a piece comes to.
pub(crate) trait Pass {
    ghost writes: { Bool };

    fn put(d: &mut [u8], devs: &[u8], step: Step, p: Piece)
        ensures { d.new ≡ cond writes (stored devs.now step p d.old) d.old };
}

pub(crate) struct Counting;

pub(crate) struct Writing;

impl Pass for Counting {
    ghost writes = { false };

    fn put(_d: &mut [u8], _devs: &[u8], _step: Step, _p: Piece) {}
}

impl Pass for Writing {
    ghost writes = { true };

    fn put(d: &mut [u8], devs: &[u8], step: Step, p: Piece) {
        step.store(d, devs, p)
    }
}

// The sweep over all ranges and rows: how many extents there are after the commit, unless a committed byte is under neither invalid nor read-write.
pub(crate) fn sweep<P: Pass>(d: &mut [u8], ranges: Ranges, rows: Columns) -> Result<usize, Refusal>
    requires asked { Asked ranges.list.now ranges.count rows.devices.now rows.offsets.now rows.lengths.now rows.storages.now rows.states.now }
    requires sts_in_bounds { P.writes ≡ true → 4 + 44 * length (committed (list_from (range_at ranges.list.now) ranges.count 0) (list_of rows)) ≤ length d.old }
    ensures { (r : Found) × (result ≡ found_said r) × Finds (list_from (range_at ranges.entry.list.now) ranges.entry.count 0) (list_of rows.entry) P.writes d.old r d.new }
{
    let mut runs = Runs::new();
    let mut bare = false;
    let mut p = spot::begin(ranges, rows);
    while p.at != u64::MAX {
        let t = spot::next_turn(rows.states, p);
        bare |= t.bare;
        if let Some(part) = t.part {
            let next = piece(rows.storages, part, p.at, t.upto);
            let step = runs.feed(rows.devices, next);
            P::put(d, rows.devices, step, next);
        }
        p = spot::moved(ranges, rows, p, t.upto, t.again);
    }
    if bare {
        return Err(Rule::ReclaimBad.at(0));
    }
    Ok(runs.count)
}
