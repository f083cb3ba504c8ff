// Where a sweep over extents and ranges stands: at a byte, with three intervals that only move on, the first row that is not invalid, the first invalid row and the first
// range that end after it. No two rows of one kind and no two ranges share a byte, so nothing else lies over it. Each is held with its edges, and read anew only where
// it is passed. In this order: an interval, and the spot; the tests of a row; the first row of a kind, and a range; those that come after; the first spot, and the next;
// where an interval begins or ends next; which piece comes next.
ghost use Rattle.std.specs.Prelude.{◌≡◌, Bool, true, false, cond, not, ◌&&◌, ◌||◌, ℕ, ◌+◌, ◌*◌, ◌^◌, ◌-◌, ◌<◌, ◌≤◌, min, ltb, eqb, length};
ghost use Rattle.committing.specs.Ranges.{range_at};
ghost use Rattle.commits.specs.Spot.{number_in, end_in, range_begin, range_end, no_span, is_kind, always, marks_in, Tops, span_of, Sought, Left, Spotted, Settled, edge_in, turn_of, moved_to};

use crate::ranges::Ranges;
use layouts::columns::Columns;

// A row or a range, and the bytes where it begins and ends; past the last, no byte: an Option would have to be read as 2^64 - 1 at each test of an edge.
#[derive(Clone, Copy)]
pub(crate) struct Span {
    pub place: usize,
    pub lo: u64,
    pub hi: u64,
}

impl Span {
    // Past the last of n.
    fn none(n: usize) -> Span
        ensures { result ≡ no_span n }
    {
        Span {
            place: n,
            lo: u64::MAX,
            hi: u64::MAX,
        }
    }
}

// A byte, and the three intervals there; `again` says that its piece of an invalid row is still to come.
#[derive(Clone, Copy)]
pub(crate) struct Spot {
    pub at: u64,
    pub other: Span,
    pub invalid: Span,
    pub range: Span,
    pub again: bool,
}

// Whether `len` bytes from `off` on end after x; the sum may pass 2^64 - 1, so the difference is compared.
fn ends_after(off: u64, len: u64, x: u64) -> bool
    ensures { result ≡ ltb x (off + len) }
{
    x < off || x - off < len
}

// Whether a row is of its kind, invalid or not, and ends after x.
fn goes(st: u32, inv: bool, off: u64, len: u64, x: u64) -> bool
    ensures { result ≡ (cond (eqb st 2) inv (not inv) && ltb x (off + len)) }
{
    (st == 2) == inv && ends_after(off, len, x)
}

// The first row of its kind, invalid or not, from row `first` on, that ends after x: `inv` says which rows, not which step.
fn seek(rows: Columns, first: usize, x: u64, inv: bool) -> Span
    requires lens_len { (length rows.lengths.now ≡ length rows.offsets.now) × (length rows.states.now ≡ length rows.offsets.now) }
    requires by_index { (a : ℕ) → a < length rows.offsets.now → end_in rows.offsets.now rows.lengths.now a < 2 ^ 64 }
    requires by_index_2 { (a : ℕ) → a < first → a < length rows.offsets.now → is_kind (number_in rows.states.now) inv a ≡ true → end_in rows.offsets.now rows.lengths.now a ≤ x }
    ensures { Sought (is_kind (number_in rows.entry.states.now) inv) (number_in rows.entry.offsets.now) (end_in rows.entry.offsets.now rows.entry.lengths.now) (length rows.entry.offsets.now) x result }
{
    for i in first..rows.offsets.len() {
        let lo = rows.offsets[i];
        let len = rows.lengths[i];
        if goes(rows.states[i], inv, lo, len, x) {
            return Span {
                place: i,
                lo,
                hi: lo + len,
            };
        }
    }
    Span::none(rows.offsets.len())
}

// Range k.
fn range_at(ranges: Ranges, k: usize) -> Span
    requires { k < ranges.count → range_end (range_at ranges.list.now) k < 2 ^ 64 }
    ensures { result ≡ span_of (range_begin (range_at ranges.entry.list.now)) (range_end (range_at ranges.entry.list.now)) ranges.entry.count k }
{
    if k < ranges.count {
        let (lo, len) = ranges.get(k);
        return Span {
            place: k,
            lo,
            hi: lo + len,
        };
    }
    Span::none(ranges.count)
}

// The first row of its kind that ends after x, where p was that sooner.
fn next_row(rows: Columns, p: Span, x: u64, inv: bool) -> Span
    requires lens_len { (length rows.lengths.now ≡ length rows.offsets.now) × (length rows.states.now ≡ length rows.offsets.now) × (length rows.offsets.now ≤ 1024) }
    requires by_index { (a : ℕ) → a < length rows.offsets.now → end_in rows.offsets.now rows.lengths.now a < 2 ^ 64 }
    requires left { Left (is_kind (number_in rows.states.now) inv) (number_in rows.offsets.now) (end_in rows.offsets.now rows.lengths.now) (length rows.offsets.now) x p }
    ensures { Sought (is_kind (number_in rows.entry.states.now) inv) (number_in rows.entry.offsets.now) (end_in rows.entry.offsets.now rows.entry.lengths.now) (length rows.entry.offsets.now) x result }
{
    if x < p.hi {
        return p;
    }
    seek(rows, p.place + 1, x, inv)
}

// The first range that ends after x, where p was that sooner, and the one after p is not passed.
fn next_range(ranges: Ranges, p: Span, x: u64) -> Span
    requires by_index { (a : ℕ) → a < ranges.count → range_end (range_at ranges.list.now) a < 2 ^ 64 }
    requires left { Left always (range_begin (range_at ranges.list.now)) (range_end (range_at ranges.list.now)) ranges.count x p }
    requires x_bound { p.place + 1 < ranges.count → x < range_end (range_at ranges.list.now) (p.place + 1) }
    ensures { Sought always (range_begin (range_at ranges.entry.list.now)) (range_end (range_at ranges.entry.list.now)) ranges.entry.count x result }
{
    if x < p.hi {
        return p;
    }
    range_at(ranges, p.place + 1)
}

// The spot at byte 0.
pub(crate) fn begin(ranges: Ranges, rows: Columns) -> Spot
    requires lens_len { (length rows.lengths.now ≡ length rows.offsets.now) × (length rows.states.now ≡ length rows.offsets.now) }
    requires tops { Tops (marks_in rows.offsets.now rows.lengths.now rows.states.now ranges.list.now ranges.count) }
    requires nonzero { 0 < ranges.count → 0 < range_end (range_at ranges.list.now) 0 }
    ensures { Spotted (marks_in rows.entry.offsets.now rows.entry.lengths.now rows.entry.states.now ranges.entry.list.now ranges.entry.count) result × (result.at ≡ 0) × (result.again ≡ false) }
{
    Spot {
        at: 0,
        other: seek(rows, 0, 0, false),
        invalid: seek(rows, 0, 0, true),
        range: range_at(ranges, 0),
        again: false,
    }
}

// The next spot: the same byte, if one more piece of it comes, or y.
pub(crate) fn moved(ranges: Ranges, rows: Columns, p: Spot, y: u64, again: bool) -> Spot
    requires lens_len { (length rows.lengths.now ≡ length rows.offsets.now) × (length rows.states.now ≡ length rows.offsets.now) × (length rows.offsets.now ≤ 1024) }
    requires tops { Tops (marks_in rows.offsets.now rows.lengths.now rows.states.now ranges.list.now ranges.count) }
    requires spotted { Spotted (marks_in rows.offsets.now rows.lengths.now rows.states.now ranges.list.now ranges.count) p }
    requires at_le_y { (p.at ≤ y) × (p.range.place + 1 < ranges.count → y < range_end (range_at ranges.list.now) (p.range.place + 1)) }
    ensures { Settled (marks_in rows.entry.offsets.now rows.entry.lengths.now rows.entry.states.now ranges.entry.list.now ranges.entry.count) (moved_to p y again) result }
{
    if again {
        return Spot { again: true, ..p };
    }
    Spot {
        at: y,
        other: next_row(rows, p.other, y, false),
        invalid: next_row(rows, p.invalid, y, true),
        range: next_range(ranges, p.range, y),
        again: false,
    }
}

// Where an interval that ends after x begins or ends next.
fn edge(p: Span, x: u64) -> u64
    ensures { result ≡ edge_in p x }
{
    if x < p.lo { p.lo } else { p.hi }
}

// A part of a row, which begins at `lo`, in a state.
#[derive(Clone, Copy)]
pub(crate) struct Part {
    pub row: usize,
    pub lo: u64,
    pub state: u32,
}

// Which piece comes next, up to which byte nothing else begins or ends: of which row, if there is one; whether the byte is bare, which is to say committed and under neither
// invalid nor read-write; and whether one more of this byte comes after it.
#[derive(Clone, Copy)]
pub(crate) struct Turn {
    pub upto: u64,
    pub part: Option<Part>,
    pub bare: bool,
    pub again: bool,
}

// A committed invalid row is read-write, and nothing else; otherwise the row that is not invalid comes first, and the invalid one after it.
pub(crate) fn next_turn(sts: &[u32], p: Spot) -> Turn
    requires { (p.other.lo ≤ p.at → p.other.place < length sts.now) × (p.again ≡ true → p.at < p.range.lo) }
    ensures { result ≡ turn_of (number_in sts.now) p }
{
    let x = p.at;
    let a = p.other;
    let b = p.invalid;
    let c = p.range;
    if c.lo <= x && b.lo <= x {
        return Turn {
            upto: edge(a, x).min(b.hi.min(c.hi)),
            part: Some(Part {
                row: b.place,
                lo: b.lo,
                state: 0,
            }),
            bare: false,
            again: false,
        };
    }
    let upto = edge(a, x).min(edge(b, x).min(edge(c, x)));
    if a.lo <= x && !p.again {
        let state = sts[a.place];
        return Turn {
            upto,
            part: Some(Part {
                row: a.place,
                lo: a.lo,
                state,
            }),
            bare: c.lo <= x && state != 0,
            again: b.lo <= x,
        };
    }
    let part = Part {
        row: b.place,
        lo: b.lo,
        state: 2,
    };
    Turn {
        upto,
        part: (b.lo <= x).then_some(part),
        bare: c.lo <= x,
        again: false,
    }
}
