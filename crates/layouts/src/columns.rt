// Writing a layout body of either kind from a list of extents that is lent as columns: 16 bytes a device id, and a number each for offset, handle (in an
// RDMA list only), length, storage offset and state. Paper 01, "Layout bodies", and Ticket 5: uneven columns get 1 before all else; then rules 2 to 7, then 8.
// In this order: the columns; rule 1; the numbers of a row; rules 3 to 7; the check; the stores of one extent, and of all; the writer.
ghost use Rattle.std.specs.Prelude.{◌≡◌, [], ◌+◌, ◌*◌, ◌<◌, ◌≤◌, length, get_or, eqb};
ghost use Rattle.std.proofs.lemmas.List.Edits.{sets};
ghost use Rattle.extents.specs.Extents.{list_from, verdict};
ghost use Rattle.extents.specs.Verdict.{verdict_of};
ghost use Rattle.layouts.specs.Layout.{handle_size, body_size, row_bytes, rows_bytes, numbers_of};
ghost use Rattle.layouts.specs.Columns.{even, Even, handle_count, lent, column_row, column_list, check_columns, Wrote};

use crate::fields;
use crate::kinds::Kind;
use extents::{Numbers, Refusal, Rule, Scan};

// A list of extents that is lent as columns.
#[derive(Clone, Copy)]
pub struct Columns<'a> {
    pub devices: &'a [u8],
    pub offsets: &'a [u64],
    pub handles: &'a [u32],
    pub lengths: &'a [u64],
    pub storages: &'a [u64],
    pub states: &'a [u32],
}

impl<'a> Columns<'a> {
    // Whether the columns hold the same whole number of extents.
    pub fn even(self, kind: Kind) -> bool
        ensures { result ≡ even kind (lent self.entry) }
    {
        let n = self.offsets.len();
        self.lengths.len() == n
            && self.storages.len() == n
            && self.states.len() == n
            && self.handles.len() == kind.handles(n)
            && self.devices.len() == 16 * n
    }

    // The numbers of the extent in row i.
    pub fn numbers(self, kind: Kind, i: usize) -> Numbers
        requires even { Even kind (lent self) }
        requires i_in_bounds { i < length self.offsets.now }
        ensures { result ≡ numbers_of (column_row (lent self.entry) i).extent }
    {
        Numbers {
            offset: self.offsets[i],
            len: self.lengths[i],
            storage: self.storages[i],
            state: self.states[i],
        }
    }

    // Rules 3 to 7 on the list, in one pass; they look at no device id and at no handle. A row is a number in all columns: four zipped columns would be no plainer.
    fn scan(self, kind: Kind) -> Result<usize, Refusal>
        requires even { Even kind (lent self) }
        ensures { verdict_of result ≡ verdict [] 0 (list_from (λ i. (column_row (lent self.entry) i).extent) (length self.entry.offsets.now) 0) }
    {
        let n = self.offsets.len();
        let mut passed = Scan::start();
        for i in 0..n {
            passed.pass(self.numbers(kind, i), i)?;
        }
        Ok(n)
    }

    // The check of the list: uneven columns get 1 before all else, then rules 2 to 7.
    pub fn check(self, kind: Kind) -> Result<usize, Refusal>
        ensures { verdict_of result ≡ check_columns kind (lent self.entry) }
    {
        if !self.even(kind) {
            return Err(Rule::Shape.at(0));
        }
        if 1024 < self.offsets.len() {
            return Err(Rule::Count.at(0));
        }
        self.scan(kind)
    }

    // Stores the extent in row i from `at` on; a list without handles has 0 for each.
    fn put_row(self, kind: Kind, d: &mut [u8], at: usize, i: usize)
        requires kind_in_bounds { (at + (44 + handle_size kind) ≤ length d.old) × (i < length self.offsets.now) }
        requires even { Even kind (lent self) }
        ensures { d.new ≡ sets d.old at (row_bytes kind (column_row (lent self.entry) i)) }
    {
        let handle = self.handles.get(i).copied().unwrap_or(0);
        fields::put_device(d, at, self.devices, 16 * i);
        kind.put_numbers(d, at + 16, self.numbers(kind, i), handle);
    }

    // Stores all extents, after the count.
    fn fill(self, kind: Kind, d: &mut [u8])
        requires offsets_in_bounds { body_size kind (length self.offsets.now) ≤ length d.old }
        requires even { Even kind (lent self) }
        ensures { d.new ≡ sets d.old 4 (rows_bytes kind (column_list (lent self.entry))) }
    {
        for i in 0..self.offsets.len() {
            self.put_row(kind, d, kind.body_size(i), i);
        }
    }

    // Writes the list as a body of that kind at the start of `d`; the rest of `d` stays, and all of it where the list is refused.
    pub fn write(self, kind: Kind, d: &mut [u8]) -> Result<usize, Refusal>
        ensures { Wrote kind (lent self.entry) d.old (verdict_of result) d.new }
    {
        let n = self.check(kind)?;
        if d.len() < kind.body_size(n) {
            return Err(Rule::Room.at(0));
        }
        xdr::put32(d, 0, n as u32);
        self.fill(kind, d);
        Ok(n)
    }
}
