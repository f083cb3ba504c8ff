// Merging a list of extents that is lent as columns into a layout body (Ticket 9): uneven columns get 1 before all else; 2 above 4,096 extents; then rules 3 to 7;
// 28 where more than 1,024 are left; last 8. In this order: the extent of a row; one pass that checks and counts; one that writes; the call.
ghost use Rattle.std.specs.Prelude.{◌≡◌, ◌+◌, ◌*◌, ◌<◌, ◌≤◌, [], length};
ghost use Rattle.std.proofs.lemmas.List.Edits.{sets};
ghost use Rattle.extents.specs.Extents.{verdict};
ghost use Rattle.extents.specs.Verdict.{Accepted, verdict_of};
ghost use Rattle.layouts.specs.declared.kinds.Kind.TheVariants.{Scsi};
ghost use Rattle.layouts.specs.Columns.{Even};
ghost use Rattle.merging.specs.Merged.{merged};
ghost use Rattle.joining.specs.Joiner.{bytes_of, row_piece};
ghost use Rattle.joining.specs.Merge.{column_list, scsi_columns, list_of, comes_to, merge_columns, merged_by};

use crate::joiner::{Piece, Runs};
use extents::{Refusal, Rule, Scan};
use layouts::columns::Columns;
use layouts::kinds::Kind;

// The extent of row i.
fn row(rows: Columns, i: usize) -> Piece
    requires { (i < length rows.offsets.now) × (i < length rows.lengths.now) × (i < length rows.storages.now) × (i < length rows.states.now) }
    ensures { result ≡ row_piece rows.entry.offsets.now rows.entry.lengths.now rows.entry.storages.now rows.entry.states.now i }
{
    Piece {
        row: i,
        offset: rows.offsets[i],
        len: rows.lengths[i],
        storage: rows.storages[i],
        state: rows.states[i],
    }
}

// Rules 3 to 7 on the list, and how many extents it comes to, in one pass.
fn count(rows: Columns) -> Result<usize, Refusal>
    requires even { Even Scsi (scsi_columns rows) }
    requires offs_len_bound { length rows.offsets.now ≤ 4096 }
    ensures { verdict_of result ≡ comes_to (verdict [] 0 (list_of rows.entry)) (length (merged (list_of rows.entry))) }
{
    let mut passed = Scan::start();
    let mut runs = Runs::new();
    for i in 0..rows.offsets.len() {
        let p = row(rows, i);
        passed.pass(p.numbers(), i)?;
        runs.feed(rows.devices, p);
    }
    Ok(runs.count)
}

// Stores the merged list, after the count: each run when it starts, and its length when a piece lengthens it.
fn fill(d: &mut [u8], rows: Columns)
    requires sts_in_bounds { 4 + 44 * length (merged (list_of rows)) ≤ length d.old }
    requires even { Even Scsi (scsi_columns rows) }
    requires sts_value { verdict [] 0 (list_of rows) ≡ Accepted (length rows.offsets.now) }
    requires offs_len_bound { length rows.offsets.now ≤ 4096 }
    ensures { d.new ≡ sets d.old 4 (bytes_of (merged (list_of rows.entry))) }
{
    let mut runs = Runs::new();
    for i in 0..rows.offsets.len() {
        let p = row(rows, i);
        let step = runs.feed(rows.devices, p);
        step.store(d, rows.devices, p);
    }
}

// Merges the list and writes it as a body at the start of `d`; the rest of `d` stays, and all of it on a refusal.
pub fn merge(
    devs: &[u8],
    offs: &[u64],
    lens: &[u64],
    stos: &[u64],
    sts: &[u32],
    d: &mut [u8],
) -> Result<usize, Refusal>
    ensures answered { verdict_of result ≡ merge_columns devs.now offs.now lens.now stos.now sts.now (length d.old) }
    ensures stored { d.new ≡ merged_by (verdict_of result) (merged (column_list devs.now offs.now lens.now stos.now sts.now)) d.old }
{
    let none = [0u32; 0];
    let rows = Columns {
        devices: devs,
        offsets: offs,
        handles: &none,
        lengths: lens,
        storages: stos,
        states: sts,
    };
    if !rows.even(Kind::Scsi) {
        return Err(Rule::Shape.at(0));
    }
    if 4096 < offs.len() {
        return Err(Rule::Count.at(0));
    }
    let k = count(rows)?;
    if 1024 < k {
        return Err(Rule::NoSpc.at(0));
    }
    if d.len() < 4 + 44 * k {
        return Err(Rule::Room.at(0));
    }
    xdr::put32(d, 0, k as u32);
    fill(d, rows);
    Ok(k)
}
