// LAYOUTCOMMIT from a commit list and a list of extents that is lent as columns to a layout body (Ticket 10): uneven columns get 1 before all else; 2 above 1,024 extents; then
// rules 3 to 7; then 10036, 22, 10034, 28 and 8. In this order: the commit list's own refusals; the commit of a list that passes; the call; the same for C.
ghost use Rattle.std.specs.Prelude.{◌≡◌, false, [], ◌≤◌, length, MatchResult};
ghost use Rattle.xdr.specs.Be.{be_nat};
ghost use Rattle.extents.specs.Extents.{verdict};
ghost use Rattle.extents.specs.Verdict.{Verdict, Accepted, verdict_of};
ghost use Rattle.layouts.specs.declared.kinds.Kind.TheVariants.{Scsi};
ghost use Rattle.layouts.specs.Columns.{Even};
ghost use Rattle.committing.specs.Ranges.{ranges_of, malformed, uncommittable};
ghost use Rattle.committing.specs.Commit.{committed};
ghost use Rattle.joining.specs.Merge.{column_list, scsi_columns, list_of, merged_by, MergedC};
ghost use Rattle.commits.specs.Commit.{own_refusal, commit_list, commit_columns};

use crate::ranges::Ranges;
use crate::sweep;
use crate::sweep::{Counting, Writing};
use extents::{Refusal, Rule};
use layouts::columns::Columns;
use layouts::kinds::Kind;

// The ranges of a list that may be committed; 10036 or 22 for others.
fn committable(s: &[u8], block: u64) -> Result<Ranges<'_>, Refusal>
    ensures { MatchResult result (λ r. (malformed s.now ≡ false) × (uncommittable block (ranges_of s.now) ≡ false) × (r.list.now ≡ s.now) × (r.count ≡ be_nat 4 s.now)) (λ e. (v : Verdict) → verdict_of (Err e) ≡ own_refusal s.now block v) }
{
    let ranges = Ranges::read(s).ok_or(Rule::BadXdr.at(0))?;
    if block == 0 || ranges.any_unfit(block) {
        return Err(Rule::Unfit.at(0));
    }
    Ok(ranges)
}

// Commits into a list that passes, and writes the new one.
fn apply(s: &[u8], block: u64, rows: Columns, d: &mut [u8]) -> Result<usize, Refusal>
    requires offs_len_bound { length rows.offsets.now ≤ 1024 }
    requires even { Even Scsi (scsi_columns rows) }
    requires sts_value { verdict [] 0 (list_of rows) ≡ Accepted (length rows.offsets.now) }
    ensures answered { verdict_of result ≡ commit_list s.now block (list_of rows.entry) (length d.old) }
    ensures stored { d.new ≡ merged_by (verdict_of result) (committed (ranges_of s.now) (list_of rows.entry)) d.old }
{
    let ranges = committable(s, block)?;
    let k = sweep::sweep::<Counting>(d, ranges, rows)?;
    if 1024 < k {
        return Err(Rule::NoSpc.at(0));
    }
    if d.len() < 4 + 44 * k {
        return Err(Rule::Room.at(0));
    }
    xdr::put32(d, 0, k as u32);
    sweep::sweep::<Writing>(d, ranges, rows)
}

// Commits the ranges of the list `s`, and writes the new list of extents as a body at the start of `d`; the rest of `d` stays, and all of it on a refusal.
pub fn commit(
    s: &[u8],
    block: u64,
    devs: &[u8],
    offs: &[u64],
    lens: &[u64],
    stos: &[u64],
    sts: &[u32],
    d: &mut [u8],
) -> Result<usize, Refusal>
    ensures answered { verdict_of result ≡ commit_columns s.now block devs.now offs.now lens.now stos.now sts.now (length d.old) }
    ensures stored { d.new ≡ merged_by (verdict_of result) (committed (ranges_of s.now) (column_list devs.now offs.now lens.now stos.now sts.now)) d.old }
{
    let none = [0u32; 0];
    let rows = Columns {
        devices: devs,
        offsets: offs,
        handles: &none,
        lengths: lens,
        storages: stos,
        states: sts,
    };
    rows.check(Kind::Scsi)?;
    apply(s, block, rows, d)
}

// For C: 0, or the number of the rule that refuses; through `place` how many extents were written, or the place of the refused one.
pub fn sc_layout_commit(
    commits: &[u8],
    block: u64,
    devices: &[u8],
    offsets: &[u64],
    lengths: &[u64],
    storages: &[u64],
    states: &[u32],
    d: &mut [u8],
    place: &mut u64,
) -> u32
    ensures { MergedC (commit_columns commits.now block devices.now offsets.now lengths.now storages.now states.now (length d.old)) (committed (ranges_of commits.now) (column_list devices.now offsets.now lengths.now storages.now states.now)) d.old result place.new d.new }
{
    scsi::layout::numbers(
        commit(
            commits, block, devices, offsets, lengths, storages, states, d,
        ),
        place,
    )
}
