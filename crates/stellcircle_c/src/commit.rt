// A client's LAYOUTCOMMIT: the C call of `commits`.

ghost use Rattle.std.specs.Prelude.{length};
ghost use Rattle.commits.specs.Commit.{commit_columns};
ghost use Rattle.committing.specs.Commit.{committed};
ghost use Rattle.committing.specs.Ranges.{ranges_of};
ghost use Rattle.joining.specs.Merge.{MergedC, column_list};

#[unsafe(no_mangle)]
pub extern "C" fn sc_layout_commit(
    commits: &[u8],
    block: u64,
    devices: &[u8],
    offsets: &[u64],
    lengths: &[u64],
    storages: &[u64],
    states: &[u32],
    d: &mut [u8],
    place: &mut u64,
) -> u32
    ensures { MergedC (commit_columns commits.now block devices.now offsets.now lengths.now storages.now states.now (length d.old)) (committed (ranges_of commits.now) (column_list devices.now offsets.now lengths.now storages.now states.now)) d.old result place.new d.new }
{
    commits::commit::sc_layout_commit(
        commits, block, devices, offsets, lengths, storages, states, d, place,
    )
}
