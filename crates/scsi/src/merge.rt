// For C: merging a list of extents into a layout body (Ticket 9), from crate `joining`.
ghost use Rattle.std.specs.Prelude.{length};
ghost use Rattle.merging.specs.Merged.{merged};
ghost use Rattle.joining.specs.Merge.{column_list, merge_columns, MergedC};

use crate::layout;

// The merger: 0, or the number of the rule that refuses; through `place` how many extents were written, or the place of the refused one.
pub fn sc_layout_merge(
    devs: &[u8],
    offs: &[u64],
    lens: &[u64],
    stos: &[u64],
    sts: &[u32],
    d: &mut [u8],
    place: &mut u64,
) -> u32
    ensures { MergedC (merge_columns devs.now offs.now lens.now stos.now sts.now (length d.old)) (merged (column_list devs.now offs.now lens.now stos.now sts.now)) d.old result place.new d.new }
{
    layout::numbers(joining::merge::merge(devs, offs, lens, stos, sts, d), place)
}
