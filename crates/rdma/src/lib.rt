// For C: the check of an RDMA layout body, its extents by place with their handles, and the writer (Ticket 5; source document 001, section 2.4), from crate
// `layouts`. A kind is a constant in each of the two crates, this one and `scsi`, that have its calls: C calls each by its own name.
// In this order: the check; the extent at a place; the writer.
#![tactic(auto)]

ghost use Rattle.std.specs.Prelude.{◌≡◌};
ghost use Rattle.extents.specs.Extents.{number_of, place_of};
ghost use Rattle.layouts.specs.declared.kinds.Kind.TheVariants.{Rdma};
ghost use Rattle.layouts.specs.Layout.{check_body, extent_in, GaveC};
ghost use Rattle.layouts.specs.Columns.{WroteC};

use layouts::columns::Columns;
use layouts::kinds::Kind;
use scsi::layout::numbers;

// The check: 0, or the number of the rule that refuses; through `place` how many extents there are, or the place of the refused one.
pub fn sc_rdma_layout_check(body: &[u8], place: &mut u64) -> u32
    ensures { (result ≡ number_of (check_body Rdma body.now)) × (place.new ≡ place_of (check_body Rdma body.now)) }
{
    numbers(layouts::layout::check(Kind::Rdma, body), place)
}

// The extent at place i of a body of which the check counted n, in constant time: 0, where in the body its device id stands, its handle and its numbers. At
// or past n, or past what the body has room for: 9, and zeros.
pub fn sc_rdma_layout_extent(
    body: &[u8],
    n: u64,
    i: u64,
    device: &mut u64,
    offset: &mut u64,
    handle: &mut u32,
    len: &mut u64,
    storage: &mut u64,
    state: &mut u32,
) -> u32
    ensures { (GaveC (extent_in Rdma body.now 0 n i) result device.new offset.new len.new storage.new state.new) × (handle.new ≡ (extent_in Rdma body.now 0 n i).handle) }
{
    scsi::layout::extent(
        Kind::Rdma,
        body,
        n,
        i,
        device,
        offset,
        handle,
        len,
        storage,
        state,
    )
}

// The writer: 0, or the number of the rule that refuses; through `place` how many extents were written, or the place of the refused one.
pub fn sc_rdma_layout_write(
    devices: &[u8],
    offsets: &[u64],
    handles: &[u32],
    lengths: &[u64],
    storages: &[u64],
    states: &[u32],
    d: &mut [u8],
    place: &mut u64,
) -> u32
    ensures { WroteC Rdma (record { devices = devices.entry.now; offsets = offsets.now; handles = handles.now; lengths = lengths.now; storages = storages.now; states = states.now }) d.old result place.new d.new }
{
    let rows = Columns {
        devices,
        offsets,
        handles,
        lengths,
        storages,
        states,
    };
    numbers(rows.write(Kind::Rdma, d), place)
}
