// Layout bodies, of SCSI layouts and of RDMA layouts: the C calls of `scsi` and `rdma`.

ghost use Rattle.std.specs.Prelude.{[], length, ◌≡◌};
ghost use Rattle.extents.specs.Extents.{number_of, place_of};
ghost use Rattle.joining.specs.Merge.{MergedC, column_list, merge_columns};
ghost use Rattle.layouts.specs.Columns.{WroteC};
ghost use Rattle.layouts.specs.Layout.{GaveC, check_body, extent_in};
ghost use Rattle.layouts.specs.declared.kinds.Kind.TheVariants.{Rdma, Scsi};
ghost use Rattle.merging.specs.Merged.{merged};

#[unsafe(no_mangle)]
pub extern "C" fn sc_layout_check(body: &[u8], place: &mut u64) -> u32
    ensures { (result ≡ number_of (check_body Scsi body.now)) × (place.new ≡ place_of (check_body Scsi body.now)) }
{
    scsi::layout::sc_layout_check(body, place)
}

#[unsafe(no_mangle)]
pub extern "C" fn sc_layout_extent(
    body: &[u8],
    n: u64,
    i: u64,
    device: &mut u64,
    offset: &mut u64,
    len: &mut u64,
    storage: &mut u64,
    state: &mut u32,
) -> u32
    ensures { GaveC (extent_in Scsi body.now 0 n i) result device.new offset.new len.new storage.new state.new }
{
    scsi::layout::sc_layout_extent(body, n, i, device, offset, len, storage, state)
}

#[unsafe(no_mangle)]
pub extern "C" fn sc_layout_write(
    devices: &[u8],
    offsets: &[u64],
    lengths: &[u64],
    storages: &[u64],
    states: &[u32],
    d: &mut [u8],
    place: &mut u64,
) -> u32
    ensures { WroteC Scsi (record { devices = devices.entry.now; offsets = offsets.now; handles = []; lengths = lengths.now; storages = storages.now; states = states.now }) d.old result place.new d.new }
{
    scsi::layout::sc_layout_write(devices, offsets, lengths, storages, states, d, place)
}

#[unsafe(no_mangle)]
pub extern "C" fn sc_layout_merge(
    devs: &[u8],
    offs: &[u64],
    lens: &[u64],
    stos: &[u64],
    sts: &[u32],
    d: &mut [u8],
    place: &mut u64,
) -> u32
    ensures { MergedC (merge_columns devs.now offs.now lens.now stos.now sts.now (length d.old)) (merged (column_list devs.now offs.now lens.now stos.now sts.now)) d.old result place.new d.new }
{
    scsi::merge::sc_layout_merge(devs, offs, lens, stos, sts, d, place)
}

#[unsafe(no_mangle)]
pub extern "C" fn sc_rdma_layout_check(body: &[u8], place: &mut u64) -> u32
    ensures { (result ≡ number_of (check_body Rdma body.now)) × (place.new ≡ place_of (check_body Rdma body.now)) }
{
    rdma::sc_rdma_layout_check(body, place)
}

#[unsafe(no_mangle)]
pub extern "C" fn sc_rdma_layout_extent(
    body: &[u8],
    n: u64,
    i: u64,
    device: &mut u64,
    offset: &mut u64,
    handle: &mut u32,
    len: &mut u64,
    storage: &mut u64,
    state: &mut u32,
) -> u32
    ensures { (GaveC (extent_in Rdma body.now 0 n i) result device.new offset.new len.new storage.new state.new) × (handle.new ≡ (extent_in Rdma body.now 0 n i).handle) }
{
    rdma::sc_rdma_layout_extent(body, n, i, device, offset, handle, len, storage, state)
}

#[unsafe(no_mangle)]
pub extern "C" fn sc_rdma_layout_write(
    devices: &[u8],
    offsets: &[u64],
    handles: &[u32],
    lengths: &[u64],
    storages: &[u64],
    states: &[u32],
    d: &mut [u8],
    place: &mut u64,
) -> u32
    ensures { WroteC Rdma (record { devices = devices.entry.now; offsets = offsets.now; handles = handles.now; lengths = lengths.now; storages = storages.now; states = states.now }) d.old result place.new d.new }
{
    rdma::sc_rdma_layout_write(
        devices, offsets, handles, lengths, storages, states, d, place,
    )
}
