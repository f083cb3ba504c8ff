// For C: the check of a SCSI layout body, its extents by place, and the writer, from crate `layouts`; those of RDMA bodies are crate `rdma`'s.
// In this order: the two numbers of an answer; the check; the extent at a place, of either kind and of a SCSI body; the writer.
ghost use Rattle.std.specs.Prelude.{◌≡◌, []};
ghost use Rattle.extents.specs.Extents.{number_of, place_of};
ghost use Rattle.extents.specs.Verdict.{verdict_of};
ghost use Rattle.layouts.specs.declared.kinds.Kind.TheVariants.{Scsi};
ghost use Rattle.layouts.specs.Layout.{check_body, extent_in, verdict_by, GaveC};
ghost use Rattle.layouts.specs.Columns.{WroteC};

use extents::Refusal;
use layouts::columns::Columns;
use layouts::kinds::Kind;

// 0, or the number of the rule that refuses; through `place` how many extents there are, or the place of the refused one.
pub fn numbers(answer: Result<usize, Refusal>, place: &mut u64) -> u32
    ensures { (result ≡ number_of (verdict_of answer)) × (place.new ≡ place_of (verdict_of answer)) }
{
    match answer {
        Ok(n) => {
            *place = n as u64;
            0
        }
        Err(refusal) => {
            *place = refusal.place as u64;
            refusal.rule.into()
        }
    }
}

// The same of an answer whose refusal is two numbers, whatever they are.
pub fn any_numbers(answer: Result<usize, (u32, usize)>, place: &mut u64) -> u32
    ensures { (result ≡ number_of (verdict_by answer)) × (place.new ≡ place_of (verdict_by answer)) }
{
    match answer {
        Ok(n) => numbers(Ok(n), place),
        Err((rule, at)) => {
            *place = at as u64;
            rule
        }
    }
}

// The check: 0, or the number of the rule that refuses; through `place` how many extents there are, or the place of the refused one.
pub fn sc_layout_check(body: &[u8], place: &mut u64) -> u32
    ensures { (result ≡ number_of (check_body Scsi body.now)) × (place.new ≡ place_of (check_body Scsi body.now)) }
{
    numbers(layouts::layout::check(Kind::Scsi, body), place)
}

// The extent at place i of a body of that kind of which the check counted n, in constant time: 0, where in the body its device id stands, its handle, 0 in a
// SCSI body, and its numbers. At or past n, or past what the body has room for: 9, and zeros.
pub fn extent(
    kind: Kind,
    body: &[u8],
    n: u64,
    i: u64,
    device: &mut u64,
    offset: &mut u64,
    handle: &mut u32,
    len: &mut u64,
    storage: &mut u64,
    state: &mut u32,
) -> u32
    ensures { (GaveC (extent_in kind body.now 0 n i) result device.new offset.new len.new storage.new state.new) × (handle.new ≡ (extent_in kind body.now 0 n i).handle) }
{
    match layouts::layout::extent_in(kind, body, Ok(n as usize), i as usize) {
        Ok(found) => {
            let e = found.extent;
            *device = found.at as u64;
            *offset = e.offset;
            *handle = found.handle;
            *len = e.len;
            *storage = e.storage;
            *state = e.state;
            0
        }
        Err(refusal) => {
            *device = 0;
            *offset = 0;
            *handle = 0;
            *len = 0;
            *storage = 0;
            *state = 0;
            refusal.rule.into()
        }
    }
}

// The extent at place i of a SCSI body, as above.
pub fn sc_layout_extent(
    body: &[u8],
    n: u64,
    i: u64,
    device: &mut u64,
    offset: &mut u64,
    len: &mut u64,
    storage: &mut u64,
    state: &mut u32,
) -> u32
    ensures { GaveC (extent_in Scsi body.now 0 n i) result device.new offset.new len.new storage.new state.new }
{
    let mut handle = 0;
    extent(
        Kind::Scsi,
        body,
        n,
        i,
        device,
        offset,
        &mut handle,
        len,
        storage,
        state,
    )
}

// The writer: 0, or the number of the rule that refuses; through `place` how many extents were written, or the place of the refused one.
pub fn sc_layout_write(
    devices: &[u8],
    offsets: &[u64],
    lengths: &[u64],
    storages: &[u64],
    states: &[u32],
    d: &mut [u8],
    place: &mut u64,
) -> u32
    ensures { WroteC Scsi (record { devices = devices.entry.now; offsets = offsets.now; handles = []; lengths = lengths.now; storages = storages.now; states = states.now }) d.old result place.new d.new }
{
    let rows = Columns {
        devices,
        offsets,
        handles: &[],
        lengths,
        storages,
        states,
    };
    numbers(rows.write(Kind::Scsi, d), place)
}
