// Storing one extent, or its length, in a place of a SCSI body that is lent: for a body that is not written from a list as it stands (Ticket 9). Where the
// body has no such place, or the device ids no such row, nothing is stored.
ghost use Rattle.std.specs.Prelude.{◌≡◌};
ghost use Rattle.layouts.specs.Placing.{extent_put, length_put};

use crate::fields;
use crate::kinds::Kind;
use extents::Numbers;

// Stores an extent in place i: its device id stands in a row of `devices`; one that is `bare` gets zeros for its device id and its storage offset.
pub fn put_extent(d: &mut [u8], i: usize, devices: &[u8], row: usize, n: Numbers, bare: bool)
    ensures { d.new ≡ extent_put d.old i devices.now row n bare }
{
    if i < Kind::Scsi.held(d) && row < devices.len() / 16 {
        fields::put_extent(d, Kind::Scsi.body_size(i), devices, 16 * row, n, bare);
    }
}

// Stores the length of the extent in place i.
pub fn put_length(d: &mut [u8], i: usize, len: u64)
    ensures { d.new ≡ length_put d.old i len }
{
    if i < Kind::Scsi.held(d) {
        fields::put_length(d, Kind::Scsi.body_size(i), len);
    }
}
