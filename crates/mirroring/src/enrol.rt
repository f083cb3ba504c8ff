// The mirror list of a register call, as bytes, 16 a device (paper 01, "The recovery record"): the mirrors of a new file, or none if the
// list is bad.
ghost use Rattle.std.specs.Prelude.{◌≡◌, not, length};
ghost use Rattle.mirroring.specs.Mirrors.{whole_list, enrolled, enrolled_of};

use crate::mirrors::{MIRRORS, Mirror, PLACES, stands};

// Whether a list of `n` bytes has 1 to 4 whole ids.
fn whole(n: usize) -> bool
    ensures { result ≡ whole_list n }
{
    n % 16 == 0 && n != 0 && n <= 16 * MIRRORS
}

// The mirrors that a list names, by place; a list with a device that stands there already is bad.
pub fn enrol(list: &[u8]) -> Option<[Mirror; PLACES]>
    ensures { enrolled result ≡ enrolled_of list.now }
{
    if !whole(list.len()) {
        return None;
    }
    let mut ms = [Mirror::none(); PLACES];
    for i in 0..list.len() / 16 {
        let high = xdr::be64(list, 16 * i);
        let low = xdr::be64(list, 16 * i + 8);
        if stands(ms, high, low) {
            return None;
        }
        ms[i] = Mirror::new(high, low);
    }
    Some(ms)
}
