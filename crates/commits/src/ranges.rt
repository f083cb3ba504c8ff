// The commit list (source document 001, section 2.4.2): a 4-byte count n, then n ranges, offset and length of 8 bytes each. In this order: 22 on one range; the ranges of a
// list, and 10036, which is for the list's form; one of them; 22 on all.
ghost use Rattle.std.specs.Prelude.{◌≡◌, ◌+◌, ◌*◌, ◌<◌, ◌≤◌, length, true, false, MatchOption};
ghost use Rattle.xdr.specs.Be.{be_nat};
ghost use Rattle.extents.specs.Extents.{list_from};
ghost use Rattle.committing.specs.Ranges.{range_at, malformed, unfit, any_unfit};

// Whether a range may not be committed, where those before it end at `before`.
fn is_unfit(block: u64, before: u64, off: u64, len: u64) -> bool
    requires { 0 < block }
    ensures { result ≡ unfit block before (record { offset = off; len = len }) }
{
    len == 0 || (u64::MAX - off < len || (off % block != 0 || (len % block != 0 || off < before)))
}

// The ranges of a commit list: how many there are, and the list's bytes.
#[derive(Clone, Copy)]
pub(crate) struct Ranges<'a> {
    pub list: &'a [u8],
    pub count: usize,
    pub ghost whole: { (length list.now ≡ 4 + 16 * count) × (count ≤ 1024) },
}

impl<'a> Ranges<'a> {
    // The ranges of a list, unless the bytes are no commit list, or one of more than 1,024 ranges.
    pub(crate) fn read(list: &'a [u8]) -> Option<Ranges<'a>>
        ensures { MatchOption result (malformed list.now ≡ true) (λ r. (malformed list.now ≡ false) × (r.list.now ≡ list.now) × (r.count ≡ be_nat 4 list.now)) }
    {
        if list.len() < 4 {
            return None;
        }
        let count = xdr::be32(list, 0) as usize;
        if 1024 < count || list.len() != 4 + 16 * count {
            return None;
        }
        Some(Ranges { list, count })
    }

    // Where range k begins, and how long it is.
    pub(crate) fn get(self, k: usize) -> (u64, u64)
        requires { k < self.count }
        ensures { (result.0 ≡ (range_at self.entry.list.now k).offset) × (result.1 ≡ (range_at self.entry.list.now k).len) }
    {
        let at = 4 + 16 * k;
        (xdr::be64(self.list, at), xdr::be64(self.list, at + 8))
    }

    // Whether one of them may not be committed.
    pub(crate) fn any_unfit(self, block: u64) -> bool
        requires { 0 < block }
        ensures { result ≡ any_unfit block 0 (list_from (range_at self.entry.list.now) self.entry.count 0) }
    {
        let mut before = 0;
        for k in 0..self.count {
            let (off, len) = self.get(k);
            if is_unfit(block, before, off, len) {
                return true;
            }
            before = off + len;
        }
        false
    }
}
