// Fields of variable size (RFC 4506). In order: the bytes that are left; the same bytes; padding; an opaque field. Paper 01: "Opaque padding is zero bytes".
ghost use Rattle.std.specs.Prelude.{◌≡◌, ◌-◌, length, drop};
ghost use Rattle.xdr.specs.Reader.{same_bytes, padding, bounded};
ghost use Rattle.xdr.specs.Past.{past_of};

use crate::be32;

// The bytes from `at` on.
pub fn left(s: &[u8], at: usize) -> usize
    ensures { result ≡ length s.now - at }
{
    s.len().saturating_sub(at)
}

// Whether two parts hold the same bytes.
#[tactic(auto, using(crate::proofs::Bytes::pairs_same))]
pub fn same(a: &[u8], b: &[u8]) -> bool
    ensures { result ≡ same_bytes a.now b.now }
{
    a == b
}

// How many zero bytes follow an opaque field of `n` bytes, as the definition says it: n.next_multiple_of(4) - n may overflow.
pub fn pad(n: usize) -> usize
    ensures { result ≡ padding n }
{
    (4 - n % 4) % 4
}

// The place past an opaque field of at most `limit` bytes: its length, its bytes and its padding. None where the bytes are not of that form.
// It ends with a test of its own and not `then_some`, by which the check of statistics records took up to 1.17 times gcc in place of 1.04, of 1.2 allowed.
pub fn past_opaque(s: &[u8], at: usize, limit: usize) -> Option<usize>
    ensures { result ≡ past_of (length s.now) (bounded limit (drop at s.now)) }
{
    let room = left(s, at);
    if room < 4 {
        return None;
    }
    let n = be32(s, at) as usize;
    if limit < n {
        return None;
    }
    let p = pad(n);
    if room - 4 < n + p {
        return None;
    }
    let from = at + 4 + n;
    let end = from + p;
    if !same(&s[from..end], &[0; 4][..p]) {
        return None;
    }
    Some(end)
}
