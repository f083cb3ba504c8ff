// The body of a LAYOUTRETURN, as the part of the request where it lies (paper 01, "LAYOUTRETURN"): the part of a length that is known, and the body of
// any request.
ghost use Rattle.std.specs.Prelude.{◌≡◌};
ghost use Rattle.wire.specs.Request.{part_of, body_of};

use crate::request::{Request, read};

// The part of `len` bytes from where a body begins; empty where it is not all there.
#[tactic(auto, unfolding(crate::specs::Request::part_of))]
pub fn part(s: &[u8], len: usize) -> &[u8]
    ensures { result.now ≡ part_of len s.now }
{
    s.get(52..)
        .and_then(|rest| rest.get(..len))
        .unwrap_or(&s[..0])
}

// The body; empty where the request hands none back.
pub fn body(s: &[u8]) -> &[u8]
    ensures { result.now ≡ body_of s.now }
{
    match read(s) {
        Ok(Request::File { len, .. }) => part(s, len),
        Ok(Request::Bulk) => &s[..0],
        Err(_) => &s[..0],
    }
}
