// The arguments of a LAYOUTRETURN: LAYOUTRETURN4args of RFC 8881 (paper 01, "LAYOUTRETURN", steps 1 to 3).
// In order: the kinds of stateid; what a request asks for; step 1; step 2; the kind of a stateid; `read`, the answer of the three steps; the same for C.
ghost use Rattle.std.specs.Prelude.{◌≡◌};
ghost use Rattle.statuses.specs.Numbers.{code};
ghost use Rattle.wire.specs.Request.{refusal_of, answer_of, request_of, number_of, kind_of, body_at, body_length};
ghost use Rattle.wire.specs.RequestSteps.{file_as, file_form, form_as, form_of, kind_of_numbers};
ghost use Rattle.wire.specs.Stateid.{kind_number};

use crate::stateid::{Stateid, in_request};
use statuses::Status;
use xdr::fields::pad;

// The kinds of stateid (RFC 8881, 8.2.3; Ticket 6): a seqid of 4 bytes and an `other` of 12.
#[derive(Clone, Copy, PartialEq, Eq)]
pub enum Kind {
    // All sixteen bytes are zero.
    Anonymous,
    // All sixteen bytes are ones: read bypass.
    Bypass,
    // Seqid 1, and `other` all zeros.
    Current,
    // `other` all zeros or all ones, with any other seqid.
    Invalid,
    // The rest.
    Ordinary,
}

// The number of a kind in C.
impl From<Kind> for u32 {
    ghost from_gives = { λ kind n. n ≡ kind_number kind };

    fn from(kind: Kind) -> u32 {
        match kind {
            Kind::Ordinary => 2,
            Kind::Anonymous => 3,
            Kind::Bypass => 4,
            Kind::Current => 5,
            Kind::Invalid => 6,
        }
    }
}

// What a request asks for.
#[derive(Clone, Copy, PartialEq, Eq)]
pub enum Request {
    // Return type 2 or 3: handed on.
    Bulk,
    // A file's return: the kind of its stateid, and the length of its body, which lies from byte 52 on.
    File { kind: Kind, len: usize },
}

// How the bytes are laid out.
#[derive(Clone, Copy, PartialEq, Eq)]
enum Form {
    // Return type 2 or 3.
    Bulk,
    // Return type 1, with the body's length.
    File(usize),
}

// Step 1 for return type 1: the body's length and limit, its bytes, its padding, and nothing more. The length of the body.
#[tactic(auto, unfolding(crate::specs::RequestSteps::file_form))]
fn file_laid_out(s: &[u8]) -> Option<usize>
    ensures { file_as result ≡ file_form s.now }
{
    if s.len() < 52 {
        return None;
    }
    let len = xdr::be32(s, 48) as usize;
    if 4096 < len {
        return None;
    }
    let padding = s.get(52 + len..)?;
    (padding == &[0; 4][..pad(len)]).then_some(len)
}

// Step 1.
#[tactic(auto, unfolding(crate::specs::RequestSteps::form_of))]
fn laid_out(s: &[u8]) -> Option<Form>
    ensures { form_as result ≡ form_of s.now }
{
    if s.len() < 16 {
        return None;
    }
    if 1 < xdr::be32(s, 0) {
        return None;
    }
    match xdr::be32(s, 12) {
        1 => file_laid_out(s).map(Form::File),
        2..=3 => (s.len() == 16).then_some(Form::Bulk),
        0 | 4..=4294967295 => None,
    }
}

// Step 2.
#[tactic(auto, unfolding(crate::specs::Request::refusal_of))]
fn supported(layout: u32, iomode: u32) -> Result<(), Status>
    ensures { code result ≡ refusal_of layout iomode }
{
    match layout {
        4 => match iomode {
            1..=3 => Ok(()),
            0 | 4..=4294967295 => Err(Status::BadIomode),
        },
        _ => Err(Status::UnknownLayoutType),
    }
}

// Which kind a stateid is, by its numbers.
#[tactic(auto, unfolding(crate::specs::RequestSteps::kind_of_numbers))]
fn kind_of(t: Stateid) -> Kind
    ensures { result ≡ kind_of_numbers t }
{
    match (t.high, t.low, t.seqid) {
        (0, 0, 0) => Kind::Anonymous,
        (0, 0, 1) => Kind::Current,
        (0, 0, _) => Kind::Invalid,
        (u64::MAX, u32::MAX, u32::MAX) => Kind::Bypass,
        (u64::MAX, u32::MAX, _) => Kind::Invalid,
        _ => Kind::Ordinary,
    }
}

// Steps 1 to 3; the kind of a file's stateid is asked last.
pub fn read(s: &[u8]) -> Result<Request, Status>
    ensures { answer_of result ≡ request_of s.now }
{
    let form = laid_out(s).ok_or(Status::BadXdr)?;
    supported(xdr::be32(s, 4), xdr::be32(s, 8))?;
    match form {
        Form::Bulk => Ok(Request::Bulk),
        Form::File(len) => {
            let kind = kind_of(in_request(s));
            Ok(Request::File { kind, len })
        }
    }
}

// For C: steps 1 to 3. Answers the number of a refusal, or 0; `kind` is 0 for a refusal, 1 for a request that is handed on, and from 2 on a file's
// return by the kind of its stateid; `at` and `len` say where in the request its body lies, and are 0 where there is none.
pub fn sc_layoutreturn_check(request: &[u8], kind: &mut u32, at: &mut u64, len: &mut u64) -> u32
    ensures { (result ≡ number_of (request_of request.now)) × (kind.new ≡ kind_of (request_of request.now)) × (at.new ≡ body_at (request_of request.now)) × (len.new ≡ body_length (request_of request.now)) }
{
    *kind = 0;
    *at = 0;
    *len = 0;
    match read(request) {
        Ok(Request::Bulk) => *kind = 1,
        Ok(Request::File { kind: k, len: n }) => {
            *kind = u32::from(k);
            *at = 52;
            *len = n as u64;
        }
        Err(status) => return u32::from(status),
    }
    0
}
