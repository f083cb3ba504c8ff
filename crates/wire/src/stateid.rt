// Stateids as numbers (RFC 8881, 8.2; 02, Ticket 13): the sixteen bytes of a request's stateid, and an `other` that a caller gives for a new one.
ghost use Rattle.std.specs.Prelude.{◌≡◌};
ghost use Rattle.wire.specs.Stateid.{no_stateid, stateid_in, new_stateid, bad_other, has_other, raised_stateid};

// The first 8 and the last 4 bytes of the `other`, and the seqid.
#[repr(C)]
#[derive(Clone, Copy, PartialEq, Eq)]
pub struct Stateid {
    pub high: u64,
    pub low: u32,
    pub seqid: u32,
}

impl Stateid {
    // Sixteen zero bytes.
    pub fn none() -> Stateid
        ensures { result ≡ no_stateid }
    {
        Stateid {
            high: 0,
            low: 0,
            seqid: 0,
        }
    }

    // Whether this stateid has the `other` of `t`, whatever their seqids: so no `==` of the whole.
    pub fn has_other(self, t: Stateid) -> bool
        ensures { result ≡ has_other t self }
    {
        self.high == t.high && self.low == t.low
    }

    // The stateid with the next seqid.
    pub fn raise(self) -> Stateid
        ensures { result ≡ raised_stateid self }
    {
        Stateid {
            seqid: crate::seqid::raised(self.seqid),
            ..self
        }
    }
}

// The stateid of a file's return; zeros where the request is too short to have one.
pub fn in_request(request: &[u8]) -> Stateid
    ensures { result ≡ stateid_in request.now }
{
    if request.len() < 48 {
        return Stateid::none();
    }
    let seqid = xdr::be32(request, 32);
    let high = xdr::be64(request, 36);
    let low = xdr::be32(request, 44);
    Stateid { high, low, seqid }
}

// The first stateid of an `other`, with seqid 1, which stands apart from its seqid there and here not, so that each is read by its places; zeros where it is not 12 bytes.
#[tactic(auto, unfolding(crate::specs::Stateid::new_stateid))]
pub fn begun(other: &[u8]) -> Stateid
    ensures { result ≡ new_stateid other.now }
{
    if other.len() != 12 {
        return Stateid::none();
    }
    let high = xdr::be64(other, 0);
    let low = xdr::be32(other, 8);
    Stateid {
        high,
        low,
        seqid: 1,
    }
}

// Whether an `other` can't be a new stateid's: it is not 12 bytes, all zeros or all ones.
#[tactic(auto, using(crate::proofs::Bytes::as_same), unfolding(crate::specs::Stateid::bad_other))]
pub fn bad_other(other: &[u8]) -> bool
    ensures { result ≡ bad_other other.now }
{
    other.len() != 12 || other[..] == [0; 12] || other[..] == [255; 12]
}
