// The seqid of a stateid (RFC 8881, 8.2.2; 02, Ticket 13): how a given one stands to the latest, and the next one.
ghost use Rattle.std.specs.Prelude.{◌≡◌};
ghost use Rattle.wire.specs.Seqid.{age_of, raised_seqid};

// How a seqid stands to the latest.
#[derive(Clone, Copy, PartialEq, Eq)]
pub enum Age {
    Same,
    Older,
    Newer,
}

// 0 means the latest; below 2^31 behind is older.
#[tactic(auto, unfolding(crate::specs::Seqid::age_of, crate::specs::Seqid::behind))]
pub fn age_of(latest: u32, given: u32) -> Age
    ensures { result ≡ age_of latest given }
{
    if given == 0 {
        return Age::Same;
    }
    let n = latest.wrapping_sub(given);
    if n == 0 {
        return Age::Same;
    }
    if n < 2147483648 {
        return Age::Older;
    }
    Age::Newer
}

// The next seqid: after 4294967295 comes 1.
#[tactic(auto, unfolding(crate::specs::Seqid::raised_seqid))]
pub fn raised(seqid: u32) -> u32
    ensures { result ≡ raised_seqid seqid }
{
    seqid.checked_add(1).unwrap_or(1)
}
