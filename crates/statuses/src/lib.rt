// The statuses that calls are refused with, by NFS's own names and numbers (RFC 8881, 15.1), and one number that is no status of NFS.
// In this order: the statuses; the number of an answer; the one that is no status. Definitions in specs/ keep the numbers, so that a wrong one is
// refused where it is used: specs/Numbers.antt ties both; specs/Rules.antt has what a table of refusals is.
#![tactic(auto)]

ghost use Rattle.std.specs.Prelude.{◌≡◌};
ghost use Rattle.statuses.specs.Numbers.{number, code};

// Why a call is refused.
#[derive(Clone, Copy, PartialEq, Eq)]
pub enum Status {
    // The node is no member of the cluster, or the file has no proxy.
    NoEnt = 2,
    // The file is registered or has a proxy, the client has a stateid, or the node is a member, already.
    Exist = 17,
    // A node above 31, a bad mirror list, proxy or stateid, or nothing to repair or to finish.
    Inval = 22,
    // No room: in a table, in a buffer that is lent, or for another epoch.
    NoSpc = 28,
    // No such file.
    Stale = 70,
    // Not yet: the file needs repair, or an intent is open.
    Delay = 10008,
    // A grace period is on.
    Grace = 10013,
    // A seqid that is older than the latest.
    OldStateid = 10024,
    // No intent to close or to give a stateid, one that is not reclaimed, or a stateid that is not taken: the anonymous one where the record is old,
    // read bypass, an invalid one, and one that the client does not hold.
    BadStateid = 10025,
    // No grace period is on.
    NoGrace = 10033,
    // The client has no intent on the file.
    ReclaimBad = 10034,
    // Malformed bytes.
    BadXdr = 10036,
    // An iomode outside 1 to 3.
    BadIomode = 10049,
    // A layout type that is not 4.
    UnknownLayoutType = 10062,
}

impl From<Status> for u32 {
    ghost from_gives = { λ status n. n ≡ number status };

    fn from(status: Status) -> u32 {
        status as u32
    }
}

// The number of an answer: 0, or that of the refusal.
pub fn code(answer: Result<(), Status>) -> u32
    ensures { result ≡ code answer }
{
    match answer {
        Ok(()) => 0,
        Err(status) => u32::from(status),
    }
}

// Stands for "handed on" where a status is answered: no status of NFS is this number.
pub const HANDED_ON: u32 = 4294967295;
