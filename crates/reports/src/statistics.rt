// The statistics records of a LAYOUTRETURN's body (RFC 8435, 9.2; Ticket 3).
// In order: what stands at a cursor; `past_record`, by which every walk goes; `next`, which reads the record's numbers too; `check`, the records' status.
ghost use Rattle.std.specs.Prelude.{◌≡◌, ◌+◌, ◌≤◌, length, drop, IfSome};
ghost use Rattle.reports.specs.Report.{status_of};
ghost use Rattle.reports.specs.Statistics.{layoutupdate, iostats};
ghost use Rattle.reports.specs.StatisticsSteps.{item_of, next_of, statistics_from};
ghost use Rattle.statuses.specs.Numbers.{code};
ghost use Rattle.xdr.specs.Past.{past_of};

use crate::Malformed;
use crate::cursor::Cursor;
use statuses::Status;
use xdr::fields::{left, past_opaque};

// A record: the device's two halves, its bytes read and written, and the cursor past it.
#[derive(Clone, Copy)]
pub struct Statistic {
    pub high: u64,
    pub low: u64,
    pub read: u64,
    pub written: u64,
    pub next: Cursor,
}

// The place past the layout update of a record: three opaque fields of at most 128 bytes, then 144 bytes that end with a boolean.
fn past_update(s: &[u8], at: usize) -> Option<usize>
    ensures { result ≡ past_of (length s.now) (layoutupdate (drop at s.now)) }
{
    let address = past_opaque(s, at, 128)?;
    let handle = past_opaque(s, address, 128)?;
    let latency = past_opaque(s, handle, 128)?;
    if left(s, latency) < 144 {
        return None;
    }
    if 1 < xdr::be32(s, latency + 140) {
        return None;
    }
    Some(latency + 144)
}

// The place past a record. It takes at least 80 bytes.
fn past_record(s: &[u8], at: usize) -> Option<usize>
    ensures place { result ≡ past_of (length s.now) (iostats (drop at s.now)) }
    ensures within { IfSome result (λ end. (at + 80 ≤ end) × (end ≤ length s.now)) }
{
    if left(s, at) < 80 {
        return None;
    }
    past_update(s, at + 80)
}

// The record at the cursor, or none where no record is to come and nothing follows.
pub fn next(s: &[u8], c: Cursor) -> Result<Option<Statistic>, Malformed>
    ensures { item_of result ≡ next_of s.now c }
{
    let at = c.at;
    if c.left == 0 {
        if at < s.len() {
            return Err(Malformed);
        }
        return Ok(None);
    }
    let Some(end) = past_record(s, at) else {
        return Err(Malformed);
    };
    Ok(Some(Statistic {
        high: xdr::be64(s, at + 64),
        low: xdr::be64(s, at + 72),
        read: xdr::be64(s, at + 40),
        written: xdr::be64(s, at + 56),
        next: Cursor {
            at: end,
            left: c.left - 1,
        },
    }))
}

// The status of what is left from a cursor on: 10036 where the statistics records are malformed or something follows them.
// Where no record is to come it calls nothing.
pub fn check(s: &[u8], from: Cursor) -> Result<(), Status>
    ensures { code result ≡ status_of (statistics_from s.now from) }
{
    let mut at = from.at;
    let mut n = from.left;
    // No `for`, which has no measure but the count.
    while n != 0 {
        let Some(end) = past_record(s, at) else {
            return Err(Status::BadXdr);
        };
        at = end;
        n -= 1;
    }
    if s.len() <= at {
        return Ok(());
    }
    Err(Status::BadXdr)
}
