// The error report of a LAYOUTRETURN, which is its body: ff_layoutreturn4 of RFC 8435 (paper 01, "LAYOUTRETURN", step 5).
// In order: `start` and `next`, by which every caller walks the error records up to the statistics records; a device error of a record; `statistics`, for
// one that wants the statistics records alone; `check`, the status of step 5. What C calls of it stands in crate `flexfiles`.
ghost use Rattle.std.specs.Prelude.{◌≡◌};
ghost use Rattle.reports.specs.Report.{report_of, status_of};
ghost use Rattle.reports.specs.Cursors.{cursor_at};
ghost use Rattle.reports.specs.ReportSteps.{entry_of, next_at, reading_of, device_at, statistics_start};
ghost use Rattle.statuses.specs.Numbers.{code};

use crate::cursor::Cursor;
use crate::{Malformed, statistics};
use statuses::Status;

// What stands at a cursor.
#[derive(Clone, Copy)]
pub enum Entry {
    // An error record, whole: where its device errors begin, how many they are, and the cursor past it.
    Record {
        at: usize,
        devices: u32,
        next: Cursor,
    },
    // No record is to come: the cursor at the first statistics record, which `statistics::next` goes on from.
    Statistics(Cursor),
}

// A device error: its device's two halves, its status, and the place past it. The halves are two fields, as C's mirrors have them.
#[derive(Clone, Copy)]
pub struct DeviceError {
    pub high: u64,
    pub low: u64,
    pub status: u32,
    pub next: usize,
}

// The cursor at a report's first error record. A report too short for its count gets one at which `next` finds it malformed.
pub fn start(s: &[u8]) -> Cursor
    ensures { result ≡ cursor_at s.now 0 }
{
    Cursor::begin(s, 0)
}

// What stands at the cursor. Each step takes at least 36 bytes, whatever the counts say: the device errors are passed by their count. A record without any
// has an answer of its own, so that where the next one stands does not wait for the count to be read.
// The bounds here and in `device` are the length less the bytes that are read, which a walk takes once, and not what is left, which each step takes anew.
#[tactic(auto, unfolding(crate::specs::ReportSteps::next_at))]
pub fn next(s: &[u8], c: Cursor) -> Result<Entry, Malformed>
    ensures { entry_of result ≡ next_at s.now c }
{
    let at = c.at;
    if c.left == 0 {
        return Ok(Entry::Statistics(Cursor::begin(s, at)));
    }
    if s.len() < 36 {
        return Err(Malformed);
    }
    let last = s.len() - 36;
    if last < at {
        return Err(Malformed);
    }
    let devices = xdr::be32(s, at + 32);
    let size = 24 * (devices as usize);
    let records = c.left - 1;
    if size == 0 {
        return Ok(Entry::Record {
            at: at + 36,
            devices,
            next: Cursor {
                at: at + 36,
                left: records,
            },
        });
    }
    if last - at < size {
        return Err(Malformed);
    }
    Ok(Entry::Record {
        at: at + 36,
        devices,
        next: Cursor {
            at: at + 36 + size,
            left: records,
        },
    })
}

// The device error at a place, if its bytes are all there.
#[tactic(auto, unfolding(crate::specs::ReportSteps::device_at))]
pub fn device(s: &[u8], at: usize) -> Option<DeviceError>
    ensures { reading_of result ≡ device_at s.now at }
{
    if s.len() < 24 || s.len() - 24 < at {
        return None;
    }
    Some(DeviceError {
        high: xdr::be64(s, at),
        low: xdr::be64(s, at + 8),
        status: xdr::be32(s, at + 16),
        next: at + 24,
    })
}

// The cursor at a body's first statistics record. A body whose error records are malformed gets one at which `statistics::next` finds it malformed.
pub fn statistics(s: &[u8]) -> Cursor
    ensures { result ≡ statistics_start s.now }
{
    let mut c = start(s);
    // No `for`: which step is the last is found by taking it.
    loop {
        match next(s, c) {
            Ok(Entry::Record { next: after, .. }) => {
                c = after;
            }
            Ok(Entry::Statistics(first)) => {
                return first;
            }
            Err(Malformed) => {
                return Cursor::none(s);
            }
        }
    }
}

// Step 5: 10036 where the report is malformed.
pub fn check(s: &[u8]) -> Result<(), Status>
    ensures { code result ≡ status_of (report_of s.now) }
{
    statistics::check(s, statistics(s))
}
