// For C: the check of the body of a flexible files LAYOUTRETURN (RFC 8435), which is a report, and the walks of its device errors and of its statistics records,
// from crate `reports`. Paper 01, "LAYOUTRETURN"; Ticket 3.
// In this order: the check; the cursor of three numbers and the walk of the device errors; the cursor of two and the walk of the statistics records.
#![tactic(auto)]

ghost use Rattle.std.specs.Prelude.{◌≡◌, ◌≤◌};
ghost use Rattle.reports.specs.Report.{report_of, status_of};
ghost use Rattle.reports.specs.ReportSteps.{device_at};
ghost use Rattle.flexfiles.specs.Handed.{answer_of, error_given, first_at, resumed_at, handed, resumed_tail, handed_statistic};

use reports::cursor::Cursor;
use reports::report::Entry;
use statuses::Status;

// Step 5, as `check` answers it.
pub fn sc_report_check(body: &[u8]) -> u32
    ensures { result ≡ status_of (report_of body.now) }
{
    statuses::code(reports::report::check(body))
}

// A place among the device errors: where the next byte is, the error records still to come, and the device errors still to come of the record at hand.
// It is flat, and no Cursor with a count beside it: these are the three numbers that C keeps, of which the claim `HandedOut` speaks.
#[derive(Clone, Copy)]
struct ErrorCursor {
    at: usize,
    records: u32,
    devices: u32,
}

// A device error: the place of its device's sixteen bytes, its status, and the cursor past it.
#[derive(Clone, Copy)]
struct Named {
    device: usize,
    status: u32,
    next: ErrorCursor,
}

// The device error at a place where some are to come, or 10036 where its bytes are not all there.
fn error_at(s: &[u8], c: ErrorCursor) -> Result<Option<Named>, Status>
    requires { 1 ≤ c.devices }
    ensures { answer_of result ≡ error_given c (device_at s.now c.at) }
{
    let Some(e) = reports::report::device(s, c.at) else {
        return Err(Status::BadXdr);
    };
    let next = ErrorCursor {
        at: e.next,
        records: c.records,
        devices: c.devices - 1,
    };
    Ok(Some(Named {
        device: c.at,
        status: e.status,
        next,
    }))
}

// The first device error from the cursor on, past records that have none; or none where the report ends, and the status of step 5.
fn first(s: &[u8], from: ErrorCursor) -> Result<Option<Named>, Status>
    ensures { answer_of result ≡ first_at s.now from }
{
    let mut c = from;
    // No `for`: how many records have no device errors is found by passing them.
    while c.devices == 0 {
        let records = Cursor {
            at: c.at,
            left: c.records,
        };
        match reports::report::next(s, records)? {
            Entry::Record { at, devices, next } => {
                c = ErrorCursor {
                    at,
                    records: next.left,
                    devices,
                };
            }
            Entry::Statistics(rest) => {
                reports::statistics::check(s, rest)?;
                return Ok(None);
            }
        }
    }
    error_at(s, c)
}

// The cursor of three numbers, of which a zero place is the start.
#[tactic(auto, unfolding(crate::specs::Handed::resumed_at))]
fn resumed(s: &[u8], at: usize, records: u32, devices: u32) -> ErrorCursor
    ensures { result ≡ resumed_at s.now at records devices }
{
    if at == 0 {
        let c = reports::report::start(s);
        return ErrorCursor {
            at: c.at,
            records: c.left,
            devices: 0,
        };
    }
    ErrorCursor {
        at,
        records,
        devices,
    }
}

// `first`, with the cursor as three numbers that are 0 at first. Answers 1 with the next device error: the place of the device's sixteen bytes in the body,
// and its status. Otherwise answers the status of step 5, and the cursor stays.
pub fn sc_report_next(
    body: &[u8],
    at: &mut u64,
    records: &mut u32,
    devices: &mut u32,
    device: &mut u64,
    status: &mut u32,
) -> u32
    ensures { handed body.now at.old records.old devices.old ≡ record { answer = result; at = at.new; records = records.new; devices = devices.new; device = device.new; status = status.new } }
{
    *device = 0;
    *status = 0;
    match first(body, resumed(body, *at as usize, *records, *devices)) {
        Ok(Some(e)) => {
            *at = e.next.at as u64;
            *records = e.next.records;
            *devices = e.next.devices;
            *device = e.device as u64;
            *status = e.status;
            1
        }
        Ok(None) => 0,
        Err(refused) => u32::from(refused),
    }
}

// The cursor of two numbers, of which a zero place is the start. As `resumed`: what they share is one `if`, and a generic form would have to be told both ends.
#[tactic(auto, unfolding(crate::specs::Handed::resumed_tail))]
fn resumed_tail(s: &[u8], at: usize, left: u32) -> Cursor
    ensures { result ≡ resumed_tail s.now at left }
{
    if at == 0 {
        return reports::report::statistics(s);
    }
    Cursor { at, left }
}

// `statistics::next`, with the cursor as two numbers that are 0 at first. Answers 1 with the next statistics record: the place of the device's sixteen
// bytes in the body, its bytes read and its bytes written. Otherwise answers 0 at the end of a well formed body or 10036, and the cursor stays.
pub fn sc_statistics_next(
    body: &[u8],
    at: &mut u64,
    left: &mut u32,
    device: &mut u64,
    read: &mut u64,
    written: &mut u64,
) -> u32
    ensures { handed_statistic body.now at.old left.old ≡ record { answer = result; at = at.new; left = left.new; device = device.new; read = read.new; written = written.new } }
{
    *device = 0;
    *read = 0;
    *written = 0;
    let c = resumed_tail(body, *at as usize, *left);
    match reports::statistics::next(body, c) {
        Ok(Some(y)) => {
            *at = y.next.at as u64;
            *left = y.next.left;
            *device = (c.at + 64) as u64;
            *read = y.read;
            *written = y.written;
            1
        }
        Ok(None) => 0,
        Err(malformed) => u32::from(Status::from(malformed)),
    }
}
