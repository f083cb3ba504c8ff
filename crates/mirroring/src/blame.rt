// What a report says of a file's mirrors (paper 01, LAYOUTRETURN, steps 5 and 7; Ticket 3), by one walk of its body in two halves.
// In order: what a report says, and each half of it; one device error; `blamed`, the half over the device errors; `tally`, the half over the statistics
// records; `assess`, both.
ghost use Rattle.std.specs.Prelude.{◌≡◌, ◌+◌, ◌*◌, ◌<◌, ◌≤◌, length, drop};
ghost use Rattle.reports.specs.Report.{report_of, over};
ghost use Rattle.reports.specs.ReportSteps.{errors_in};
ghost use Rattle.reports.specs.StatisticsSteps.{statistics_from};
ghost use Rattle.mirroring.specs.Blame.{no_change, blaming, status_only, changed, changed_of, change_in, assessment_of, tallied, tallied_of, settled_of};

use crate::mirrors::{Mirror, PLACES, place};
use crate::totals::Totals;
use reports::Malformed;
use reports::cursor::Cursor;
use reports::report::Entry;
use statuses::Status;

// What a report changes in a file: whether a device was named that is neither a mirror nor the proxy; whether a device error of one of these had a
// status other than 0; and the set of the places that such a device error blames.
#[derive(Clone, Copy)]
pub struct Change {
    pub unknown: bool,
    pub failed: bool,
    pub blamed: u32,
}

// What a report says of a file's mirrors: the status of step 5, what it changes, and the totals of bytes by place.
#[derive(Clone, Copy)]
pub struct Assessment {
    pub status: u32,
    pub change: Change,
    pub totals: Totals,
}

// What the device errors of a report say, and the cursor at its first statistics record. Where they are malformed, so is what is left.
#[derive(Clone, Copy)]
pub struct Errors {
    pub unknown: bool,
    pub blamed: u32,
    pub next: Cursor,
}

impl Change {
    // Nothing is changed.
    fn none() -> Change
        ensures { result ≡ no_change }
    {
        Change {
            unknown: false,
            failed: false,
            blamed: 0,
        }
    }
}

impl Errors {
    // No device error yet.
    fn none(next: Cursor) -> Errors
        ensures { change_in result ≡ no_change }
    {
        Errors {
            unknown: false,
            blamed: 0,
            next,
        }
    }

    // The mirror at a place is blamed too.
    pub(crate) fn blame(mut self, at: usize) -> Errors
        requires { at < 32 }
        ensures { change_in result ≡ blaming at (change_in self) }
    {
        self.blamed = masks::with(self.blamed, at as u32);
        self
    }

    // One device error more.
    #[tactic(auto, unfolding(crate::specs::Blame::changed_of))]
    fn device_error(mut self, mirrors: [Mirror; PLACES], high: u64, low: u64, status: u32) -> Errors
        ensures { change_in result ≡ changed_of mirrors (change_in self) high low status }
    {
        let Some(i) = place(mirrors, high, low) else {
            self.unknown = true;
            return self;
        };
        if status == 0 {
            return self;
        }
        self.blame(i)
    }
}

impl Assessment {
    // Nothing but the status.
    pub fn only(status: u32) -> Assessment
        ensures { result ≡ status_only status }
    {
        Assessment {
            status,
            change: Change::none(),
            totals: Totals::none(),
        }
    }
}

// The device errors of one record: `n` of them from `from` on, which are all there. What they say goes with a cursor: a change alone is a word, which the compiler
// would take apart and put together at each of them.
fn record_errors(
    so_far: Errors,
    mirrors: [Mirror; PLACES],
    body: &[u8],
    from: usize,
    n: u32,
) -> Errors
    requires { from + 24 * n ≤ length body.now }
    ensures { change_in result ≡ over (changed mirrors) (change_in so_far) (errors_in n (drop from body.now)) }
{
    let mut x = so_far;
    let mut at = from;
    for _ in 0..n {
        let Some(e) = reports::report::device(body, at) else {
            return x;
        };
        x = x.device_error(mirrors, e.high, e.low, e.status);
        at = e.next;
    }
    x
}

// What the device errors of a report's body say.
pub fn blamed(mirrors: [Mirror; PLACES], body: &[u8]) -> Errors
    ensures { settled_of mirrors (change_in result) (statistics_from body.now result.next) ≡ assessment_of mirrors (report_of body.now) }
{
    let mut c = reports::report::start(body);
    let mut x = Errors::none(c);
    loop {
        match reports::report::next(body, c) {
            Ok(Entry::Record { at, devices, next }) => {
                x = record_errors(x, mirrors, body, at, devices);
                c = next;
            }
            Ok(Entry::Statistics(next)) => {
                return Errors {
                    unknown: x.unknown,
                    blamed: x.blamed,
                    next,
                };
            }
            Err(Malformed) => {
                return Errors {
                    unknown: x.unknown,
                    blamed: x.blamed,
                    next: Cursor::none(body),
                };
            }
        }
    }
}

// What the statistics records say, which are only passed where they do not count.
#[tactic(auto, using(crate::proofs::Assessing::passed_is))]
pub fn tally(
    mirrors: [Mirror; PLACES],
    body: &[u8],
    from: Cursor,
    counts: bool,
) -> Result<Totals, Status>
    ensures { tallied result ≡ tallied_of mirrors counts (statistics_from body.now from) }
{
    let mut t = Totals::none();
    if !counts {
        reports::statistics::check(body, from)?;
        return Ok(t);
    }
    let mut c = from;
    while let Some(y) = reports::statistics::next(body, c)? {
        t = t.add(mirrors, y.high, y.low, y.read, y.written);
        c = y.next;
    }
    Ok(t)
}

// All that a report's body says.
pub fn assess(mirrors: [Mirror; PLACES], body: &[u8]) -> Assessment
    ensures { result ≡ assessment_of mirrors (report_of body.now) }
{
    let e = blamed(mirrors, body);
    let totals = match tally(mirrors, body, e.next, !e.unknown) {
        Ok(totals) => totals,
        Err(status) => return Assessment::only(u32::from(status)),
    };
    Assessment {
        status: 0,
        change: Change {
            unknown: e.unknown,
            failed: e.blamed != 0,
            blamed: e.blamed,
        },
        totals,
    }
}
