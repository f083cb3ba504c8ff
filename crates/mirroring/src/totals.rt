// A report's totals of bytes read and written, by mirror (Ticket 3). In order: sums by place; one number more; the totals, and one record more.
ghost use Rattle.std.specs.Prelude.{◌≡◌, cond, ◌<◌};
ghost use Rattle.mirroring.specs.Totals.{cut_sums, no_sums, no_totals};
ghost use Rattle.mirroring.specs.TotalsSteps.{grown_by, passed_by, counted_at, counted_totals, added_totals};

use crate::mirrors::{Mirror, PLACES};

// A sum of bytes for each mirror, by place, and the set of the places where it passed 2^64 - 1, at which it stays; a place without a mirror has none.
#[repr(C)]
#[derive(Clone, Copy)]
pub struct Sums {
    pub bytes: [u64; PLACES],
    pub over: u32,
}

// What was read from each mirror, and what was written to it.
#[repr(C)]
#[derive(Clone, Copy)]
pub struct Totals {
    pub read: Sums,
    pub written: Sums,
}

impl Sums {
    pub(crate) fn none() -> Sums
        ensures { result ≡ cut_sums no_sums }
    {
        Sums {
            bytes: [0; PLACES],
            over: 0,
        }
    }

    // One record more of the mirror at a place.
    fn with(mut self, at: usize, n: u64) -> Sums
        requires { at < 5 }
        ensures { result ≡ counted_at at n self }
    {
        let (sum, passed) = self.bytes[at].overflowing_add(n);
        if passed {
            self.bytes[at] = u64::MAX;
            self.over = masks::with(self.over, at as u32);
        } else {
            self.bytes[at] = sum;
        }
        self
    }
}

impl Totals {
    // No bytes, for any mirror.
    pub fn none() -> Totals
        ensures { result ≡ no_totals }
    {
        let s = Sums::none();
        Totals {
            read: s,
            written: s,
        }
    }

    // One record more of the mirror at a place.
    fn with(self, at: usize, read: u64, written: u64) -> Totals
        requires { at < 5 }
        ensures { result ≡ counted_totals at read written self }
    {
        Totals {
            read: self.read.with(at, read),
            written: self.written.with(at, written),
        }
    }

    // One record more, of each place whose mirror it names.
    pub(crate) fn add(
        self,
        mirrors: [Mirror; PLACES],
        high: u64,
        low: u64,
        read: u64,
        written: u64,
    ) -> Totals
        ensures { result ≡ added_totals mirrors high low read written self }
    {
        let mut t = self;
        for (i, m) in mirrors.iter().enumerate() {
            if m.is(high, low) {
                t = t.with(i, read, written);
            }
        }
        t
    }
}
