// A place among the records of a counted list, by which a caller walks the error records and then the statistics records of a body.
// The walks are steps and no iterators: C keeps the cursor from one call of `sc_report_next` and `sc_statistics_next` to the next.
ghost use Rattle.std.specs.Prelude.{◌≡◌};
ghost use Rattle.reports.specs.Cursors.{nowhere, cursor_at};

// Where the next byte is, and the records still to come.
#[derive(Clone, Copy)]
pub struct Cursor {
    pub at: usize,
    pub left: u32,
}

impl Cursor {
    // A cursor at which nothing is well formed.
    pub fn none(s: &[u8]) -> Cursor
        ensures { result ≡ nowhere s.now }
    {
        Cursor {
            at: s.len(),
            left: 1,
        }
    }

    // The cursor at the first record, of those whose count is at `at`.
    #[tactic(auto, unfolding(crate::specs::Cursors::cursor_at))]
    pub fn begin(s: &[u8], at: usize) -> Cursor
        ensures { result ≡ cursor_at s.now at }
    {
        if s.len() < 4 || s.len() - 4 < at {
            return Cursor::none(s);
        }
        Cursor {
            at: at + 4,
            left: xdr::be32(s, at),
        }
    }
}
