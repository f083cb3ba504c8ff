// The text that list_layout and list_rdma_layout print, into a lent buffer. Paper 01, "The program prints".
// In this order: a text in a buffer, and what is added to it: bytes, digits, a number with the byte after it, an extent's line, all lines; then the text
// of an accepted body; of a refusal; the whole text.
ghost use Rattle.std.specs.Prelude.{◌≡◌, ◌+◌, ◌*◌, ◌<◌, ◌≤◌, [], ◌∷◌, length};
ghost use Rattle.extents.specs.Verdict.{Accepted, rule_number};
ghost use Rattle.layouts.specs.Layout.{rows_of, check_body};
ghost use Rattle.listings.specs.Text.{decimal, number_text, last_of, line_of, lines_of, accepted_text, refused_text, IsPrefixLen, Put, Listing};
ghost use Rattle.listings.specs.Adds.{Adds};

use extents::{Extent, Refusal, Rule};
use layouts::kinds::Kind;

// A text in a lent buffer: it ends at `at`, and each method adds to its end.
#[derive(Drop)]
struct Text<'a> {
    d: &'a mut [u8],
    at: usize,
}

impl Text<'_> {
    // Adds the bytes of `src`.
    fn bytes(&mut self, src: &[u8])
        requires { self.old.at + length src.now ≤ length self.old.d.now }
        ensures { Adds self.old src.now self.new }
    {
        let end = self.at + src.len();
        self.d[self.at..end].copy_from_slice(src);
        self.at = end;
    }

    // Adds the byte `b`.
    fn byte(&mut self, b: u8)
        requires { self.old.at < length self.old.d.now }
        ensures { Adds self.old (b ∷ []) self.new }
    {
        self.d[self.at] = b;
        self.at += 1;
    }

    // Adds the decimal digits of `x`, by hand: `write!` never promises its `Ok`, and a listing always has its text; the kit's `itoa` is not std (README).
    fn decimal(&mut self, x: u64)
        requires { self.old.at + 20 ≤ length self.old.d.now }
        ensures { Adds self.old (decimal x) self.new }
    {
        if x < 10 {
            self.byte(b'0' + x as u8);
        } else {
            self.decimal(x / 10);
            self.byte(b'0' + (x % 10) as u8);
        }
    }

    // Adds `x` in decimal and then the byte `after`.
    fn number(&mut self, x: u64, after: u8)
        requires { self.old.at + 21 ≤ length self.old.d.now }
        ensures { Adds self.old (number_text x after) self.new }
    {
        self.decimal(x);
        self.byte(after);
    }

    // Adds the last columns of an extent's line: the state and, of an RDMA extent, the handle.
    fn last(&mut self, kind: Kind, state: u32, handle: u32)
        requires { self.old.at + 42 ≤ length self.old.d.now }
        ensures { Adds self.old (last_of kind state handle) self.new }
    {
        match kind {
            Kind::Scsi => self.number(state as u64, b'\n'),
            Kind::Rdma => {
                self.number(state as u64, b' ');
                self.number(handle as u64, b'\n')
            }
        }
    }

    // Adds the line of an extent.
    fn line(&mut self, kind: Kind, e: Extent, handle: u32)
        requires { self.old.at + 105 ≤ length self.old.d.now }
        ensures { Adds self.old (line_of kind (record { extent = e; handle = handle })) self.new }
    {
        self.number(e.offset, b' ');
        self.number(e.len, b' ');
        self.number(e.storage, b' ');
        self.last(kind, e.state, handle);
    }

    // Adds the lines of the n extents of an accepted body.
    fn lines(&mut self, kind: Kind, s: &[u8], n: usize)
        requires { (self.old.at + 105 * n ≤ length self.old.d.now) × (check_body kind s.now ≡ Accepted n) }
        ensures { Adds self.old (lines_of kind (rows_of kind s.now n)) self.new }
    {
        for i in 0..n {
            let got = layouts::layout::extent_in(kind, s, Ok(n), i).unwrap();
            self.line(kind, got.extent, got.handle);
        }
    }
}

// Stores the text of an accepted body of n extents.
fn put_accepted(kind: Kind, d: &mut [u8], s: &[u8], n: usize) -> usize
    requires { (109568 ≤ length d.old) × (check_body kind s.now ≡ Accepted n) × (n ≤ 1024) }
    ensures { Put d.old 0 (accepted_text kind n (rows_of kind s.now n)) d.new result }
{
    let mut text = Text { d, at: 0 };
    text.bytes(b"extents ");
    text.number(n as u64, b'\n');
    text.lines(kind, s, n);
    text.at
}

// Stores the text of a refusal.
fn put_refused(d: &mut [u8], refusal: Refusal) -> usize
    requires { 109568 ≤ length d.old }
    ensures { Put d.old 0 (refused_text (rule_number refusal.rule) refusal.place) d.new result }
{
    let rule = u32::from(refusal.rule);
    let mut text = Text { d, at: 0 };
    text.bytes(b"refused ");
    text.number(rule as u64, b' ');
    text.bytes(b"at ");
    text.number(refusal.place as u64, b'\n');
    text.at
}

// The whole text for an input, read as a body of that kind, at the start of `d`, and how long it is; a buffer under 109,568 bytes gets nothing.
pub fn listing(kind: Kind, s: &[u8], d: &mut [u8]) -> usize
    ensures listing { Listing kind s.now d.old d.new result }
    ensures prefix_len { IsPrefixLen result d.new }
{
    if d.len() < 109568 {
        return 0;
    }
    if 65536 < s.len() {
        return put_refused(d, Rule::Shape.at(0));
    }
    match layouts::layout::check(kind, s) {
        Ok(n) => put_accepted(kind, d, s, n),
        Err(refusal) => put_refused(d, refusal),
    }
}
