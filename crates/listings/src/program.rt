// A program that reads one layout body from standard input and prints its extents, or the refusal. Paper 01, "Layout bodies" (Rules 2.11).
// The text is made by `text::listing`; here is only the reading and the writing, in this order: the input; an input that is too long; the output; a fault.
// A call that a signal interrupts is made again. Where a read or a write fails, that is no finding about a body: nothing more is printed, and one line on
// standard error says what failed, and after how many bytes.
ghost use Rattle.std.specs.Prelude.{◌≡◌, ◌≤◌, length};
ghost use Rattle.listings.specs.Calls.{moved};
ghost use Rattle.listings.specs.Text.{IsPrefixLen};

use crate::text;
use layouts::kinds::Kind;
use std::io;
use std::io::{Eprint, Error, ErrorKind, Input, Print, Read, Write};

// More calls than any input or output takes.
const MOST_CALLS: u64 = 1099511627776;

// Why a read or a write failed, and after how many bytes.
struct Failed {
    after: usize,
    why: Error,
}

// Reads until buf is full, the input ends or a read fails, and answers how many bytes it read.
fn read_all<R: Read>(input: &mut R, buf: &mut [u8]) -> Result<usize, Failed>
    ensures { IsPrefixLen (moved result) buf.new }
{
    let mut done: usize = 0;
    for _turn in 0..MOST_CALLS {
        match input.read(&mut buf[done..]) {
            Ok(0) => return Ok(done),
            Ok(n) => done += n,
            Err(why) if why.kind() == ErrorKind::Interrupted => {}
            Err(why) => return Err(Failed { after: done, why }),
        }
    }
    Err(too_many(done))
}

// Reads the rest of an input that is too long, so that whoever writes it can end, and throws it away.
fn skip_rest<R: Read>(input: &mut R) -> Result<usize, Failed>
    ensures { moved result ≤ 72057594037927936 }
{
    let mut room = [0u8; 65536];
    let mut done: usize = 0;
    for _turn in 0..MOST_CALLS {
        match input.read(&mut room) {
            Ok(0) => return Ok(done),
            Ok(n) => done += n,
            Err(why) if why.kind() == ErrorKind::Interrupted => {}
            Err(why) => return Err(Failed { after: done, why }),
        }
    }
    Err(too_many(done))
}

// Writes all of buf, or up to where a write fails or moves none: the last write, of nothing, says that the text is out.
fn write_all<W: Write>(output: &mut W, buf: &[u8]) -> Result<(), Failed> {
    let mut done: usize = 0;
    for _turn in 0..MOST_CALLS {
        match output.write(&buf[done..]) {
            Ok(0) if done == buf.len() => return Ok(()),
            Ok(0) => return Err(Failed {
                after: done,
                why: Error::from(ErrorKind::WriteZero),
            }),
            Ok(n) => done += n,
            Err(why) if why.kind() == ErrorKind::Interrupted => {}
            Err(why) => return Err(Failed { after: done, why }),
        }
    }
    Err(too_many(done))
}

// What is said where not even so many calls came to an end.
fn too_many(after: usize) -> Failed
    ensures { result.after ≡ after }
{
    Failed {
        after,
        why: Error::other("too many calls"),
    }
}

// The words of an error, without the system's number of it that `std` puts after them.
fn reason(words: &str) -> &str {
    match words.split_once(" (os error ") {
        Some((front, _)) => front,
        None => words,
    }
}

// The line of a fault: the program's name, what failed after so many bytes, and why, in words that have room in 512 bytes.
fn fault<H: Eprint>(rt: &H, name: &str, what: &str, failed: Failed) -> io::Result<()> {
    let Failed { after, why } = failed;
    let mut room = [0u8; 512];
    let mut left: &mut [u8] = &mut room;
    write!(left, "{why}")?;
    let n = 512usize.saturating_sub(left.len());
    let why = match std::str::from_utf8(&room[..n]) {
        Ok(words) => reason(words),
        Err(_) => "unknown",
    };
    eprintln!(rt; "{name}: after {after} bytes: {what}: {why}")
}

// The whole program of that name, for bodies of that kind. It ends with an error where not even the line of a fault can be made or written.
pub fn run<H: Input + Print + Eprint>(rt: &H, kind: Kind, name: &str) -> io::Result<()> {
    let mut stdin = rt.reader();
    let mut input = [0u8; 65537];
    let n = match read_all(&mut stdin, &mut input) {
        Ok(n) => n,
        Err(failed) => return fault(rt, name, "reading standard input", failed),
    };
    if n == 65537 {
        if let Err(Failed { after, why }) = skip_rest(&mut stdin) {
            let after = n + after;
            return fault(rt, name, "reading standard input", Failed { after, why });
        }
    }
    let mut out = [0u8; 109568];
    let k = text::listing(kind, &input[..n], &mut out);
    match write_all(&mut io::writer(rt), &out[..k]) {
        Ok(()) => Ok(()),
        Err(failed) => fault(rt, name, "writing standard output", failed),
    }
}
