// What a C server calls on a recovery record that it owns (paper 01, "The recovery record"): each call of the record, on the record where it
// lies, with the promise of the method by value. A call on one file reads that file and what stands beside the files, and
// changes both in their place, open and close one intent alone, and LAYOUTRETURN looks one up only where it is wanted; fresh, register, forget, restart and the end of grace move or change the files where they lie;
// the two lists, and the set-up of a stateid before its own file, read each file where it lies.
// A function in which no path reads an element of an array of the record reads one beforehand (`_first`), which the compiler drops: tried without, and the check does not know the array's length then.
// First a file's place, then what stands before a LAYOUTRETURN's file (its part on one file stands in `settle`), then what changes more than one file, what changes one intent, and the calls in the paper's order.
#![tactic(auto)]

mod counts;
mod listing;
mod settle;
mod totals;

ghost use Rattle.std.specs.Prelude.{◌==◌, ◌≡◌, ◌<◌, false, not, length, get_or};
ghost use Rattle.recovery.specs.Calls.{listed};
ghost use Rattle.recovery.specs.Counts.{counts, counts_of};
ghost use Rattle.recovery.specs.Record.{with_files, put_file, enter, fresh_as, fresh, register_of, open_of, reclaim_of, close_of, repaired_of, add_proxy_of, remove_proxy_of, set_up_of, forget_of, end_of, restart_of};
ghost use Rattle.recovery.specs.LayoutReturn.{layoutreturn_of, reply_after};
ghost use Rattle.recovery.specs.declared.listing.Listing.TheVariants.{Resilver, Offered};
ghost use Rattle.layoutreturn.specs.Answers.{claim_as};
ghost use Rattle.layoutreturn.specs.LayoutReturn.{decision_of, outcome_by, reply_by};
ghost use Rattle.wire.specs.Stateid.{no_stateid};
ghost use Rattle.mirroring.specs.Totals.{no_totals};
ghost use Rattle.files.specs.declared.head.Edition.TheVariants.{Old};
ghost use Rattle.files.specs.Answers.{answered_as, begins, ends};
ghost use Rattle.files.specs.File.{no_file, is_file, is_vacant, uses_stateid, ended_file, with_begun, with_ended};
ghost use Rattle.layoutreturn.specs.Settled.{settled_file};
ghost use Rattle.std.specs.List.{list_any, position};
ghost use Rattle.capi.specs.Place.{sought_in};
ghost use Rattle.capi.specs.Asked.{listing_by};
ghost use Rattle.capi.specs.Lent.{column_of};
ghost use Rattle.capi.specs.Claims.{claim_in};
ghost use Rattle.capi.specs.LayoutReturn.{begun_of, body_read, returned_in, stateid_for};
ghost use Rattle.capi.specs.Whole.{ended_each, admitted_as, admitted_of, slid, last_sought, pulled_files, verdict};

use files::file::{Closed, File, FileAfter, Opened};
use files::head::{Edition, Head};
use intents::Intent;
use layoutreturn::{Claim, Decision, Settled};
use recovery::listing::Listing;
use recovery::record::Record;
use statuses::Status;
use wire::stateid::Stateid;

// ---- The place of a file.
// The first of these files that has the number, used or not: one comparison for each.
fn numbered(files: &[File], number: u64) -> Option<usize>
    ensures { result ≡ position (λ f. f.number == number) files.now }
{
    files.iter().position(|f| f.number == number)
}

// The first of these files that is the one of the number.
fn registered(files: &[File], number: u64) -> Option<usize>
    ensures { result ≡ position (is_file number) files.now }
{
    files.iter().position(|f| f.is(number))
}

// The first of these places that is free.
fn free(files: &[File]) -> Option<usize>
    ensures { result ≡ position is_vacant files.now }
{
    files.iter().position(|f| f.free())
}

// Whether one of these files uses the `other` of `t`.
fn used(files: &[File], t: Stateid) -> bool
    ensures { result ≡ list_any (uses_stateid t) files.now }
{
    files.iter().any(|f| f.uses(t))
}

// The place of a file, or the last place. A place that is found by the number alone is the answer where it is used, and where it is the last, before which no place has the number; each place is
// tested whole only where it is neither.
fn position(r: &Record, file: u64) -> usize
    ensures { (result ≡ sought_in file r.now) × (result < 64) }
{
    let i = numbered(&r.files[..63], file).unwrap_or(63);
    if !r.files[i].used && i < 63 {
        return registered(&r.files[..63], file).unwrap_or(63);
    }
    i
}

// ---- Before the file of a LAYOUTRETURN.
// The 28 for a short reply, and steps 1 to 4: the bytes of the body where a file is wanted, or else the status, a number since one that is handed on has no `Status`.
fn begin(head: Head, request: &[u8], room: usize) -> Result<usize, u32>
    ensures { result ≡ begun_of (decision_of head request.now room) }
{
    match layoutreturn::decide(head, request, room) {
        Ok(Decision::ReadBody(len) | Decision::ReturnBody(len)) => Ok(len),
        Ok(Decision::HandedOn) => Err(statuses::HANDED_ON),
        Err(status) => Err(u32::from(status)),
    }
}

// A LAYOUTRETURN for which no file is wanted: its reply, and no totals. It gets the arguments that the call on a file gets.
fn without_file(
    status: u32,
    client: u64,
    request: &[u8],
    reply: &mut [u8],
    read: &mut [u64],
    written: &mut [u64],
    read_over: &mut u32,
    written_over: &mut u32,
) -> u32
    ensures { (result ≡ status)
        × (reply.new ≡ reply_by status no_stateid reply.old)
        × (read.new ≡ column_of no_totals.read.bytes read.old)
        × (written.new ≡ column_of no_totals.written.bytes written.old)
        × (read_over.new ≡ no_totals.read.over)
        × (written_over.new ≡ no_totals.written.over) }
{
    layoutreturn::reply(status, Stateid::none(), reply);
    totals::hand_out_none(read, written, read_over, written_over);
    status
}

// ---- A call that changes more than one file.
// The record as it is set up: written whole, whatever it held.
fn set_up(r: &mut Record, edition: Edition)
    ensures { r.new ≡ fresh_as edition }
{
    let _first = r.files[0].number;
    for f in &mut r.files {
        *f = File::blank();
    }
    r.head = Head::fresh(edition);
}

// A file after the end of grace, where it lies: the intents that stay go to the front, in their order, the places after them are free, and a file that loses
// one is marked. No place is read after it was written, so that no load waits for a store; the places are named by index, since two of the same array are written in a turn.
fn end_file(f: &mut File)
    ensures { f.new ≡ ended_file f.old }
{
    let _first = f.intents[0].client;
    let mut n = 0;
    for i in 0..8 {
        let x = f.intents[i];
        f.intents[i] = Intent::none();
        if x.stays() {
            f.intents[n] = x.settled();
            n += 1;
        } else if x.goes() {
            f.marked = true;
        }
    }
}

// Each file after the end of grace, and each of them counted.
fn end_each(r: &mut Record)
    ensures { r.new ≡ ended_each r.old }
{
    let _first = r.files[0].number;
    let mut head = r.head;
    for f in &mut r.files {
        end_file(f);
        head = f.counted(head);
    }
    r.head = head;
}

// ---- Registering a file.
// The file that is to be entered. `f` is the file of that number, or the last place if there is none.
#[tactic(auto, unfolding(crate::specs::Whole::admitted_of))]
fn admitted(f: File, number: u64, head: Head, mirrors: &[u8]) -> Result<File, Status>
    ensures { admitted_as head result ≡ admitted_of number head mirrors.now f }
{
    head.out_of_grace()?;
    let Some(ms) = mirroring::enrol::enrol(mirrors) else {
        return Err(Status::Inval);
    };
    if f.is(number) {
        return Err(Status::Exist);
    }
    if f.used {
        return Err(Status::NoSpc);
    }
    Ok(File::new(number, ms))
}

// The files with `x` among them by its number: from the first free place down, each with a greater number moves up one place. A `while`, since it stops at a place that
// it finds as it moves: to find it first is a scan more, 1.8 times gcc in place of 1.4 (docs/DECISIONS.md, "How register enters a file").
fn enter(r: &mut Record, x: File)
    ensures { r.new ≡ with_files (enter x r.old.files) r.old }
{
    let _first = r.files[0].number;
    let mut i = free(&r.files[..63]).unwrap_or(63);
    while 0 < i && x.number < r.files[i - 1].number {
        r.files[i] = r.files[i - 1];
        i -= 1;
    }
    r.files[i] = x;
}

// ---- Forgetting a file.
// The files of a slice, each moved down over the one before it: the first goes, and the last stays where it is too. By its index, and not `copy_within`, which
// calls the C library for each file (docs/DESIGN-PASS.md, "Speed").
fn slide(fs: &mut [File])
    ensures { fs.new ≡ slid fs.old }
{
    for i in 1..fs.len() {
        fs[i - 1] = fs[i];
    }
}

// The same: where the compiler works on the loop a second time, with the slice as its one base, it makes one move of the copies.
fn slide_whole(fs: &mut [File])
    ensures { fs.new ≡ slid fs.old }
{
    slide(fs)
}

// The place of the last file before the first free place after `at`.
fn last(r: &Record, at: usize) -> usize
    ensures { result ≡ last_sought r.now at }
{
    for i in at..63 {
        if r.files[i + 1].free() {
            return i;
        }
    }
    at.max(63)
}

// The files without that at `at`: those after it, up to the first free place, move down one place.
fn pull(r: &mut Record, at: usize)
    ensures { r.new ≡ pulled_files r.old at (verdict 0 r.old.head) }
{
    let _first = r.files[0].number;
    let i = last(r, at);
    if i < 64 {
        let end = i + 1;
        slide_whole(&mut r.files[at..end]);
        r.files[i] = File::blank();
    }
}

// ---- One intent, in its file.
// A new intent, at its place among the file's.
fn begin_intent(f: &mut File, s: Opened)
    ensures { f.new ≡ with_begun s.at (begins s) f.old }
{
    let _first = f.intents[0].client;
    if s.at < 8 {
        f.intents[s.at] = s.intent();
    }
}

// The file's intents without the one that goes: those after it move down one place, and the last place is free.
fn end_intent(f: &mut File, s: Closed)
    ensures { f.new ≡ with_ended s.at (ends s) f.old }
{
    let _first = f.intents[0].client;
    if s.at < 8 {
        f.intents.copy_within(s.at + 1.., s.at);
        f.intents[7] = Intent::none();
    }
}

// ---- The calls.
// What a call on the file at a place leaves, put back there, or its refusal: the number that it is answered.
#[tactic(auto, using(crate::proofs::OnFile::unchanged))]
fn put(r: &mut Record, i: usize, a: Result<FileAfter, Status>) -> u32
    requires { i < 64 }
    ensures { (result ≡ (answered_as r.old.head (get_or r.old.files i no_file) a).status) × (r.new ≡ (put_file r.old i (answered_as r.old.head (get_or r.old.files i no_file) a)).after) }
{
    match a {
        Ok(s) => {
            r.files[i] = s.file;
            r.head = s.head;
            0
        }
        Err(status) => u32::from(status),
    }
}

pub fn sc_record_fresh(r: &mut Record)
    ensures { r.new ≡ fresh }
{
    set_up(r, Edition::Current)
}

// The same, set up as old.
pub fn sc_record_fresh_old(r: &mut Record)
    ensures { r.new ≡ fresh_as Old }
{
    set_up(r, Edition::Old)
}

pub fn sc_record_register(r: &mut Record, file: u64, mirrors: &[u8]) -> u32
    ensures { (result ≡ (register_of file mirrors.now r.old).status) × (r.new ≡ (register_of file mirrors.now r.old).after) }
{
    let i = position(r, file);
    match admitted(r.files[i], file, r.head, mirrors) {
        Ok(x) => {
            enter(r, x);
            0
        }
        Err(status) => u32::from(status),
    }
}

pub fn sc_record_open(r: &mut Record, file: u64, client: u64) -> u32
    ensures { (result ≡ (open_of file client r.old).status) × (r.new ≡ (open_of file client r.old).after) }
{
    let i = position(r, file);
    match r.files[i].opening(file, r.head, client) {
        Ok(Some(s)) => {
            begin_intent(&mut r.files[i], s);
            r.head = s.head;
            0
        }
        Ok(None) => 0,
        Err(status) => u32::from(status),
    }
}

pub fn sc_record_reclaim(r: &mut Record, file: u64, client: u64) -> u32
    ensures { (result ≡ (reclaim_of file client r.old).status) × (r.new ≡ (reclaim_of file client r.old).after) }
{
    let i = position(r, file);
    let s = r.files[i].reclaim(file, r.head, client);
    put(r, i, s)
}

pub fn sc_record_close(r: &mut Record, file: u64, client: u64) -> u32
    ensures { (result ≡ (close_of file client r.old).status) × (r.new ≡ (close_of file client r.old).after) }
{
    let i = position(r, file);
    match r.files[i].closing(file, r.head, client) {
        Ok(s) => {
            end_intent(&mut r.files[i], s);
            r.head = s.head;
            0
        }
        Err(status) => u32::from(status),
    }
}

pub fn sc_record_repaired(r: &mut Record, file: u64) -> u32
    ensures { (result ≡ (repaired_of file r.old).status) × (r.new ≡ (repaired_of file r.old).after) }
{
    let i = position(r, file);
    let s = r.files[i].repaired(file, r.head);
    put(r, i, s)
}

// A proxy beside the mirrors (02, Ticket 7).
pub fn sc_record_add_proxy(r: &mut Record, file: u64, device: &[u8]) -> u32
    ensures { (result ≡ (add_proxy_of file device.now r.old).status) × (r.new ≡ (add_proxy_of file device.now r.old).after) }
{
    let i = position(r, file);
    let s = r.files[i].add_proxy(file, r.head, device);
    put(r, i, s)
}

pub fn sc_record_remove_proxy(r: &mut Record, file: u64) -> u32
    ensures { (result ≡ (remove_proxy_of file r.old).status) × (r.new ≡ (remove_proxy_of file r.old).after) }
{
    let i = position(r, file);
    let s = r.files[i].remove_proxy(file, r.head);
    put(r, i, s)
}

// A client's stateid (02, Ticket 13).
pub fn sc_record_set_up_stateid(r: &mut Record, file: u64, client: u64, other: &[u8]) -> u32
    ensures { (result ≡ (set_up_of file client other.now r.old).status) × (r.new ≡ (set_up_of file client other.now r.old).after) }
{
    let t = wire::stateid::begun(other);
    let barred = wire::stateid::bad_other(other) || used(&r.files, t);
    let i = position(r, file);
    let s = r.files[i].set_up_stateid(file, r.head, client, t, barred);
    put(r, i, s)
}

// The files after the one that goes, up to the first free place, move down over it.
pub fn sc_record_forget(r: &mut Record, file: u64) -> u32
    ensures { (result ≡ (forget_of file r.old).status) × (r.new ≡ (forget_of file r.old).after) }
{
    let i = position(r, file);
    if let Err(status) = r.files[i].forget(file, r.head) {
        return u32::from(status);
    }
    pull(r, i);
    0
}

pub fn sc_record_end_grace(r: &mut Record) -> u32
    ensures { (result ≡ (end_of r.old).status) × (r.new ≡ (end_of r.old).after) }
{
    let _first = r.files[0].number;
    if !r.head.grace {
        return u32::from(Status::NoGrace);
    }
    r.head.waiting = 0;
    r.head.offered = 0;
    r.head.grace = false;
    end_each(r);
    0
}

pub fn sc_record_restart(r: &mut Record) -> u32
    ensures { (result ≡ (restart_of r.old).status) × (r.new ≡ (restart_of r.old).after) }
{
    let _first = r.files[0].number;
    for f in &mut r.files {
        *f = f.restarted();
    }
    r.head.grace = true;
    0
}

// The file once a return is accepted: what the report says, and then the client's stateid, where it is raised.
fn change(f: &mut File, s: Settled)
    ensures { f.new ≡ settled_file f.old s }
{
    *f = layoutreturn::reported(*f, s);
    if layoutreturn::raises(s) {
        for x in &mut f.intents {
            *x = layoutreturn::raised(*x, s);
        }
    }
}

// What the file at a place says of a return's client, by the kind of return: the file is read where it lies.
fn claim_at(r: &Record, i: usize, file: u64, client: u64, request: &[u8]) -> Claim
    requires { i < 64 }
    ensures { claim_as result ≡ claim_in r.now i file client request.now }
{
    if r.head.grace {
        return layoutreturn::anonymous_claim(r.files[i], file, client);
    }
    layoutreturn::ordinary_claim(r.files[i], file, client, request)
}

// LAYOUTRETURN for which a file is wanted, on that file's place: steps 5 to 7, or an ordinary return.
fn with_file(
    r: &mut Record,
    file: u64,
    len: usize,
    client: u64,
    request: &[u8],
    reply: &mut [u8],
    read: &mut [u64],
    written: &mut [u64],
    read_over: &mut u32,
    written_over: &mut u32,
) -> u32
    ensures { (result ≡ (returned_in file len client request.now r.old).status)
        × (r.new ≡ (returned_in file len client request.now r.old).after)
        × (reply.new ≡ reply_by result (stateid_for file len client request.now r.old) reply.old)
        × (read.new ≡ column_of (returned_in file len client request.now r.old).totals.read.bytes read.old)
        × (written.new ≡ column_of (returned_in file len client request.now r.old).totals.written.bytes written.old)
        × (read_over.new ≡ (returned_in file len client request.now r.old).totals.read.over)
        × (written_over.new ≡ (returned_in file len client request.now r.old).totals.written.over) }
{
    let i = position(r, file);
    let c = claim_at(r, i, file, client, request);
    let s = settle::answered(
        r.files[i],
        file,
        r.head,
        c,
        len,
        client,
        request,
        reply,
        read,
        written,
        read_over,
        written_over,
    );
    if s.status == 0 {
        change(&mut r.files[i], s);
    }
    r.head = s.head;
    s.status
}

// LAYOUTRETURN, with its totals in what the caller lends: place k of a slice gets mirror k's bytes, place 4 the proxy's, bit k of a mask says whether these passed
// 2^64 - 1.
// All four are written on every call, with zeros unless the answer is 0.
pub fn sc_record_layoutreturn(
    r: &mut Record,
    file: u64,
    client: u64,
    request: &[u8],
    reply: &mut [u8],
    read: &mut [u64],
    written: &mut [u64],
    read_over: &mut u32,
    written_over: &mut u32,
) -> u32
    ensures { (result ≡ (layoutreturn_of file client request.now reply.old r.old).status)
        × (r.new ≡ (layoutreturn_of file client request.now reply.old r.old).after)
        × (reply.new ≡ reply_after file client request.now reply.old r.old)
        × (read.new ≡ column_of (layoutreturn_of file client request.now reply.old r.old).totals.read.bytes read.old)
        × (written.new ≡ column_of (layoutreturn_of file client request.now reply.old r.old).totals.written.bytes written.old)
        × (read_over.new ≡ (layoutreturn_of file client request.now reply.old r.old).totals.read.over)
        × (written_over.new ≡ (layoutreturn_of file client request.now reply.old r.old).totals.written.over) }
{
    match begin(r.head, request, reply.len()) {
        Ok(len) => with_file(
            r,
            file,
            len,
            client,
            request,
            reply,
            read,
            written,
            read_over,
            written_over,
        ),
        Err(status) => without_file(
            status,
            client,
            request,
            reply,
            read,
            written,
            read_over,
            written_over,
        ),
    }
}

// The two lists, by the number of a direction.
pub fn sc_record_resilver_by(
    r: &Record,
    files: &mut [u64],
    sources: &mut [u8],
    count: &mut u64,
    direction: u32,
) -> u32
    ensures { listed result count.new files.new sources.new ≡ listing_by Resilver direction r.now files.old sources.old }
{
    listing::list(r, Listing::Resilver, files, sources, count, direction)
}

pub fn sc_record_offered_by(
    r: &Record,
    files: &mut [u64],
    sources: &mut [u8],
    count: &mut u64,
    direction: u32,
) -> u32
    ensures { listed result count.new files.new sources.new ≡ listing_by Offered direction r.now files.old sources.old }
{
    listing::list(r, Listing::Offered, files, sources, count, direction)
}

// How many files wait for repair, and how many of those are offered now: the record keeps both, and no file is looked at.
pub fn sc_record_counts(r: &Record, waiting: &mut u64, offered: &mut u64)
    ensures { counts waiting.new offered.new ≡ counts_of r.now.head }
{
    counts::hand_out(r.head, waiting, offered)
}
