// LAYOUTRETURN on one file (paper 01, "LAYOUTRETURN"; 02, Tickets 1, 3, 6 and 13), its steps in the paper's order. In this order: what is decided before any
// file is looked at, from the 28 for a short reply to step 4; what an answer says; steps 5 to 7 on a file; an ordinary return on a file; the reply; the file
// afterwards.
#![tactic(auto)]

ghost use Rattle.std.specs.Prelude.{◌≡◌};
ghost use Rattle.reports.specs.Report.{report_of};
ghost use Rattle.mirroring.specs.Blame.{status_only};
ghost use Rattle.intents.specs.Intents.{is_stated, stated_if};
ghost use Rattle.files.specs.File.{blamed_file};
ghost use Rattle.statuses.specs.Numbers.{code};
ghost use Rattle.layoutreturn.specs.Answers.{decision_as, numbered_as, claim_as, body_of};
ghost use Rattle.layoutreturn.specs.LayoutReturn.{phase_of, decision_of, outcome_with, outcome_of, by_age, by_stateid, outcome_by, reply_by, file_after};
ghost use Rattle.layoutreturn.specs.OneWalk.{assessed_outcome, late_on, anonymous_claim, ordinary_claim, claim_by, taken_by, assessed_by, raised_if};
ghost use Rattle.layoutreturn.specs.Settled.{refused_as, accepted_as};

use files::file::File;
use files::head::Head;
use intents::Intent;
use mirroring::blame::{Assessment, Change};
use mirroring::totals::Totals;
use statuses::Status;
use wire::request::{Kind, Request};
use wire::seqid::Age;
use wire::stateid::Stateid;

// What is known of a request before any file is looked at, unless it is refused.
#[derive(Clone, Copy, PartialEq, Eq)]
pub enum Decision {
    // It is handed on.
    HandedOn,
    // Its body, of so many bytes, is read.
    ReadBody(usize),
    // It has an ordinary stateid, by which a file decides whether its body, of so many bytes, is read.
    ReturnBody(usize),
}

// Step 4: by the kind of stateid, the edition and the phase.
fn phase(kind: Kind, head: Head, len: usize) -> Result<Decision, Status>
    ensures { decision_as result ≡ phase_of kind head len }
{
    if kind == Kind::Anonymous {
        if head.old {
            return Err(Status::BadStateid);
        }
        if !head.grace {
            return Err(Status::NoGrace);
        }
        return Ok(Decision::ReadBody(len));
    }
    head.out_of_grace()?;
    match kind {
        Kind::Current => Ok(Decision::HandedOn),
        Kind::Ordinary => Ok(Decision::ReturnBody(len)),
        Kind::Anonymous | Kind::Bypass | Kind::Invalid => Err(Status::BadStateid),
    }
}

// A reply buffer of under 24 bytes gets 28 before all else; then steps 1 to 4.
#[tactic(auto, unfolding(crate::specs::LayoutReturn::decision_of))]
pub fn decide(head: Head, request: &[u8], room: usize) -> Result<Decision, Status>
    ensures { decision_as result ≡ decision_of head request.now room }
{
    if room < 24 {
        return Err(Status::NoSpc);
    }
    match wire::request::read(request)? {
        Request::Bulk => Ok(Decision::HandedOn),
        Request::File { kind, len } => phase(kind, head, len),
    }
}

// All that an answer says: its status, HANDED_ON where the request is handed on; what stands beside the files; what changes in the file; the totals of
// bytes by mirror; and the stateid of the reply, which is the client's from then on, or none.
#[derive(Clone, Copy)]
pub struct Outcome {
    pub status: u32,
    pub head: Head,
    pub change: Change,
    pub totals: Totals,
    pub client: u64,
    pub stateid: Stateid,
}

impl Outcome {
    // Where no body is read.
    fn unread(status: u32, head: Head, client: u64) -> Outcome
        ensures { result ≡ outcome_of head client (status_only status) }
    {
        Outcome::of(head, client, Stateid::none(), Assessment::only(status))
    }

    // As a report was assessed.
    pub(crate) fn of(head: Head, client: u64, stateid: Stateid, a: Assessment) -> Outcome
        ensures { result ≡ outcome_with head client stateid a }
    {
        let change = a.change;
        let totals = a.totals;
        Outcome {
            status: a.status,
            head,
            change,
            totals,
            client,
            stateid,
        }
    }
}

// What the seqid's age says: 10024 older, 10025 newer.
fn by_age(age: Age) -> Result<(), Status>
    ensures { code result ≡ by_age age }
{
    match age {
        Age::Same => Ok(()),
        Age::Older => Err(Status::OldStateid),
        Age::Newer => Err(Status::BadStateid),
    }
}

// Step 4 for the stateid `t` of a client that holds `own`.
fn by_stateid(t: Stateid, own: Stateid) -> Result<(), Status>
    ensures { code result ≡ by_stateid t own }
{
    if !intents::stated(own) || !own.has_other(t) {
        return Err(Status::BadStateid);
    }
    by_age(wire::seqid::age_of(own.seqid, t.seqid))
}

// What a file says of a return's client: step 4, by which an ordinary return may be barred; step 6, by which an anonymous one may be late; and the client's
// stateid there, where the return is ordinary.
#[derive(Clone, Copy)]
pub struct Claim {
    pub barred: Result<(), Status>,
    pub late: Result<(), Status>,
    pub own: Stateid,
}

// Step 6: 70; 10034.
fn late(f: File, number: u64, client: u64) -> Result<(), Status>
    ensures { code result ≡ late_on number client f }
{
    f.named(number)?;
    let xs = f.intents;
    if !intents::held(xs, client) {
        return Err(Status::ReclaimBad);
    }
    Ok(())
}

// Of an anonymous return.
pub fn anonymous_claim(f: File, number: u64, client: u64) -> Claim
    ensures { claim_as result ≡ anonymous_claim number client f }
{
    Claim {
        barred: Ok(()),
        late: late(f, number, client),
        own: Stateid::none(),
    }
}

// Of an ordinary return, for which the request's stateid is read and the client's is looked up, once: 70; 10025; 10024.
pub fn ordinary_claim(f: File, number: u64, client: u64, request: &[u8]) -> Claim
    ensures { claim_as result ≡ ordinary_claim number client request.now f }
{
    if let Err(status) = f.named(number) {
        return Claim {
            barred: Err(status),
            late: Ok(()),
            own: Stateid::none(),
        };
    }
    let xs = f.intents;
    let own = intents::stateid_of(xs, client);
    let t = wire::stateid::in_request(request);
    Claim {
        barred: by_stateid(t, own),
        late: Ok(()),
        own,
    }
}

// By the kind of return, a flag here and below: there is one walk for both kinds, and two types would write it twice.
fn claimed(f: File, number: u64, client: u64, request: &[u8], returning: bool) -> Claim
    ensures { claim_as result ≡ claim_by number client request.now f returning }
{
    if returning {
        return ordinary_claim(f, number, client, request);
    }
    anonymous_claim(f, number, client)
}

// What is taken of a report that was assessed: an old record reads an ordinary return's for its form alone, and an anonymous one's may meet step 6.
fn taken(a: Assessment, head: Head, late: Result<(), Status>, returning: bool) -> Assessment
    ensures { result ≡ taken_by head (code late) a returning }
{
    if returning {
        if head.old {
            return Assessment::only(a.status);
        }
        return a;
    }
    if a.status != 0 {
        return a;
    }
    match late {
        Ok(()) => a,
        Err(status) => Assessment::only(u32::from(status)),
    }
}

// Steps 4 to 7 on the file, with one walk of the report for both kinds of return.
fn assessed(f: File, c: Claim, head: Head, body: &[u8], returning: bool) -> Assessment
    ensures { result ≡ assessed_by head (claim_as c) (report_of body.now) f returning }
{
    if let Err(status) = c.barred {
        return Assessment::only(u32::from(status));
    }
    let ms = f.mirrors;
    let a = mirroring::blame::assess(ms, body);
    taken(a, head, c.late, returning)
}

// The stateid of the reply: the client's, raised, where an ordinary return is accepted.
fn raised_if(own: Stateid, status: u32, returning: bool) -> Stateid
    ensures { result ≡ raised_if own status returning }
{
    if returning {
        if status == 0 {
            return own.raise();
        }
        return Stateid::none();
    }
    Stateid::none()
}

// The outcome of a return whose body, of `len` bytes, is read.
fn read_outcome(
    len: usize,
    returning: bool,
    f: File,
    number: u64,
    head: Head,
    client: u64,
    request: &[u8],
) -> Outcome
    ensures { result ≡ assessed_outcome number head client request.now f (body_of returning len) }
{
    let body = wire::body::part(request, len);
    let c = claimed(f, number, client, request, returning);
    let a = assessed(f, c, head, body, returning);
    let change = a.change;
    let next = f.head_after(head, change);
    let mine = c.own;
    let own = raised_if(mine, a.status, returning);
    Outcome::of(next, client, own, a)
}

// The outcome of what was decided, or of the number that is answered, whatever it is; the file is asked only where the body is read.
#[tactic(auto, unfolding(crate::specs::LayoutReturn::outcome_by))]
fn outcome_by(
    d: Result<Decision, u32>,
    f: File,
    number: u64,
    head: Head,
    client: u64,
    request: &[u8],
) -> Outcome
    ensures { result ≡ outcome_by number head client request.now f (numbered_as d) }
{
    let decision = match d {
        Ok(decision) => decision,
        Err(status) => {
            return Outcome::unread(status, head, client);
        }
    };
    match decision {
        Decision::HandedOn => Outcome::unread(statuses::HANDED_ON, head, client),
        Decision::ReadBody(len) => read_outcome(len, false, f, number, head, client, request),
        Decision::ReturnBody(len) => read_outcome(len, true, f, number, head, client, request),
    }
}

// The reply of a status and a stateid: none is written where the request is handed on.
pub fn reply(status: u32, t: Stateid, lent: &mut [u8])
    ensures { lent.new ≡ reply_by status t lent.old }
{
    if status != statuses::HANDED_ON {
        wire::reply::write_with(lent, status, t);
    }
}

// The outcome, with its reply.
pub fn answer(
    d: Result<Decision, u32>,
    f: File,
    number: u64,
    head: Head,
    client: u64,
    request: &[u8],
    lent: &mut [u8],
) -> Outcome
    ensures { (result ≡ outcome_by number head client request.now f (numbered_as d)) × (lent.new ≡ reply_by result.status result.stateid lent.old) }
{
    let o = outcome_by(d, f, number, head, client, request);
    let t = o.stateid;
    reply(o.status, t, lent);
    o
}

// The file afterwards, by value; the stateid is raised first, which takes fewer copies.
pub fn apply(f: File, o: Outcome) -> File
    ensures { result ≡ file_after f o }
{
    let change = o.change;
    let t = o.stateid;
    let g = f.raised(o.client, t);
    g.apply(change)
}

// What an answer says but for the totals, which C is handed apart: its change is whether the file is marked, and the set of the places that are blamed.
#[derive(Clone, Copy)]
pub struct Settled {
    pub status: u32,
    pub head: Head,
    pub marks: bool,
    pub blamed: u32,
    pub client: u64,
    pub stateid: Stateid,
}

impl Settled {
    // A refusal: nothing changes.
    pub fn refused(status: u32, head: Head, client: u64) -> Settled
        ensures { result ≡ refused_as status head client }
    {
        let none = Stateid::none();
        Settled {
            status,
            head,
            marks: false,
            blamed: 0,
            client,
            stateid: none,
        }
    }

    // A return that is accepted on the file.
    pub fn accepted(
        f: File,
        marks: bool,
        blamed: u32,
        head: Head,
        client: u64,
        t: Stateid,
    ) -> Settled
        ensures { result ≡ accepted_as marks blamed head client t f }
    {
        let next = f.head_marked(head, marks);
        Settled {
            status: 0,
            head: next,
            marks,
            blamed,
            client,
            stateid: t,
        }
    }
}

// The file afterwards, where it lies: as the report changes it; whether the client's stateid is raised; and each of the file's intents where it is.
pub fn reported(f: File, o: Settled) -> File
    ensures { result ≡ blamed_file o.marks o.blamed f }
{
    f.blame(o.marks, o.blamed)
}

pub fn raises(o: Settled) -> bool
    ensures { result ≡ is_stated o.stateid }
{
    let t = o.stateid;
    intents::stated(t)
}

pub fn raised(x: Intent, o: Settled) -> Intent
    ensures { result ≡ stated_if o.client o.stateid x }
{
    let t = o.stateid;
    x.state(o.client, t)
}
