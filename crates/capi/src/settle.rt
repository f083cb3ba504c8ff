// LAYOUTRETURN on one file for C (paper 01, "LAYOUTRETURN"; 02, Tickets 3 and 13), but for the change in the file: steps 5 to 7, or an ordinary return, of a client of which the
// file was asked before. The totals are handed out as soon as the statistics were read, and where there are none, zeros at once, so that no sum is carried past them.
// In order: whether statistics count; the totals; what changes; the reply of a return that is refused, and of one that is accepted; the whole.
ghost use Rattle.std.specs.Prelude.{◌≡◌, not};
ghost use Rattle.reports.specs.Report.{report_of};
ghost use Rattle.reports.specs.StatisticsSteps.{statistics_from};
ghost use Rattle.statuses.specs.Numbers.{number, code};
ghost use Rattle.wire.specs.Request.{part_of};
ghost use Rattle.wire.specs.Stateid.{no_stateid};
ghost use Rattle.mirroring.specs.Blame.{tallied_of};
ghost use Rattle.files.specs.File.{marks_file, blames_places};
ghost use Rattle.layoutreturn.specs.Answers.{claim_as};
ghost use Rattle.layoutreturn.specs.LayoutReturn.{reply_by};
ghost use Rattle.layoutreturn.specs.Settled.{refused_as, accepted_as, without_totals, counts_if, is_silent, silenced, raised_as, claimed_outcome};
ghost use Rattle.capi.specs.Lent.{column_of};

use crate::totals;
use files::file::File;
use files::head::Head;
use layoutreturn::{Claim, Settled};
use mirroring::blame::Change;
use mirroring::mirrors::{Mirror, PLACES};
use reports::cursor::Cursor;
use statuses::Status;
use wire::stateid::Stateid;

// Whether the statistics of a report count: not of one that names an unknown device, that comes late, or that an old record reads for its form alone.
fn counting(unknown: bool, late: Result<(), Status>, silent: bool) -> bool
    ensures { result ≡ counts_if unknown (code late) silent }
{
    !unknown && late.is_ok() && !silent
}

// Whether an old record reads an ordinary return, for its form alone.
fn silent_in(head: Head) -> bool
    ensures { result ≡ is_silent head (not head.grace) }
{
    !head.grace && head.old
}

// The statistics records of a report, from a cursor on: their status, and their totals, handed out. Where there are none, zeros are written at once.
fn tally_out(
    mirrors: [Mirror; PLACES],
    body: &[u8],
    from: Cursor,
    counts: bool,
    read: &mut [u64],
    written: &mut [u64],
    read_over: &mut u32,
    written_over: &mut u32,
) -> Result<(), Status>
    ensures { (code result ≡ (tallied_of mirrors counts (statistics_from body.now from)).status)
        × (read.new ≡ column_of (tallied_of mirrors counts (statistics_from body.now from)).totals.read.bytes read.old)
        × (written.new ≡ column_of (tallied_of mirrors counts (statistics_from body.now from)).totals.written.bytes written.old)
        × (read_over.new ≡ (tallied_of mirrors counts (statistics_from body.now from)).totals.read.over)
        × (written_over.new ≡ (tallied_of mirrors counts (statistics_from body.now from)).totals.written.over) }
{
    if from.left == 0 {
        totals::hand_out_none(read, written, read_over, written_over);
        if from.at < body.len() {
            return Err(Status::BadXdr);
        }
        return Ok(());
    }
    match mirroring::blame::tally(mirrors, body, from, counts) {
        Ok(t) => {
            *read_over = totals::hand_out(t.read, read);
            *written_over = totals::hand_out(t.written, written);
            Ok(())
        }
        Err(status) => {
            totals::hand_out_none(read, written, read_over, written_over);
            Err(status)
        }
    }
}

// Whether a report marks its file; one that is read for its form alone does not.
fn marking(change: Change, silent: bool) -> bool
    ensures { result ≡ marks_file (silenced silent change) }
{
    !silent && (change.unknown || change.failed)
}

// The places that a report blames: none where it names an unknown device, or is read for its form alone.
fn blaming(change: Change, silent: bool) -> u32
    ensures { result ≡ blames_places (silenced silent change) }
{
    if change.failed && !change.unknown && !silent {
        change.blamed
    } else {
        0
    }
}

// A return that is refused: its reply, and nothing that changes.
fn refused(refusal: Status, head: Head, client: u64, reply: &mut [u8]) -> Settled
    ensures { (result ≡ refused_as (number refusal) head client) × (reply.new ≡ reply_by (number refusal) no_stateid reply.old) }
{
    let status = u32::from(refusal);
    layoutreturn::reply(status, Stateid::none(), reply);
    Settled::refused(status, head, client)
}

// A return that is accepted: its reply, with the client's stateid raised where it is ordinary, and what its device errors change.
fn accepted(
    f: File,
    own: Stateid,
    change: Change,
    head: Head,
    client: u64,
    reply: &mut [u8],
) -> Settled
    ensures { (result ≡ accepted_as (marks_file (silenced (is_silent head (not head.grace)) change)) (blames_places (silenced (is_silent head (not head.grace)) change)) head client (raised_as own (not head.grace)) f)
        × (reply.new ≡ reply_by 0 (raised_as own (not head.grace)) reply.old) }
{
    let t = if head.grace {
        Stateid::none()
    } else {
        own.raise()
    };
    layoutreturn::reply(0, t, reply);
    let silent = silent_in(head);
    let marks = marking(change, silent);
    let places = blaming(change, silent);
    Settled::accepted(f, marks, places, head, client, t)
}

// LAYOUTRETURN on one file, but for the change, with its reply and its totals handed out: steps 5 to 7, or an ordinary return. The claim was made of the file's number, which is not
// asked again.
pub(crate) fn answered(
    f: File,
    number: u64,
    head: Head,
    c: Claim,
    len: usize,
    client: u64,
    request: &[u8],
    reply: &mut [u8],
    read: &mut [u64],
    written: &mut [u64],
    read_over: &mut u32,
    written_over: &mut u32,
) -> Settled
    ensures { (result ≡ without_totals (claimed_outcome head client (claim_as c) (report_of (part_of len request.now)) f))
        × (reply.new ≡ reply_by result.status result.stateid reply.old)
        × (read.new ≡ column_of (claimed_outcome head client (claim_as c) (report_of (part_of len request.now)) f).totals.read.bytes read.old)
        × (written.new ≡ column_of (claimed_outcome head client (claim_as c) (report_of (part_of len request.now)) f).totals.written.bytes written.old)
        × (read_over.new ≡ (claimed_outcome head client (claim_as c) (report_of (part_of len request.now)) f).totals.read.over)
        × (written_over.new ≡ (claimed_outcome head client (claim_as c) (report_of (part_of len request.now)) f).totals.written.over) }
{
    if let Err(refusal) = c.barred {
        totals::hand_out_none(read, written, read_over, written_over);
        return refused(refusal, head, client, reply);
    }
    let body = wire::body::part(request, len);
    let ms = f.mirrors;
    let e = mirroring::blame::blamed(ms, body);
    let counts = counting(e.unknown, c.late, silent_in(head));
    let form = tally_out(
        ms,
        body,
        e.next,
        counts,
        read,
        written,
        read_over,
        written_over,
    );
    if let Err(refusal) = form.and(c.late) {
        return refused(refusal, head, client, reply);
    }
    let change = Change {
        unknown: e.unknown,
        failed: e.blamed != 0,
        blamed: e.blamed,
    };
    let own = c.own;
    accepted(f, own, change, head, client, reply)
}
