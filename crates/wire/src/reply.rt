// The reply of a LAYOUTRETURN (paper 01, "LAYOUTRETURN"; 02, Ticket 13): the status in 4 bytes; for 0 then boolean 1 and a stateid, which is sixteen zero
// bytes unless one was raised.
ghost use Rattle.std.specs.Prelude.{◌≡◌, ◌≤◌, length};
ghost use Rattle.std.proofs.lemmas.List.Edits.{sets};
ghost use Rattle.wire.specs.Stateid.{stateid_bytes};
ghost use Rattle.wire.specs.Reply.{reply_in, reply_in_with, reply_answer};

use crate::stateid::Stateid;
use statuses::Status;

// Stores a stateid at byte 8, where a reply has it; none by itself, which most replies have, so that the compiler stores zeros and swaps no bytes.
fn put_stateid(reply: &mut [u8], t: Stateid)
    requires { 24 ≤ length reply.old }
    ensures { reply.new ≡ sets reply.old 8 (stateid_bytes t) }
{
    if t == Stateid::none() {
        xdr::put32(reply, 8, 0);
        xdr::put64(reply, 12, 0);
        xdr::put32(reply, 20, 0);
        return;
    }
    xdr::put32(reply, 8, t.seqid);
    xdr::put64(reply, 12, t.high);
    xdr::put32(reply, 20, t.low);
}

// Writes the reply of `status` and a stateid at the start of `reply`, and answers `status`. A buffer under 24 bytes is left as it is, and gets 28.
// The status is a number and no `Status`: `sc_layoutreturn_reply` writes whatever number C hands in.
#[tactic(auto, using(crate::proofs::Replies::accepts), unfolding(crate::specs::Reply::reply_answer, crate::specs::Reply::reply_in_with, crate::specs::Reply::reply_with))]
pub fn write_with(reply: &mut [u8], status: u32, t: Stateid) -> u32
    ensures { (result ≡ reply_answer status reply.old) × (reply.new ≡ reply_in_with status (stateid_bytes t) reply.old) }
{
    if reply.len() < 24 {
        return u32::from(Status::NoSpc);
    }
    xdr::put32(reply, 0, status);
    if status != 0 {
        return status;
    }
    xdr::put32(reply, 4, 1);
    put_stateid(reply, t);
    status
}

// The same with sixteen zero bytes.
pub fn write(reply: &mut [u8], status: u32) -> u32
    ensures { (result ≡ reply_answer status reply.old) × (reply.new ≡ reply_in status reply.old) }
{
    let t = Stateid::none();
    write_with(reply, status, t)
}

// For C: `write`.
pub fn sc_layoutreturn_reply(reply: &mut [u8], status: u32) -> u32
    ensures { (result ≡ reply_answer status reply.old) × (reply.new ≡ reply_in status reply.old) }
{
    write(reply, status)
}
