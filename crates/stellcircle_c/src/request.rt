// LAYOUTRETURN requests and replies as bytes: the C calls of `wire`.

ghost use Rattle.std.specs.Prelude.{◌≡◌};
ghost use Rattle.wire.specs.Reply.{reply_answer, reply_in};
ghost use Rattle.wire.specs.Request.{body_at, body_length, kind_of, number_of, request_of};

#[unsafe(no_mangle)]
pub extern "C" fn sc_layoutreturn_check(
    request: &[u8],
    kind: &mut u32,
    at: &mut u64,
    len: &mut u64,
) -> u32
    ensures { (result ≡ number_of (request_of request.now)) × (kind.new ≡ kind_of (request_of request.now)) × (at.new ≡ body_at (request_of request.now)) × (len.new ≡ body_length (request_of request.now)) }
{
    wire::request::sc_layoutreturn_check(request, kind, at, len)
}

#[unsafe(no_mangle)]
pub extern "C" fn sc_layoutreturn_reply(reply: &mut [u8], status: u32) -> u32
    ensures { (result ≡ reply_answer status reply.old) × (reply.new ≡ reply_in status reply.old) }
{
    wire::reply::sc_layoutreturn_reply(reply, status)
}
