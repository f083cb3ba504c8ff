// The recovery record that a server keeps: the C calls of `capi`, in its order.

ghost use Rattle.std.specs.Prelude.{◌≡◌};
ghost use Rattle.capi.specs.Asked.{listing_by};
ghost use Rattle.capi.specs.Lent.{column_of};
ghost use Rattle.files.specs.declared.head.Edition.TheVariants.{Old};
ghost use Rattle.recovery.specs.Calls.{listed};
ghost use Rattle.recovery.specs.Counts.{counts, counts_of};
ghost use Rattle.recovery.specs.LayoutReturn.{layoutreturn_of, reply_after};
ghost use Rattle.recovery.specs.Record.{add_proxy_of, close_of, end_of, forget_of, fresh, fresh_as, open_of, reclaim_of, register_of, remove_proxy_of, repaired_of, restart_of, set_up_of};
ghost use Rattle.recovery.specs.declared.listing.Listing.TheVariants.{Offered, Resilver};

use recovery::record::Record;

#[unsafe(no_mangle)]
pub extern "C" fn sc_record_fresh(r: &mut Record)
    ensures { r.new ≡ fresh }
{
    capi::sc_record_fresh(r)
}

#[unsafe(no_mangle)]
pub extern "C" fn sc_record_fresh_old(r: &mut Record)
    ensures { r.new ≡ fresh_as Old }
{
    capi::sc_record_fresh_old(r)
}

#[unsafe(no_mangle)]
pub extern "C" fn sc_record_register(r: &mut Record, file: u64, mirrors: &[u8]) -> u32
    ensures { (result ≡ (register_of file mirrors.now r.old).status) × (r.new ≡ (register_of file mirrors.now r.old).after) }
{
    capi::sc_record_register(r, file, mirrors)
}

#[unsafe(no_mangle)]
pub extern "C" fn sc_record_open(r: &mut Record, file: u64, client: u64) -> u32
    ensures { (result ≡ (open_of file client r.old).status) × (r.new ≡ (open_of file client r.old).after) }
{
    capi::sc_record_open(r, file, client)
}

#[unsafe(no_mangle)]
pub extern "C" fn sc_record_reclaim(r: &mut Record, file: u64, client: u64) -> u32
    ensures { (result ≡ (reclaim_of file client r.old).status) × (r.new ≡ (reclaim_of file client r.old).after) }
{
    capi::sc_record_reclaim(r, file, client)
}

#[unsafe(no_mangle)]
pub extern "C" fn sc_record_close(r: &mut Record, file: u64, client: u64) -> u32
    ensures { (result ≡ (close_of file client r.old).status) × (r.new ≡ (close_of file client r.old).after) }
{
    capi::sc_record_close(r, file, client)
}

#[unsafe(no_mangle)]
pub extern "C" fn sc_record_repaired(r: &mut Record, file: u64) -> u32
    ensures { (result ≡ (repaired_of file r.old).status) × (r.new ≡ (repaired_of file r.old).after) }
{
    capi::sc_record_repaired(r, file)
}

#[unsafe(no_mangle)]
pub extern "C" fn sc_record_add_proxy(r: &mut Record, file: u64, device: &[u8]) -> u32
    ensures { (result ≡ (add_proxy_of file device.now r.old).status) × (r.new ≡ (add_proxy_of file device.now r.old).after) }
{
    capi::sc_record_add_proxy(r, file, device)
}

#[unsafe(no_mangle)]
pub extern "C" fn sc_record_remove_proxy(r: &mut Record, file: u64) -> u32
    ensures { (result ≡ (remove_proxy_of file r.old).status) × (r.new ≡ (remove_proxy_of file r.old).after) }
{
    capi::sc_record_remove_proxy(r, file)
}

#[unsafe(no_mangle)]
pub extern "C" fn sc_record_set_up_stateid(
    r: &mut Record,
    file: u64,
    client: u64,
    other: &[u8],
) -> u32
    ensures { (result ≡ (set_up_of file client other.now r.old).status) × (r.new ≡ (set_up_of file client other.now r.old).after) }
{
    capi::sc_record_set_up_stateid(r, file, client, other)
}

#[unsafe(no_mangle)]
pub extern "C" fn sc_record_forget(r: &mut Record, file: u64) -> u32
    ensures { (result ≡ (forget_of file r.old).status) × (r.new ≡ (forget_of file r.old).after) }
{
    capi::sc_record_forget(r, file)
}

#[unsafe(no_mangle)]
pub extern "C" fn sc_record_end_grace(r: &mut Record) -> u32
    ensures { (result ≡ (end_of r.old).status) × (r.new ≡ (end_of r.old).after) }
{
    capi::sc_record_end_grace(r)
}

#[unsafe(no_mangle)]
pub extern "C" fn sc_record_restart(r: &mut Record) -> u32
    ensures { (result ≡ (restart_of r.old).status) × (r.new ≡ (restart_of r.old).after) }
{
    capi::sc_record_restart(r)
}

#[unsafe(no_mangle)]
pub extern "C" fn sc_record_layoutreturn(
    r: &mut Record,
    file: u64,
    client: u64,
    request: &[u8],
    reply: &mut [u8],
    read: &mut [u64],
    written: &mut [u64],
    read_over: &mut u32,
    written_over: &mut u32,
) -> u32
    ensures { (result ≡ (layoutreturn_of file client request.now reply.old r.old).status)
        × (r.new ≡ (layoutreturn_of file client request.now reply.old r.old).after)
        × (reply.new ≡ reply_after file client request.now reply.old r.old)
        × (read.new ≡ column_of (layoutreturn_of file client request.now reply.old r.old).totals.read.bytes read.old)
        × (written.new ≡ column_of (layoutreturn_of file client request.now reply.old r.old).totals.written.bytes written.old)
        × (read_over.new ≡ (layoutreturn_of file client request.now reply.old r.old).totals.read.over)
        × (written_over.new ≡ (layoutreturn_of file client request.now reply.old r.old).totals.written.over) }
{
    capi::sc_record_layoutreturn(
        r,
        file,
        client,
        request,
        reply,
        read,
        written,
        read_over,
        written_over,
    )
}

#[unsafe(no_mangle)]
pub extern "C" fn sc_record_resilver_by(
    r: &Record,
    files: &mut [u64],
    sources: &mut [u8],
    count: &mut u64,
    direction: u32,
) -> u32
    ensures { listed result count.new files.new sources.new ≡ listing_by Resilver direction r.now files.old sources.old }
{
    capi::sc_record_resilver_by(r, files, sources, count, direction)
}

#[unsafe(no_mangle)]
pub extern "C" fn sc_record_offered_by(
    r: &Record,
    files: &mut [u64],
    sources: &mut [u8],
    count: &mut u64,
    direction: u32,
) -> u32
    ensures { listed result count.new files.new sources.new ≡ listing_by Offered direction r.now files.old sources.old }
{
    capi::sc_record_offered_by(r, files, sources, count, direction)
}

#[unsafe(no_mangle)]
pub extern "C" fn sc_record_counts(r: &Record, waiting: &mut u64, offered: &mut u64)
    ensures { counts waiting.new offered.new ≡ counts_of r.now.head }
{
    capi::sc_record_counts(r, waiting, offered)
}
