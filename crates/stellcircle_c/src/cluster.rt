// The epochs of a cluster node: the C calls of `epochs`, in its order.

ghost use Rattle.std.specs.Prelude.{◌≡◌};
ghost use Rattle.epochs.specs.Epochs.{enforce_of, finish_of, fresh, join_of, leave_of, may_reclaim_of, reclaim_number, start_of, stop_of};

use epochs::Epochs;

#[unsafe(no_mangle)]
pub extern "C" fn sc_epochs_fresh(e: &mut Epochs)
    ensures { e.new ≡ fresh }
{
    epochs::sc_epochs_fresh(e)
}

#[unsafe(no_mangle)]
pub extern "C" fn sc_epochs_join(e: &mut Epochs, node: u32) -> u32
    ensures { (result ≡ (join_of e.old node).status) × (e.new ≡ (join_of e.old node).epochs) }
{
    epochs::sc_epochs_join(e, node)
}

#[unsafe(no_mangle)]
pub extern "C" fn sc_epochs_leave(e: &mut Epochs, node: u32) -> u32
    ensures { (result ≡ (leave_of e.old node).status) × (e.new ≡ (leave_of e.old node).epochs) }
{
    epochs::sc_epochs_leave(e, node)
}

#[unsafe(no_mangle)]
pub extern "C" fn sc_epochs_start(e: &mut Epochs, node: u32) -> u32
    ensures { (result ≡ (start_of e.old node).status) × (e.new ≡ (start_of e.old node).epochs) }
{
    epochs::sc_epochs_start(e, node)
}

#[unsafe(no_mangle)]
pub extern "C" fn sc_epochs_enforce(e: &mut Epochs, node: u32) -> u32
    ensures { (result ≡ (enforce_of e.old node).status) × (e.new ≡ (enforce_of e.old node).epochs) }
{
    epochs::sc_epochs_enforce(e, node)
}

#[unsafe(no_mangle)]
pub extern "C" fn sc_epochs_finish(e: &mut Epochs, node: u32) -> u32
    ensures { (result ≡ (finish_of e.old node).status) × (e.new ≡ (finish_of e.old node).epochs) }
{
    epochs::sc_epochs_finish(e, node)
}

#[unsafe(no_mangle)]
pub extern "C" fn sc_epochs_stop_enforcing(e: &mut Epochs, node: u32) -> u32
    ensures { (result ≡ (stop_of e.old node).status) × (e.new ≡ (stop_of e.old node).epochs) }
{
    epochs::sc_epochs_stop_enforcing(e, node)
}

#[unsafe(no_mangle)]
pub extern "C" fn sc_epochs_may_reclaim(e: &Epochs, node: u32) -> u32
    ensures { result ≡ reclaim_number (may_reclaim_of e.now node) }
{
    epochs::sc_epochs_may_reclaim(e, node)
}
