// The epoch record of a cluster node (paper 01, "Cluster epochs"; source document 002): two epochs, and the members with their flags NEED and ENFORCING as 32-bit masks.
// First the record, then each call by value, then the same calls on a record where it lies, which a C server links.
#![tactic(auto)]

ghost use Rattle.std.specs.Prelude.{◌≡◌, ◌<◌, cond, Ok, Err};
ghost use Rattle.statuses.specs.declared.Status.TheVariants.{NoEnt, Inval};
ghost use Rattle.epochs.specs.Epochs.{fresh, above31, member, answered, join_of, leave_of, start_of, enforce_of, finish_of, stop_of, reclaim_answer, may_reclaim_of, reclaim_number};

use statuses::Status;

// The epoch after which there is none.
const LAST_EPOCH: u64 = u64::MAX;

#[repr(C)]
#[derive(Clone, Copy, PartialEq, Eq)]
pub struct Epochs {
    // C, the current epoch.
    pub current: u64,
    // R, the epoch that clients recover from; 0 without a grace period.
    pub recovery: u64,
    pub members: u32,
    pub need: u32,
    pub enforcing: u32,
}

impl Epochs {
    // C is 1, R is 0, and there are no members.
    pub fn fresh() -> Epochs
        ensures { result ≡ fresh }
    {
        Epochs {
            current: 1,
            recovery: 0,
            members: 0,
            need: 0,
            enforcing: 0,
        }
    }

    // What every call asks first of a node's number: that it is one.
    fn below_32(node: u32) -> Result<(), Status>
        ensures { result ≡ cond (above31 node) (Err Inval) (Ok tt) }
    {
        if 32 <= node {
            Err(Status::Inval)
        } else {
            Ok(())
        }
    }

    // And all but join and may reclaim: that the node is a member.
    fn member(self, node: u32) -> Result<(), Status>
        ensures { result ≡ cond (above31 node) (Err Inval) (cond (member self node) (Ok tt) (Err NoEnt)) }
    {
        Epochs::below_32(node)?;
        if !masks::test(self.members, node) {
            return Err(Status::NoEnt);
        }
        Ok(())
    }

    // Join: the node is a member, with no flags.
    #[tactic(auto, unfolding(crate::specs::Epochs::join_of, crate::specs::Epochs::judged))]
    pub fn join(mut self, node: u32) -> Result<Epochs, Status>
        ensures { answered self result ≡ join_of self node }
    {
        Epochs::below_32(node)?;
        if masks::test(self.members, node) {
            return Err(Status::Exist);
        }
        self.members = masks::with(self.members, node);
        self.need = masks::without(self.need, node);
        self.enforcing = masks::without(self.enforcing, node);
        Ok(self)
    }

    // Leave: the node is no member any more, and has no flags.
    #[tactic(auto, unfolding(crate::specs::Epochs::leave_of, crate::specs::Epochs::judged))]
    pub fn leave(mut self, node: u32) -> Result<Epochs, Status>
        ensures { answered self result ≡ leave_of self node }
    {
        self.member(node)?;
        if masks::test(self.need, node) {
            return Err(Status::Grace);
        }
        self.members = masks::without(self.members, node);
        self.enforcing = masks::without(self.enforcing, node);
        Ok(self)
    }

    // Start: the node needs a grace period, and enforces it. The first one begins the period and a new epoch.
    #[tactic(auto, unfolding(crate::specs::Epochs::start_of, crate::specs::Epochs::judged))]
    pub fn start(mut self, node: u32) -> Result<Epochs, Status>
        ensures { answered self result ≡ start_of self node }
    {
        self.member(node)?;
        if self.recovery == 0 {
            if self.current == LAST_EPOCH {
                return Err(Status::NoSpc);
            }
            self.recovery = self.current;
            self.current += 1;
        }
        self.need = masks::with(self.need, node);
        self.enforcing = masks::with(self.enforcing, node);
        Ok(self)
    }

    // Enforce: the node enforces the grace period.
    #[tactic(auto, unfolding(crate::specs::Epochs::enforce_of, crate::specs::Epochs::judged))]
    pub fn enforce(mut self, node: u32) -> Result<Epochs, Status>
        ensures { answered self result ≡ enforce_of self node }
    {
        self.member(node)?;
        if self.recovery == 0 {
            return Err(Status::NoGrace);
        }
        self.enforcing = masks::with(self.enforcing, node);
        Ok(self)
    }

    // Finish: the node needs the grace period no more. The last one ends it.
    #[tactic(auto, unfolding(crate::specs::Epochs::finish_of, crate::specs::Epochs::judged))]
    pub fn finish(mut self, node: u32) -> Result<Epochs, Status>
        ensures { answered self result ≡ finish_of self node }
    {
        self.member(node)?;
        if !masks::test(self.need, node) {
            return Err(Status::Inval);
        }
        self.need = masks::without(self.need, node);
        if masks::none(self.need) {
            self.recovery = 0;
        }
        Ok(self)
    }

    // Stop enforcing: once the grace period is over.
    #[tactic(auto, unfolding(crate::specs::Epochs::stop_of, crate::specs::Epochs::judged))]
    pub fn stop_enforcing(mut self, node: u32) -> Result<Epochs, Status>
        ensures { answered self result ≡ stop_of self node }
    {
        self.member(node)?;
        if self.recovery != 0 {
            return Err(Status::Grace);
        }
        self.enforcing = masks::without(self.enforcing, node);
        Ok(self)
    }

    // May reclaim: whether the node's clients may reclaim now.
    #[tactic(auto, unfolding(crate::specs::Epochs::may_reclaim_of))]
    pub fn may_reclaim(self, node: u32) -> Result<bool, Status>
        ensures { result ≡ reclaim_answer (may_reclaim_of self node) }
    {
        Epochs::below_32(node)?;
        Ok(
            self.recovery != 0
                && masks::test(self.members, node)
                && masks::test(self.need, node)
                && masks::subset(self.members, self.enforcing),
        )
    }

    // The same as a number: 0 no, 1 yes, or the refusal's.
    pub fn reclaim_number(self, node: u32) -> u32
        ensures { result ≡ reclaim_number (may_reclaim_of self node) }
    {
        match self.may_reclaim(node) {
            Ok(yes) => u32::from(yes),
            Err(status) => u32::from(status),
        }
    }
}

// ---- The same calls, each on a record where it lies, by the name that C has for it: six differ in the call alone.
// One call: the record that it leaves is stored, and its number answered; a call that is refused leaves the record as it is.
fn in_place<F: FnOnce(Epochs) -> Result<Epochs, Status>>(e: &mut Epochs, call: F) -> u32
    requires { F.IsAlwaysCallable call }
    ensures { (r : _) × F.post call e.old r × (result ≡ (answered e.old r).status) × (e.new ≡ (answered e.old r).epochs) }
{
    match call(*e) {
        Ok(next) => {
            *e = next;
            0
        }
        Err(status) => u32::from(status),
    }
}

// Fresh: the record is written whole, whatever it held.
pub fn sc_epochs_fresh(e: &mut Epochs)
    ensures { e.new ≡ fresh }
{
    *e = Epochs::fresh();
}

pub fn sc_epochs_join(e: &mut Epochs, node: u32) -> u32
    ensures { (result ≡ (join_of e.old node).status) × (e.new ≡ (join_of e.old node).epochs) }
{
    in_place(e, |x| x.join(node))
}

pub fn sc_epochs_leave(e: &mut Epochs, node: u32) -> u32
    ensures { (result ≡ (leave_of e.old node).status) × (e.new ≡ (leave_of e.old node).epochs) }
{
    in_place(e, |x| x.leave(node))
}

pub fn sc_epochs_start(e: &mut Epochs, node: u32) -> u32
    ensures { (result ≡ (start_of e.old node).status) × (e.new ≡ (start_of e.old node).epochs) }
{
    in_place(e, |x| x.start(node))
}

pub fn sc_epochs_enforce(e: &mut Epochs, node: u32) -> u32
    ensures { (result ≡ (enforce_of e.old node).status) × (e.new ≡ (enforce_of e.old node).epochs) }
{
    in_place(e, |x| x.enforce(node))
}

pub fn sc_epochs_finish(e: &mut Epochs, node: u32) -> u32
    ensures { (result ≡ (finish_of e.old node).status) × (e.new ≡ (finish_of e.old node).epochs) }
{
    in_place(e, |x| x.finish(node))
}

pub fn sc_epochs_stop_enforcing(e: &mut Epochs, node: u32) -> u32
    ensures { (result ≡ (stop_of e.old node).status) × (e.new ≡ (stop_of e.old node).epochs) }
{
    in_place(e, |x| x.stop_enforcing(node))
}

// May reclaim, as a number: the record is only read.
pub fn sc_epochs_may_reclaim(e: &Epochs, node: u32) -> u32
    ensures { result ≡ reclaim_number (may_reclaim_of e.now node) }
{
    e.reclaim_number(node)
}
