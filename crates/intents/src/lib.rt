// A file's write intents (paper 01, "The recovery record"): one a client, at most 8, and the free places last; with each the client's layout stateid, if it
// has one (02, Ticket 13). First one place, then the eight.
#![tactic(auto)]

ghost use Rattle.std.specs.Prelude.{◌≡◌, Bool, map, get_or, set, replicate};
ghost use Rattle.places.specs.Lists.{any, chosen, fill};
ghost use Rattle.places.specs.Places.{first, is_found, left_out};
ghost use Rattle.intents.specs.Intents.{no_intent, intent_of, is_intent, is_free, is_kept, is_lost, stayed_intent, reclaimed_if, unreclaimed_intent, first_taken, is_stated, uses_other, is_near, stateid_at, stated_if};

use wire::stateid::Stateid;

// A place for an intent: its client, the client's stateid, which is none where its seqid is 0, whether the place is taken, and whether the client has reclaimed
// since the latest restart.
#[repr(C)]
#[derive(Clone, Copy)]
pub struct Intent {
    pub client: u64,
    pub stateid: Stateid,
    pub taken: bool,
    pub reclaimed: bool,
}

impl Intent {
    // A free place.
    pub fn none() -> Intent
        ensures { result ≡ no_intent }
    {
        Intent {
            client: 0,
            stateid: Stateid::none(),
            taken: false,
            reclaimed: false,
        }
    }

    // A client's new intent.
    pub fn new(client: u64) -> Intent
        ensures { result ≡ intent_of client }
    {
        Intent {
            client,
            taken: true,
            ..Intent::none()
        }
    }

    // Whether it is the client's.
    pub(crate) fn is(self, client: u64) -> bool
        ensures { result ≡ is_intent client self }
    {
        self.taken && self.client == client
    }

    // Whether the place is free.
    pub(crate) fn free(self) -> bool
        ensures { result ≡ is_free self }
    {
        !self.taken
    }

    // Whether it stays at the end of grace.
    pub fn stays(self) -> bool
        ensures { result ≡ is_kept self }
    {
        self.taken && self.reclaimed
    }

    // Whether it was not reclaimed, so that the end of grace drops it.
    pub fn goes(self) -> bool
        ensures { result ≡ is_lost self }
    {
        self.taken && !self.reclaimed
    }

    // The intent of one that stays.
    pub fn settled(self) -> Intent
        ensures { result ≡ stayed_intent self }
    {
        Intent {
            reclaimed: true,
            ..Intent::new(self.client)
        }
    }

    // The place once the client has reclaimed.
    pub(crate) fn reclaim(self, client: u64) -> Intent
        ensures { result ≡ reclaimed_if client self }
    {
        Intent {
            reclaimed: self.reclaimed | self.is(client),
            ..self
        }
    }

    // The place after a restart, which ends the stateid too.
    pub(crate) fn forget_reclaim(self) -> Intent
        ensures { result ≡ unreclaimed_intent self }
    {
        Intent {
            stateid: Stateid::none(),
            reclaimed: false,
            ..self
        }
    }

    // Whether the place has the `other` of `t`; the `other` first, by which most places differ.
    pub(crate) fn uses(self, t: Stateid) -> bool
        ensures { result ≡ uses_other t self }
    {
        self.stateid.has_other(t) && self.taken && stated(self.stateid)
    }

    // Whether the place has the first 8 bytes of the `other` of `t`.
    pub(crate) fn near(self, t: Stateid) -> bool
        ensures { result ≡ is_near t self }
    {
        self.stateid.high == t.high
    }

    // The place once the client has the stateid `t`.
    pub fn state(self, client: u64, t: Stateid) -> Intent
        ensures { result ≡ stated_if client t self }
    {
        Intent {
            stateid: if self.is(client) { t } else { self.stateid },
            ..self
        }
    }
}

// Whether one of the eight passes `f`: those that do are counted in a byte, without a branch, and by the index, since an iterator borrows the array, which is then
// copied: by `any` the search for an `other` through all files takes 1.6 times the instructions.
fn passes<F: Fn(Intent) -> bool>(intents: [Intent; 8], f: F) -> bool
    requires { F.IsAlwaysCallable f }
    ensures { (p : Intent → Bool) → ((x : Intent) (b : Bool) → F.post f x b → b ≡ p x) → result ≡ any p intents }
{
    let mut n: u8 = 0;
    for i in 0..8 {
        n += u8::from(f(intents[i]));
    }
    n != 0
}

// Whether it is a stateid, and not none.
pub fn stated(t: Stateid) -> bool
    ensures { result ≡ is_stated t }
{
    t.seqid != 0
}

// The place of the client's intent.
pub fn holding(intents: [Intent; 8], client: u64) -> Option<usize>
    ensures { result ≡ first (is_intent client) intents }
{
    intents.iter().position(|x| x.is(client))
}

// Whether the client has an intent.
pub fn held(intents: [Intent; 8], client: u64) -> bool
    ensures { result ≡ is_found (first (is_intent client) intents) }
{
    passes(intents, |x| x.is(client))
}

// The first free place.
pub fn room(intents: [Intent; 8]) -> Option<usize>
    ensures { result ≡ first is_free intents }
{
    intents.iter().position(|x| x.free())
}

// Whether an intent is open: the free places are last, so the first place says it.
pub fn busy(intents: [Intent; 8]) -> bool
    ensures { result ≡ first_taken intents }
{
    intents[0].taken
}

// The same once that at `at` has gone.
pub fn busy_without(intents: [Intent; 8], at: usize) -> bool
    ensures { result ≡ first_taken (left_out no_intent at intents) }
{
    if at == 0 {
        intents[1].taken
    } else {
        intents[0].taken
    }
}

// The intents without that at `at`: those after it move down one place.
pub fn without(intents: [Intent; 8], at: usize) -> [Intent; 8]
    ensures { result ≡ left_out no_intent at intents }
{
    let mut xs = intents;
    if at < 8 {
        for i in at..7 {
            xs[i] = xs[i + 1];
        }
        xs[7] = Intent::none();
    }
    xs
}

// The intents with `x` at `at`.
pub fn placed(intents: [Intent; 8], at: usize, x: Intent) -> [Intent; 8]
    ensures { result ≡ set intents at x }
{
    let mut xs = intents;
    if at < 8 {
        xs[at] = x;
    }
    xs
}

// Whether the client of the intent at `at` has reclaimed.
pub fn is_reclaimed(intents: [Intent; 8], at: usize) -> bool
    ensures { result ≡ (get_or intents at no_intent).reclaimed }
{
    at < 8 && intents[at].reclaimed
}

// Whether there is an intent that was not reclaimed since the latest restart.
pub fn lost(intents: [Intent; 8]) -> bool
    ensures { result ≡ any is_lost intents }
{
    intents.iter().any(|x| x.goes())
}

// The intents that stay at the end of grace, in their order, from the first place on: `n` is the next place of an array, which grows by no push.
pub fn staying(intents: [Intent; 8]) -> [Intent; 8]
    ensures { result ≡ fill (map stayed_intent (chosen is_kept intents)) (replicate 8 no_intent) }
{
    let mut xs = [Intent::none(); 8];
    let mut n: usize = 0;
    for x in &intents {
        if x.stays() {
            xs[n] = x.settled();
            n += 1;
        }
    }
    xs
}

// The intents once the client has reclaimed.
pub fn reclaimed(intents: [Intent; 8], client: u64) -> [Intent; 8]
    ensures { result ≡ map (reclaimed_if client) intents }
{
    places::each(intents, |x| x.reclaim(client))
}

// The intents after a restart.
pub fn unreclaimed(intents: [Intent; 8]) -> [Intent; 8]
    ensures { result ≡ map unreclaimed_intent intents }
{
    places::each(intents, |x| x.forget_reclaim())
}

// The client's stateid, or none; read where it is found, since an array that is read at a place not known beforehand is copied first.
pub fn stateid_of(intents: [Intent; 8], client: u64) -> Stateid
    ensures { result ≡ stateid_at intents (first (is_intent client) intents) }
{
    for i in 0..8 {
        let x = intents[i];
        if x.is(client) {
            return x.stateid;
        }
    }
    Stateid::none()
}

// Whether one of the intents has the `other` of `t`; most files are passed by its first 8 bytes.
pub fn uses(intents: [Intent; 8], t: Stateid) -> bool
    ensures { result ≡ any (uses_other t) intents }
{
    passes(intents, |x| x.near(t)) && intents.iter().any(|x| x.uses(t))
}

// The intents once the client has the stateid `t`.
pub fn with_stateid(intents: [Intent; 8], client: u64, t: Stateid) -> [Intent; 8]
    ensures { result ≡ map (stated_if client t) intents }
{
    places::each(intents, |x| x.state(client, t))
}
