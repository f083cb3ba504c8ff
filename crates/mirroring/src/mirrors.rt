// A file's mirrors (paper 01, "The recovery record"): 1 to 4 devices, by place from 0, which of them are blamed, and a proxy (02, Ticket 7). First one
// place, then all: a device's place, the proxy, blame, and the end of all blame.
ghost use Rattle.std.specs.Prelude.{◌≡◌, map, ◌<◌};
ghost use Rattle.places.specs.Lists.{any};
ghost use Rattle.places.specs.Places.{first};
ghost use Rattle.mirroring.specs.Mirrors.{no_mirror, new_mirror, new_proxy, is_at, is_good, unblamed, blamed_if, blamed_at, has_proxy, with_proxy, without_proxy};

// How many ordinary mirrors a file may have; they stand at the first places.
pub const MIRRORS: usize = 4;

// The place of a file's proxy, also where it has fewer mirrors.
pub const PROXY: usize = MIRRORS;

// How many places a file has in all.
pub const PLACES: usize = MIRRORS + 1;

// A place: the two halves of its device's id, whether the place is used, whether its device is blamed, and whether it is a proxy and no ordinary mirror.
#[repr(C)]
#[derive(Clone, Copy)]
pub struct Mirror {
    pub high: u64,
    pub low: u64,
    pub present: bool,
    pub blamed: bool,
    pub proxy: bool,
}

impl Mirror {
    // A place without a mirror.
    pub fn none() -> Mirror
        ensures { result ≡ no_mirror }
    {
        Mirror {
            high: 0,
            low: 0,
            present: false,
            blamed: false,
            proxy: false,
        }
    }

    // A new ordinary mirror.
    pub(crate) fn new(high: u64, low: u64) -> Mirror
        ensures { result ≡ new_mirror high low }
    {
        Mirror {
            high,
            low,
            present: true,
            ..Mirror::none()
        }
    }

    // A new proxy.
    pub(crate) fn new_proxy(high: u64, low: u64) -> Mirror
        ensures { result ≡ new_proxy high low }
    {
        Mirror {
            proxy: true,
            ..Mirror::new(high, low)
        }
    }

    // Whether the device stands here.
    pub(crate) fn is(self, high: u64, low: u64) -> bool
        ensures { result ≡ is_at high low self }
    {
        self.present && self.high == high && self.low == low
    }

    // Whether it can be copied from.
    pub(crate) fn good(self) -> bool
        ensures { result ≡ is_good self }
    {
        self.present && !self.blamed
    }

    // The place once its device is blamed, if it is.
    pub(crate) fn blame(self, faulty: bool) -> Mirror
        ensures { result ≡ blamed_if faulty self }
    {
        Mirror {
            blamed: self.blamed || faulty,
            ..self
        }
    }

    // The place once the file is repaired.
    pub(crate) fn clear(mut self) -> Mirror
        ensures { result ≡ unblamed self }
    {
        self.blamed = false;
        self
    }
}

// The place of a device.
pub(crate) fn place(mirrors: [Mirror; PLACES], high: u64, low: u64) -> Option<usize>
    ensures { result ≡ first (is_at high low) mirrors }
{
    mirrors.iter().position(|m| m.is(high, low))
}

// Whether a device stands at a place.
pub fn stands(mirrors: [Mirror; PLACES], high: u64, low: u64) -> bool
    ensures { result ≡ any (is_at high low) mirrors }
{
    mirrors.iter().any(|m| m.is(high, low))
}

// Whether a proxy is there.
pub fn has_proxy(mirrors: [Mirror; PLACES]) -> bool
    ensures { result ≡ has_proxy mirrors }
{
    mirrors[PROXY].present
}

// The mirrors with a proxy.
pub fn with_proxy(mirrors: [Mirror; PLACES], high: u64, low: u64) -> [Mirror; PLACES]
    ensures { result ≡ with_proxy high low mirrors }
{
    let mut ms = mirrors;
    ms[PROXY] = Mirror::new_proxy(high, low);
    ms
}

// The mirrors without the proxy, whose blame goes with it.
pub fn without_proxy(mirrors: [Mirror; PLACES]) -> [Mirror; PLACES]
    ensures { result ≡ without_proxy mirrors }
{
    let mut ms = mirrors;
    ms[PROXY] = Mirror::none();
    ms
}

// The mirrors once the file is repaired; the proxy stays.
pub fn cleared(mirrors: [Mirror; PLACES]) -> [Mirror; PLACES]
    ensures { result ≡ map unblamed mirrors }
{
    places::each(mirrors, |m| m.clear())
}

// The mirrors with those blamed whose places are in a set.
pub fn with_blame(mirrors: [Mirror; PLACES], places: u32) -> [Mirror; PLACES]
    ensures { result ≡ blamed_at places mirrors }
{
    let mut ms = mirrors;
    for i in 0..PLACES {
        ms[i] = ms[i].blame(masks::test(places, i as u32));
    }
    ms
}
