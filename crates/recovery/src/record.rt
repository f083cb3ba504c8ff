// The record (paper 01, "The recovery record"): at most 64 files, by rising number, the free places last, and what stands beside them. Each call
// answers its status and the record afterwards. First the loops over the 64 places, then the calls in the paper's order, and among them those on a file's
// proxy (02, Ticket 7), and the set-up of a client's stateid (02, Ticket 13).
ghost use Rattle.std.specs.Prelude.{◌≡◌, map, get_or, ◌<◌};
ghost use Rattle.places.specs.Lists.{any};
ghost use Rattle.files.specs.Answers.{answered_as};
ghost use Rattle.files.specs.File.{no_file, restarted_file, uses_stateid};
ghost use Rattle.files.specs.Head.{edition_of};
ghost use Rattle.files.specs.declared.head.Edition.TheVariants.{Old};
ghost use Rattle.recovery.specs.Record.{fresh_as, fresh, place_in, put_file, room_in, enter, without_file, register_of, open_of, reclaim_of, close_of, repaired_of, add_proxy_of, remove_proxy_of, is_barred, set_up_of, forget_of, end_of, restart_of, ended_record};
ghost use Rattle.recovery.specs.Answers.{answer_as, left_as};

use files::file::{File, FileAfter};
use files::head::{Edition, Head};
use statuses::Status;
use wire::stateid::Stateid;

#[repr(C)]
#[derive(Clone, Copy)]
pub struct Record {
    pub files: [File; 64],
    pub head: Head,
}

// What a call answers, and the record afterwards.
#[derive(Clone, Copy)]
pub struct Answered {
    pub answer: Result<(), Status>,
    pub after: Record,
}

// The first free place, or the last place.
fn room(files: [File; 64]) -> usize
    ensures { (result ≡ room_in files) × (result < 64) }
{
    files.iter().position(|f| f.free()).unwrap_or(63)
}

// Whether a file uses the `other` of `t`.
fn in_use(files: [File; 64], t: Stateid) -> bool
    ensures { result ≡ any (uses_stateid t) files }
{
    files.iter().any(|f| f.uses(t))
}

// Whether an `other` may not be a new stateid's.
#[tactic(auto, unfolding(crate::specs::Record::is_barred))]
fn bars(files: [File; 64], other: &[u8]) -> bool
    ensures { result ≡ is_barred other.now files }
{
    wire::stateid::bad_other(other) || in_use(files, wire::stateid::begun(other))
}

// The files with `x` among them by its number: from the first free place down, each with a greater number moves up one place.
fn entered(files: [File; 64], x: File) -> [File; 64]
    ensures { result ≡ enter x files }
{
    let mut fs = files;
    for i in (0..room(files)).rev() {
        let y = fs[i];
        if y.number <= x.number {
            fs[i + 1] = x;
            return fs;
        }
        fs[i + 1] = y;
    }
    fs[0] = x;
    fs
}

// The files without that at `at`: those after it, up to the first free place, move down one place.
fn left_out(files: [File; 64], at: usize) -> [File; 64]
    requires { at < 64 }
    ensures { result ≡ without_file at files }
{
    let mut fs = files;
    let blank = File::blank();
    for i in at..63 {
        let y = fs[i + 1];
        if y.free() {
            fs[i] = blank;
            return fs;
        }
        fs[i] = y;
    }
    fs[63] = blank;
    fs
}

// Each file after the end of grace, and `before` with each of them counted.
fn ended(files: [File; 64], before: Head) -> Record
    ensures { result ≡ ended_record before files }
{
    let mut fs = files;
    let mut head = before;
    for f in &mut fs {
        *f = f.ended();
        head = f.counted(head);
    }
    Record { files: fs, head }
}

// Each file after a restart.
fn restarted(files: [File; 64]) -> [File; 64]
    ensures { result ≡ map restarted_file files }
{
    let mut fs = files;
    for f in &mut fs {
        *f = f.restarted();
    }
    fs
}

impl Record {
    // Empty, not in grace, of the edition.
    pub fn set_up(edition: Edition) -> Record
        ensures { result ≡ fresh_as edition }
    {
        let f = File::blank();
        let fs = [f; 64];
        let head = Head::fresh(edition);
        Record { files: fs, head }
    }

    // The same of the current edition. This name and the next are the papers': each is one call of `set_up`.
    pub fn fresh() -> Record
        ensures { result ≡ fresh }
    {
        Record::set_up(Edition::Current)
    }

    // The same of the old edition.
    pub fn fresh_old() -> Record
        ensures { result ≡ fresh_as Old }
    {
        Record::set_up(Edition::Old)
    }

    // The edition that the record was set up with.
    pub fn edition(self) -> Edition
        ensures { result ≡ edition_of self.head }
    {
        let head = self.head;
        head.edition()
    }

    // The place of a file, or the last place if there is no such file.
    pub fn place(self, number: u64) -> usize
        ensures { (result ≡ place_in number self) × (result < 64) }
    {
        self.files.iter().position(|f| f.is(number)).unwrap_or(63)
    }

    // What a call answers that leaves the record as it is handed, or is refused.
    fn answered(self, after: Result<Record, Status>) -> Answered
        ensures { answer_as result ≡ left_as self after }
    {
        match after {
            Ok(after) => Answered {
                answer: Ok(()),
                after,
            },
            Err(status) => Answered {
                answer: Err(status),
                after: self,
            },
        }
    }

    // The same of a call on the file at a place, which leaves that file and what stands beside the files.
    #[tactic(auto, using(crate::proofs::Answering::put_back))]
    pub(crate) fn stored(mut self, at: usize, a: Result<FileAfter, Status>) -> Answered
        requires { at < 64 }
        ensures { answer_as result ≡ put_file self at (answered_as self.head (get_or self.files at no_file) a) }
    {
        match a {
            Ok(a) => {
                let f = a.file;
                self.files[at] = f;
                self.head = a.head;
                self.answered(Ok(self))
            }
            Err(status) => self.answered(Err(status)),
        }
    }

    // Register, decided, with the record afterwards.
    #[tactic(auto, unfolding(crate::specs::Record::register_of))]
    fn registered(mut self, file: u64, mirrors: &[u8]) -> Result<Record, Status>
        ensures { left_as self result ≡ register_of file mirrors.now self }
    {
        self.head.out_of_grace()?;
        let Some(ms) = mirroring::enrol::enrol(mirrors) else {
            return Err(Status::Inval);
        };
        let i = self.place(file);
        let f = self.files[i];
        if f.is(file) {
            return Err(Status::Exist);
        }
        let last = self.files[63];
        if last.used {
            return Err(Status::NoSpc);
        }
        let x = File::new(file, ms);
        let old = self.files;
        let fs = entered(old, x);
        self.files = fs;
        Ok(self)
    }

    // Register a file with its mirrors, 16 bytes a device: 10013 in grace; 22 bad mirror list; 17 registered; 28 if 64 are registered.
    pub fn register(self, file: u64, mirrors: &[u8]) -> Answered
        ensures { answer_as result ≡ register_of file mirrors.now self }
    {
        self.answered(self.registered(file, mirrors))
    }

    // Open for writing: 10013 in grace; 70; held already: 0, no change; 28 if 8 are held.
    #[tactic(auto, unfolding(crate::specs::Record::open_of))]
    pub fn open(self, file: u64, client: u64) -> Answered
        ensures { answer_as result ≡ open_of file client self }
    {
        let i = self.place(file);
        let f = self.files[i];
        self.stored(i, f.open(file, self.head, client))
    }

    // Reclaim: 10033 not in grace; 70; 10034 no intent; again: 0, no change.
    #[tactic(auto, unfolding(crate::specs::Record::reclaim_of))]
    pub fn reclaim(self, file: u64, client: u64) -> Answered
        ensures { answer_as result ≡ reclaim_of file client self }
    {
        let i = self.place(file);
        let f = self.files[i];
        self.stored(i, f.reclaim(file, self.head, client))
    }

    // Close: 70; 10025 no intent, or in grace and not reclaimed.
    #[tactic(auto, unfolding(crate::specs::Record::close_of))]
    pub fn close(self, file: u64, client: u64) -> Answered
        ensures { answer_as result ≡ close_of file client self }
    {
        let i = self.place(file);
        let f = self.files[i];
        self.stored(i, f.close(file, self.head, client))
    }

    // Repaired: 70; 22 not marked; 10008 an intent is open.
    #[tactic(auto, unfolding(crate::specs::Record::repaired_of))]
    pub fn repaired(self, file: u64) -> Answered
        ensures { answer_as result ≡ repaired_of file self }
    {
        let i = self.place(file);
        let f = self.files[i];
        self.stored(i, f.repaired(file, self.head))
    }

    // Add a proxy, whose device is 16 bytes: 10013 in grace; 70; 22 the device isn't 16 bytes, or is there already; 17 a proxy is there.
    #[tactic(auto, unfolding(crate::specs::Record::add_proxy_of))]
    pub fn add_proxy(self, file: u64, device: &[u8]) -> Answered
        ensures { answer_as result ≡ add_proxy_of file device.now self }
    {
        let i = self.place(file);
        let f = self.files[i];
        self.stored(i, f.add_proxy(file, self.head, device))
    }

    // Remove the proxy: 10013 in grace; 70; 2 none.
    #[tactic(auto, unfolding(crate::specs::Record::remove_proxy_of))]
    pub fn remove_proxy(self, file: u64) -> Answered
        ensures { answer_as result ≡ remove_proxy_of file self }
    {
        let i = self.place(file);
        let f = self.files[i];
        self.stored(i, f.remove_proxy(file, self.head))
    }

    // Set up a client's stateid: 10013 in grace; 70; 10025 no intent; 17 it has one; 22 the `other` isn't 12 bytes, is all zeros or all ones, or is in use.
    #[tactic(auto, unfolding(crate::specs::Record::set_up_of))]
    pub fn set_up_stateid(self, file: u64, client: u64, other: &[u8]) -> Answered
        ensures { answer_as result ≡ set_up_of file client other.now self }
    {
        let files = self.files;
        let barred = bars(files, other);
        let t = wire::stateid::begun(other);
        let i = self.place(file);
        let f = self.files[i];
        self.stored(i, f.set_up_stateid(file, self.head, client, t, barred))
    }

    // Forget, decided, with the record afterwards.
    #[tactic(auto, unfolding(crate::specs::Record::forget_of))]
    fn forgotten(mut self, file: u64) -> Result<Record, Status>
        ensures { left_as self result ≡ forget_of file self }
    {
        let i = self.place(file);
        let f = self.files[i];
        f.forget(file, self.head)?;
        let old = self.files;
        let fs = left_out(old, i);
        self.files = fs;
        Ok(self)
    }

    // Forget a file: 10013 in grace; 70; 10008 marked or an intent is open.
    pub fn forget(self, file: u64) -> Answered
        ensures { answer_as result ≡ forget_of file self }
    {
        self.answered(self.forgotten(file))
    }

    // End of grace: 10033 not in grace. The files are counted as they are gone over.
    pub fn end_grace(self) -> Answered
        ensures { answer_as result ≡ end_of self }
    {
        if !self.head.grace {
            return self.answered(Err(Status::NoGrace));
        }
        let old = self.files;
        let before = Head {
            waiting: 0,
            offered: 0,
            grace: false,
            ..self.head
        };
        self.answered(Ok(ended(old, before)))
    }

    // Restart: no refusal.
    #[tactic(auto, unfolding(crate::specs::Record::restart_of))]
    pub fn restart(mut self) -> Answered
        ensures { answer_as result ≡ restart_of self }
    {
        let old = self.files;
        let fs = restarted(old);
        self.files = fs;
        self.head.grace = true;
        self.answered(Ok(self))
    }
}
