// One file of the record (paper 01, "The recovery record"; 02, Tickets 7 and 13): what it holds, and the calls on one file. A call tests for itself whether this is
// the file of the number that it is given, gets what stands beside the files, and answers both afterwards, or its refusal alone. Then what a report, a
// restart and the end of grace do to a file, and what the lists ask of one.
ghost use Rattle.std.specs.Prelude.{◌≡◌, true, false, MatchResult};
ghost use Rattle.statuses.specs.Numbers.{code};
ghost use Rattle.statuses.specs.declared.Status.TheVariants.{Stale};
ghost use Rattle.intents.specs.Intents.{intent_of};
ghost use Rattle.files.specs.File.{no_file, blank_file, file_of, is_file, is_vacant, opened_file, reclaimed_file, closed_file, repaired_file, forgettable, proxy_added_file, proxy_removed_file, stated_file, uses_stateid, raised_file, restarted_file, ended_file, is_listed, is_ready, source_of, blamed_file, changed_file, standing_of, counted_head, head_marked, head_after, marks_file, blames_places};
ghost use Rattle.files.specs.Answers.{answered_as, opening_as, closing_as};

use crate::counts::Standing;
use crate::head::Head;
use intents::Intent;
use mirroring::blame::Change;
use mirroring::mirrors::{Mirror, PLACES};
use mirroring::source::Direction;
use statuses::Status;
use wire::stateid::Stateid;

// The wide fields stand first. A place of the record is a file's if `used`.
#[repr(C)]
#[derive(Clone, Copy)]
pub struct File {
    pub number: u64,
    pub mirrors: [Mirror; PLACES],
    pub intents: [Intent; 8],
    pub used: bool,
    pub marked: bool,
}

// What a call that is accepted leaves: what stands beside the files, and the file.
#[derive(Clone, Copy)]
pub struct FileAfter {
    pub head: Head,
    pub file: File,
}

// An intent that begins: what stands beside the files then, its place and its client.
#[derive(Clone, Copy)]
pub struct Opened {
    pub head: Head,
    pub at: usize,
    pub client: u64,
}

impl Opened {
    // The new intent.
    pub fn intent(self) -> Intent
        ensures { result ≡ intent_of self.client }
    {
        Intent::new(self.client)
    }
}

// An intent that ends: what stands beside the files then, and its place.
#[derive(Clone, Copy)]
pub struct Closed {
    pub head: Head,
    pub at: usize,
}

impl File {
    // A place that no file has.
    pub fn blank() -> File
        ensures { result ≡ blank_file }
    {
        let m = Mirror::none();
        let x = Intent::none();
        let ms = [m; PLACES];
        let xs = [x; 8];
        File {
            number: 0,
            mirrors: ms,
            intents: xs,
            used: false,
            marked: false,
        }
    }

    // A file as it is registered.
    pub fn new(number: u64, mirrors: [Mirror; PLACES]) -> File
        ensures { result ≡ file_of number mirrors }
    {
        let x = Intent::none();
        let xs = [x; 8];
        File {
            number,
            mirrors,
            intents: xs,
            used: true,
            marked: false,
        }
    }

    // Whether this is the file of the number.
    pub fn is(self, number: u64) -> bool
        ensures { result ≡ is_file number self }
    {
        self.used && self.number == number
    }

    // Whether the place is free.
    pub fn free(self) -> bool
        ensures { result ≡ is_vacant self }
    {
        !self.used
    }

    // The file of the number, or 70.
    pub fn named(self, number: u64) -> Result<(), Status>
        ensures { MatchResult result (λ _. is_file number self ≡ true) (λ e. (is_file number self ≡ false) × (e ≡ Stale)) }
    {
        if !self.is(number) {
            return Err(Status::Stale);
        }
        Ok(())
    }

    // Open for writing, decided: 10013 in grace; 70; held already: none begins; 28 if 8 are held.
    #[tactic(auto, unfolding(crate::specs::File::opened_file))]
    pub fn opening(self, number: u64, head: Head, client: u64) -> Result<Option<Opened>, Status>
        ensures { opening_as head self result ≡ opened_file number head client self }
    {
        head.out_of_grace()?;
        self.named(number)?;
        let old = self.intents;
        if intents::holding(old, client).is_some() {
            return Ok(None);
        }
        let Some(at) = intents::room(old) else {
            return Err(Status::NoSpc);
        };
        let was = self.standing();
        let is = Standing::of(was.listed, true);
        Ok(Some(Opened {
            head: head.moved(was, is),
            at,
            client,
        }))
    }

    // Open for writing, with the file afterwards.
    #[tactic(auto, unfolding(crate::specs::File::opened_file))]
    pub fn open(mut self, number: u64, head: Head, client: u64) -> Result<FileAfter, Status>
        ensures { answered_as head self result ≡ opened_file number head client self }
    {
        let Some(s) = self.opening(number, head, client)? else {
            return Ok(FileAfter { head, file: self });
        };
        let old = self.intents;
        let x = s.intent();
        let xs = intents::placed(old, s.at, x);
        self.intents = xs;
        Ok(FileAfter {
            head: s.head,
            file: self,
        })
    }

    // Reclaim: 10033 not in grace; 70; 10034 no intent; again: 0, no change.
    #[tactic(auto, unfolding(crate::specs::File::reclaimed_file))]
    pub fn reclaim(mut self, number: u64, head: Head, client: u64) -> Result<FileAfter, Status>
        ensures { answered_as head self result ≡ reclaimed_file number head client self }
    {
        if !head.grace {
            return Err(Status::NoGrace);
        }
        self.named(number)?;
        let old = self.intents;
        if intents::holding(old, client).is_none() {
            return Err(Status::ReclaimBad);
        }
        let xs = intents::reclaimed(old, client);
        self.intents = xs;
        Ok(FileAfter { head, file: self })
    }

    // Close, decided: 70; 10025 no intent, or in grace and not reclaimed.
    #[tactic(auto, unfolding(crate::specs::File::closed_file))]
    pub fn closing(self, number: u64, head: Head, client: u64) -> Result<Closed, Status>
        ensures { closing_as head self result ≡ closed_file number head client self }
    {
        self.named(number)?;
        let old = self.intents;
        let at = intents::holding(old, client).ok_or(Status::BadStateid)?;
        if head.grace && !intents::is_reclaimed(old, at) {
            return Err(Status::BadStateid);
        }
        let was = self.standing();
        let is = Standing::of(was.listed, intents::busy_without(old, at));
        Ok(Closed {
            head: head.moved(was, is),
            at,
        })
    }

    // Close, with the file afterwards.
    #[tactic(auto, unfolding(crate::specs::File::closed_file))]
    pub fn close(mut self, number: u64, head: Head, client: u64) -> Result<FileAfter, Status>
        ensures { answered_as head self result ≡ closed_file number head client self }
    {
        let s = self.closing(number, head, client)?;
        let old = self.intents;
        let xs = intents::without(old, s.at);
        self.intents = xs;
        Ok(FileAfter {
            head: s.head,
            file: self,
        })
    }

    // Repaired: 70; 22 not marked; 10008 an intent is open.
    #[tactic(auto, unfolding(crate::specs::File::repaired_file))]
    pub fn repaired(mut self, number: u64, head: Head) -> Result<FileAfter, Status>
        ensures { answered_as head self result ≡ repaired_file number head self }
    {
        self.named(number)?;
        if !self.marked {
            return Err(Status::Inval);
        }
        let xs = self.intents;
        if intents::busy(xs) {
            return Err(Status::Delay);
        }
        let old = self.mirrors;
        let ms = mirroring::mirrors::cleared(old);
        self.mirrors = ms;
        self.marked = false;
        let was = Standing::of(true, false);
        let is = Standing::of(false, false);
        Ok(FileAfter {
            head: head.moved(was, is),
            file: self,
        })
    }

    // Whether the file may be forgotten: 10013 in grace; 70; 10008 marked or an intent is open.
    #[tactic(auto, unfolding(crate::specs::File::forgettable))]
    pub fn forget(self, number: u64, head: Head) -> Result<(), Status>
        ensures { code result ≡ forgettable number head self }
    {
        head.out_of_grace()?; // Or 10013.
        self.named(number)?; // Or 70.
        let xs = self.intents;
        if self.marked || intents::busy(xs) {
            return Err(Status::Delay);
        }
        Ok(())
    }

    // Add a proxy: 10013 in grace; 70; 22 the device isn't 16 bytes, or is there already; 17 a proxy is there.
    #[tactic(auto, unfolding(crate::specs::File::proxy_added_file))]
    pub fn add_proxy(mut self, number: u64, head: Head, device: &[u8]) -> Result<FileAfter, Status>
        ensures { answered_as head self result ≡ proxy_added_file number head device.now self }
    {
        head.out_of_grace()?;
        self.named(number)?;
        if device.len() != 16 {
            return Err(Status::Inval);
        }
        let high = xdr::be64(device, 0);
        let low = xdr::be64(device, 8);
        let old = self.mirrors;
        if mirroring::mirrors::stands(old, high, low) {
            return Err(Status::Inval);
        }
        if mirroring::mirrors::has_proxy(old) {
            return Err(Status::Exist);
        }
        let ms = mirroring::mirrors::with_proxy(old, high, low);
        self.mirrors = ms;
        Ok(FileAfter { head, file: self })
    }

    // Remove the proxy: 10013 in grace; 70; 2 none. Its blame goes with it, and the file's mark stays.
    #[tactic(auto, unfolding(crate::specs::File::proxy_removed_file))]
    pub fn remove_proxy(mut self, number: u64, head: Head) -> Result<FileAfter, Status>
        ensures { answered_as head self result ≡ proxy_removed_file number head self }
    {
        head.out_of_grace()?;
        self.named(number)?;
        let old = self.mirrors;
        if !mirroring::mirrors::has_proxy(old) {
            return Err(Status::NoEnt);
        }
        let ms = mirroring::mirrors::without_proxy(old);
        self.mirrors = ms;
        Ok(FileAfter { head, file: self })
    }

    // Set up a client's stateid: 10013 in grace; 70; 10025 no intent; 17 it has one; 22 its `other` may not be a new one's.
    #[tactic(auto, unfolding(crate::specs::File::stated_file))]
    pub fn set_up_stateid(
        mut self,
        number: u64,
        head: Head,
        client: u64,
        t: Stateid,
        barred: bool,
    ) -> Result<FileAfter, Status>
        ensures { answered_as head self result ≡ stated_file number head client t barred self }
    {
        head.out_of_grace()?;
        self.named(number)?;
        let old = self.intents;
        if intents::holding(old, client).is_none() {
            return Err(Status::BadStateid);
        }
        if intents::stated(intents::stateid_of(old, client)) {
            return Err(Status::Exist);
        }
        if barred {
            return Err(Status::Inval);
        }
        let xs = intents::with_stateid(old, client, t);
        self.intents = xs;
        Ok(FileAfter { head, file: self })
    }

    // Whether one of the file's clients has the `other` of `t`.
    #[tactic(auto, unfolding(crate::specs::File::uses_stateid))]
    pub fn uses(self, t: Stateid) -> bool
        ensures { result ≡ uses_stateid t self }
    {
        let xs = self.intents;
        self.used && intents::uses(xs, t)
    }

    // The file once a return has raised the client's stateid to `t`; none is raised where it is none.
    #[tactic(auto, unfolding(crate::specs::File::raised_file))]
    pub fn raised(mut self, client: u64, t: Stateid) -> File
        ensures { result ≡ raised_file client t self }
    {
        if intents::stated(t) {
            let old = self.intents;
            let xs = intents::with_stateid(old, client, t);
            self.intents = xs;
        }
        self
    }

    // The file once it is marked, if it is, and the mirrors of a set of places are blamed.
    pub fn blame(self, marks: bool, places: u32) -> File
        ensures { result ≡ blamed_file marks places self }
    {
        let old = self.mirrors;
        let mirrors = mirroring::mirrors::with_blame(old, places);
        File {
            mirrors,
            marked: marks || self.marked,
            ..self
        }
    }

    // The file once a report has changed it: step 7 of a LAYOUTRETURN.
    pub fn apply(self, change: Change) -> File
        ensures { result ≡ changed_file change self }
    {
        self.blame(marks(change), blamed_by(change))
    }

    // What stands beside the files once the file is marked, if it is: it is entered on the lists, unless it is there.
    pub fn head_marked(self, head: Head, marks: bool) -> Head
        ensures { result ≡ head_marked marks head self }
    {
        if !marks || self.listed() {
            return head;
        }
        let was = self.standing();
        let xs = self.intents;
        let is = Standing::of(self.used, intents::busy(xs));
        head.moved(was, is)
    }

    // What stands beside the files once a report has changed the file.
    pub fn head_after(self, head: Head, change: Change) -> Head
        ensures { result ≡ head_after change head self }
    {
        self.head_marked(head, marks(change))
    }

    // The file after a restart: nobody has reclaimed.
    #[tactic(auto, unfolding(crate::specs::File::restarted_file))]
    pub fn restarted(self) -> File
        ensures { result ≡ restarted_file self }
    {
        let old = self.intents;
        let intents = intents::unreclaimed(old);
        File { intents, ..self }
    }

    // The file after the end of grace: marked if it has an intent that was not reclaimed; such intents are dropped.
    #[tactic(auto, unfolding(crate::specs::File::ended_file))]
    pub fn ended(self) -> File
        ensures { result ≡ ended_file self }
    {
        let old = self.intents;
        let intents = intents::staying(old);
        File {
            intents,
            marked: intents::lost(old) || self.marked,
            ..self
        }
    }

    // Whether the file is on the resilver list.
    pub fn listed(self) -> bool
        ensures { result ≡ is_listed self }
    {
        self.used && self.marked
    }

    // Whether the file is offered for copying.
    pub fn offered(self) -> bool
        ensures { result ≡ is_ready self }
    {
        let xs = self.intents;
        self.listed() && !intents::busy(xs)
    }

    // Which lists the file is on.
    fn standing(self) -> Standing
        ensures { result ≡ standing_of self }
    {
        let xs = self.intents;
        Standing::of(self.listed(), intents::busy(xs))
    }

    // What stands beside the files, with this file counted: one that was not counted before.
    pub fn counted(self, head: Head) -> Head
        ensures { result ≡ counted_head head self }
    {
        head.moved(Standing::of(false, false), self.standing())
    }

    // The place to copy from, by the direction, or 255.
    #[tactic(auto, unfolding(crate::specs::File::source_of))]
    pub fn source(self, direction: Direction) -> u8
        ensures { result ≡ source_of direction self }
    {
        match mirroring::source::source(self.mirrors, direction) {
            Some(i) => i as u8,
            None => 255,
        }
    }
}

// Whether a report marks a file: what a file makes of a change, which is another crate's type, so no method of it.
fn marks(change: Change) -> bool
    ensures { result ≡ marks_file change }
{
    change.unknown || change.failed
}

// The places that a report blames: one that names an unknown device blames none.
fn blamed_by(change: Change) -> u32
    ensures { result ≡ blames_places change }
{
    if change.failed && !change.unknown {
        change.blamed
    } else {
        0
    }
}
