// The two lists (paper 01, "The ledger"): the resilver list, and the files offered for copying. A listing fills two lent slices and answers how many
// places it filled; the record stays.
ghost use Rattle.std.specs.Prelude.{◌≡◌, length, map};
ghost use Rattle.files.specs.File.{source_of};
ghost use Rattle.places.specs.Lists.{chosen};
ghost use Rattle.recovery.specs.Answers.{listed_as};
ghost use Rattle.recovery.specs.Record.{is_wanted, number_of, listing_of};
ghost use Rattle.recovery.specs.Calls.{lend};

use crate::record::Record;
use files::file::File;
use mirroring::source::Direction;
use statuses::Status;

// Which list is meant: of the files that need repair, all, or those with no intent.
#[derive(Clone, Copy)]
pub enum Listing {
    Resilver,
    Offered,
}

impl Listing {
    // Whether a file is on the list.
    pub fn has(self, f: File) -> bool
        ensures { result ≡ is_wanted self f }
    {
        match self {
            Listing::Resilver => f.listed(),
            Listing::Offered => f.offered(),
        }
    }
}

// How many of these files are on the list.
fn counted(files: &[File], which: Listing) -> usize
    ensures { result ≡ length (chosen (is_wanted which) files.now) }
{
    files.iter().filter(|f| which.has(**f)).count()
}

// Those of these files that are on the list, in their order, with their sources by the direction, and how many they are: 28 and both slices unchanged if either is too short.
pub fn list(
    files: &[File],
    which: Listing,
    direction: Direction,
    numbers: &mut [u64],
    sources: &mut [u8],
) -> Result<usize, Status>
    ensures { listed_as result numbers.new sources.new ≡ lend (map number_of (chosen (is_wanted which) files.now)) (map (source_of direction) (chosen (is_wanted which) files.now)) numbers.old sources.old }
{
    let n = counted(files, which);
    if numbers.len() < n || sources.len() < n {
        return Err(Status::NoSpc);
    }
    // counted by hand: the next place of two slices, moved on only by a file of the list
    let mut k: usize = 0;
    for f in files {
        if which.has(*f) {
            numbers[k] = f.number;
            sources[k] = f.source(direction);
            k += 1;
        }
    }
    Ok(n)
}

impl Record {
    // The files of a list, by rising number.
    #[tactic(auto, unfolding(crate::specs::Record::listing_of))]
    pub fn list(
        self,
        which: Listing,
        direction: Direction,
        numbers: &mut [u64],
        sources: &mut [u8],
    ) -> Result<usize, Status>
        ensures { listed_as result numbers.new sources.new ≡ listing_of which direction self numbers.old sources.old }
    {
        let fs = self.files;
        list(&fs, which, direction, numbers, sources)
    }
}
