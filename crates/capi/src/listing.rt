// The two lists in place (paper 01, "The ledger"; 02, Ticket 11): which end a source is looked for from, by its number; a list, with no number for 0; and what C is handed of it.
ghost use Rattle.std.specs.Prelude.{◌≡◌};
ghost use Rattle.recovery.specs.Answers.{listed_as};
ghost use Rattle.recovery.specs.Calls.{listed};
ghost use Rattle.capi.specs.Asked.{asked_by, listing_by};

use mirroring::source::Direction;
use recovery::listing::Listing;
use recovery::record::Record;
use statuses::Status;

// The end, by the number of a direction: 0 asks for none, which is the highest.
fn asked(number: u32) -> Result<Direction, Status>
    ensures { result ≡ asked_by number }
{
    match number {
        0 => Ok(Direction::Highest),
        1 => Ok(Direction::Lowest),
        2 => Ok(Direction::Highest),
        3..=4294967295 => Err(Status::Inval),
    }
}

// The files of a list, in the lent slices, and how many they are.
fn lent(
    r: &Record,
    which: Listing,
    files: &mut [u64],
    sources: &mut [u8],
    direction: u32,
) -> Result<usize, Status>
    ensures { listed_as result files.new sources.new ≡ listing_by which direction r.now files.old sources.old }
{
    match asked(direction) {
        Ok(end) => recovery::listing::list(&r.files, which, end, files, sources),
        Err(status) => Err(status),
    }
}

// The same, with the count in what is lent, which is 0 on a refusal.
pub(crate) fn list(
    r: &Record,
    which: Listing,
    files: &mut [u64],
    sources: &mut [u8],
    count: &mut u64,
    direction: u32,
) -> u32
    ensures { listed result count.new files.new sources.new ≡ listing_by which direction r.now files.old sources.old }
{
    match lent(r, which, files, sources, direction) {
        Ok(n) => {
            *count = n as u64;
            0
        }
        Err(status) => {
            *count = 0;
            u32::from(status)
        }
    }
}
