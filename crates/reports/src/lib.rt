// The body of a LAYOUTRETURN (RFC 8435), from bytes. Paper 01, "LAYOUTRETURN"; Ticket 3.
//     cursor         a place among counted records
//     report         the walk of the error records, and step 5
//     statistics     the walk of the statistics records
// What C calls of it stands in crate `flexfiles`.
#![tactic(auto)]

pub mod cursor;
pub mod report;
pub mod statistics;

ghost use Rattle.std.specs.Prelude.{◌≡◌};
ghost use Rattle.statuses.specs.declared.Status.TheVariants.{BadXdr};

use statuses::Status;

// Bytes that are not of a report's form.
#[derive(Clone, Copy)]
pub struct Malformed;

impl From<Malformed> for Status {
    ghost from_gives = { λ _ status. status ≡ BadXdr };

    fn from(_malformed: Malformed) -> Status {
        Status::BadXdr
    }
}
