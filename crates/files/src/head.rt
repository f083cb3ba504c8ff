// What stands beside a record's files: how many of them are on either list (02, Ticket 8), whether it is in grace, and its edition (02, Ticket 1). A call on one
// file is told of it. A head has no padding, which the compiler would copy with it.
ghost use Rattle.std.specs.Prelude.{◌≡◌, true, false, MatchResult};
ghost use Rattle.statuses.specs.declared.Status.TheVariants.{Grace};
ghost use Rattle.files.specs.Head.{fresh_head, edition_of};

use statuses::Status;

// Whether a site's clients know RFC 9737. A record keeps the edition that it is set up with.
#[derive(Clone, Copy, PartialEq, Eq)]
pub enum Edition {
    Current,
    Old,
}

#[repr(C)]
#[derive(Clone, Copy)]
pub struct Head {
    pub waiting: u8,
    pub offered: u8,
    pub grace: bool,
    pub old: bool,
}

impl Head {
    // As a record is set up: no files, not in grace.
    pub fn fresh(edition: Edition) -> Head
        ensures { result ≡ fresh_head edition }
    {
        Head {
            waiting: 0,
            offered: 0,
            grace: false,
            old: edition == Edition::Old,
        }
    }

    // Out of grace, or 10013.
    pub fn out_of_grace(self) -> Result<(), Status>
        ensures { MatchResult result (λ _. self.grace ≡ false) (λ e. (self.grace ≡ true) × (e ≡ Grace)) }
    {
        if self.grace {
            return Err(Status::Grace);
        }
        Ok(())
    }

    pub fn edition(self) -> Edition
        ensures { result ≡ edition_of self }
    {
        if self.old {
            Edition::Old
        } else {
            Edition::Current
        }
    }
}
