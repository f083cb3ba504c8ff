// LAYOUTRETURN on the record (paper 01, "LAYOUTRETURN"): what it answers, the record afterwards, and the reply.
ghost use Rattle.std.specs.Prelude.{◌≡◌, ◌<◌};
ghost use Rattle.layoutreturn.specs.Answers.{decision_as, numbered_as};
ghost use Rattle.recovery.specs.LayoutReturn.{place_for, layoutreturn_of, reply_after};

use crate::record::Record;
use layoutreturn::Decision;
use mirroring::totals::Totals;
use statuses::Status;

// The status, which is no NFS status where `handed`; whether the request is handed on; the totals of its report by mirror, which are none unless the
// status is 0; and the record afterwards.
#[repr(C)]
#[derive(Clone, Copy)]
pub struct Returned {
    pub status: u32,
    pub handed: bool,
    pub totals: Totals,
    pub after: Record,
}

// What was decided, with the number that is answered in place of a refusal.
fn numbered(d: Result<Decision, Status>) -> Result<Decision, u32>
    ensures { numbered_as result ≡ decision_as d }
{
    match d {
        Ok(decision) => Ok(decision),
        Err(status) => Err(u32::from(status)),
    }
}

impl Record {
    // Where a file is wanted, its place; else the last place.
    fn place_for(self, d: Result<Decision, u32>, file: u64) -> usize
        ensures { (result ≡ place_for file self (numbered_as d)) × (result < 64) }
    {
        let Ok(decision) = d else {
            return 63;
        };
        match decision {
            Decision::HandedOn => 63,
            Decision::ReadBody(_) | Decision::ReturnBody(_) => self.place(file),
        }
    }

    // A reply buffer under 24 bytes gets 28 before all else; where the request is handed on, no reply is written. No file is looked up before step 5.
    pub fn layoutreturn(
        mut self,
        file: u64,
        client: u64,
        request: &[u8],
        reply: &mut [u8],
    ) -> Returned
        ensures { (result ≡ layoutreturn_of file client request.now reply.old self) × (reply.new ≡ reply_after file client request.now reply.old self) }
    {
        let head = self.head;
        let decided = layoutreturn::decide(head, request, reply.len());
        let d = numbered(decided);
        let i = self.place_for(d, file);
        let f = self.files[i];
        let o = layoutreturn::answer(d, f, file, head, client, request, reply);
        let g = layoutreturn::apply(f, o);
        self.files[i] = g;
        self.head = o.head;
        let totals = o.totals;
        Returned {
            status: o.status,
            handed: o.status == statuses::HANDED_ON,
            totals,
            after: self,
        }
    }
}
