// The joiner: extents are fed to it in their order, and it joins those that belong together (Ticket 9). It holds the latest run of each state, and how many
// runs there are; of each piece it says what is to be stored: a run that the piece starts, or the new length of the run that it follows.
// In this order: a piece; a run: the one that a piece starts, the same with one more, whether a piece follows; all runs; what a piece comes to; its store.
ghost use Rattle.std.specs.Prelude.{◌≡◌, ◌+◌, ◌*◌, ◌<◌, ◌≤◌, length};
ghost use Rattle.joining.specs.Joiner.{device_in, joins_run, longer_run, started_run, no_runs, fed, step_of, stored, Ready};

use extents::Numbers;
use layouts::placing;

// An extent, or a part of one, whose device stays where it lies: 16 bytes in row `row` of a column of devices.
#[derive(Clone, Copy)]
pub struct Piece {
    pub row: usize,
    pub offset: u64,
    pub len: u64,
    pub storage: u64,
    pub state: u32,
}

impl Piece {
    pub fn numbers(self) -> Numbers
        ensures { result ≡ record { offset = self.offset; len = self.len; storage = self.storage; state = self.state } }
    {
        Numbers {
            offset: self.offset,
            len: self.len,
            storage: self.storage,
            state: self.state,
        }
    }
}

// A run that the next piece of its state may lengthen: its place in the result, a row with its device, where it begins, and where it ends in the file and in
// storage.
#[derive(Clone, Copy)]
pub struct Run {
    pub slot: usize,
    pub row: usize,
    pub offset: u64,
    pub end: u64,
    pub until: u64,
}

// The device of a row. It and the functions of each turn are inlined always: otherwise merging takes up to twice the instructions.
#[inline(always)]
fn device(devs: &[u8], row: usize) -> [u8; 16]
    requires { 16 * row + 16 ≤ length devs.now }
    ensures { result ≡ device_in devs.now row }
{
    <[u8; 16]>::try_from(&devs[16 * row..16 * row + 16]).unwrap()
}

impl Run {
    // The run that p starts, in place `slot`. Both sums wrap, so that it asks for nothing: a hole's place in storage may pass 2^64 - 1, and nobody asks for it.
    pub fn started(slot: usize, p: Piece) -> Run
        ensures { result ≡ started_run slot p }
    {
        Run {
            slot,
            row: p.row,
            offset: p.offset,
            end: p.offset.wrapping_add(p.len),
            until: p.storage.wrapping_add(p.len),
        }
    }

    // The run with p.
    pub fn longer(self, p: Piece) -> Run
        ensures { result ≡ longer_run self p }
    {
        Run {
            row: self.row,
            offset: self.offset,
            ..Run::started(self.slot, p)
        }
    }

    // Whether p begins, in the file and in storage, just where the run ends, and has its device; of holes only the file counts.
    #[inline(always)]
    #[tactic(auto, unfolding(crate::specs::Joiner::joins_run))]
    pub fn joins(self, devs: &[u8], p: Piece) -> bool
        requires { (16 * self.row + 16 ≤ length devs.now) × (16 * p.row + 16 ≤ length devs.now) }
        ensures { result ≡ joins_run devs.now self p }
    {
        self.end == p.offset
            && (p.state == 3
                || self.until == p.storage && device(devs, self.row) == device(devs, p.row))
    }
}

// How many runs there are, and the latest of each state, in its place.
#[derive(Clone, Copy)]
pub struct Runs {
    pub count: usize,
    pub latest: [Option<Run>; 4],
}

// What a piece comes to: the length of the run in a place, or the run in a place that it starts.
#[derive(Clone, Copy)]
pub enum Step {
    Longer { slot: usize, len: u64 },
    Started { slot: usize },
}

impl Runs {
    pub fn new() -> Runs
        ensures { result ≡ no_runs }
    {
        Runs {
            count: 0,
            latest: [None; 4],
        }
    }

    // One more piece: it lengthens the latest run of its state, or starts one.
    #[inline(always)]
    pub fn feed(&mut self, devs: &[u8], p: Piece) -> Step
        requires { Ready devs.now self.old p }
        ensures runs { self.new ≡ fed devs.now self.old p }
        ensures step { result ≡ step_of devs.now self.old p }
    {
        let at = (p.state % 4) as usize;
        match self.latest[at] {
            Some(o) if o.joins(devs, p) => {
                let run = o.longer(p);
                self.latest[at] = Some(run);
                Step::Longer {
                    slot: run.slot,
                    len: run.end - run.offset,
                }
            }
            _ => {
                let slot = self.count;
                self.latest[at] = Some(Run::started(slot, p));
                self.count += 1;
                Step::Started { slot }
            }
        }
    }
}

impl Step {
    // Stores what p has come to; a hole is stored without device and storage.
    #[inline(always)]
    pub fn store(self, d: &mut [u8], devs: &[u8], p: Piece)
        ensures { d.new ≡ stored devs.now self p d.old }
    {
        match self {
            Step::Longer { slot, len } => placing::put_length(d, slot, len),
            Step::Started { slot } => placing::put_extent(
                d,
                slot,
                devs,
                p.row,
                p.numbers(),
                p.state == 3,
            ),
        }
    }
}
