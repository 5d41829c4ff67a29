// How far a run has come, and its replies in memory.
#![tactic(auto)]

pub mod reply;

ghost use Rattle.std.specs.Prelude.{◌≡◌, ◌<◌};
ghost use Rattle.progress.specs.Progress.{count_limit, start, stops, goes_on, after, ended};

use kernel::width;
use paper::refusal::Refusal;
use paper::{Command, Ended};
use sizes::{Sizes, Stepped};

// The place of the next byte, the sizes of both maps, the three counts, and the number of the unreadable command that ended it, if one did.
#[derive(Clone, Copy)]
pub struct Progress {
    pub at: usize,
    pub sizes: Sizes,
    pub taken: usize,
    pub accepted: usize,
    pub refused: usize,
    pub stopped: Option<u8>,
}

// Both maps are blank and nothing is taken.
pub fn start() -> Progress
    ensures { result ≡ start }
{
    Progress {
        at: 0,
        sizes: Sizes {
            m: 0,
            n: 0,
            lm: 0,
            ln: 0,
        },
        taken: 0,
        accepted: 0,
        refused: 0,
        stopped: None,
    }
}

// An unreadable command ends the run by the number of its reply, where that is not 0: 0 ends nothing. The number that it was read with is the same, and is not asked again.
fn stops(command: Command, number: u8) -> Option<u8>
    ensures { result ≡ stops command number }
{
    match command {
        Command::Unreadable { .. } if number != 0 => Some(number),
        _ => None,
    }
}

// A byte is left, and room for a reply.
#[tactic(auto, unfolding(crate::specs::Progress::goes_on))]
pub fn goes_on(bytes: usize, memory: usize, p: Progress) -> bool
    ensures { result ≡ goes_on bytes memory p }
{
    p.at < bytes && p.taken < memory / width::REPLY
}

// What was taken is counted: as accepted where the reply's number is 0, else as refused.
#[tactic(auto, unfolding(crate::specs::Progress::after))]
pub fn after(p: Progress, command: Command, next: usize, r: Stepped) -> Progress
    requires { (p.taken < count_limit) × ((p.accepted < count_limit) × (p.refused < count_limit)) }
    ensures { result ≡ after p command next r }
{
    let taken = Progress {
        at: next,
        sizes: r.sizes,
        taken: p.taken + 1,
        stopped: stops(command, r.answer.number),
        ..p
    };
    if r.answer.number == 0 {
        return Progress {
            accepted: p.accepted + 1,
            ..taken
        };
    }
    Progress {
        refused: p.refused + 1,
        ..taken
    }
}

// The four numbers of a run that does not go on: no byte left is seen before no room for a reply.
#[tactic(auto, unfolding(crate::specs::Progress::ended))]
pub fn ended(bytes: usize, p: Progress) -> Ended
    ensures { result ≡ ended bytes p }
{
    let number = match p.stopped {
        Some(number) => number,
        None if p.at < bytes => Refusal::RepliesFull.number(),
        None => 0,
    };
    Ended {
        number,
        taken: p.taken,
        accepted: p.accepted,
        refused: p.refused,
    }
}
