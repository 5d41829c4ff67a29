// Why a command or a call is refused, and what it answers then.
ghost use Rattle.std.specs.Prelude.{◌≡◌};
ghost use Rattle.paper.specs.Refusal.{number, answer_of, judged_of, checked_of, loose_of, paired_of, refused_of};

use crate::{Answer, Looseness, Pairs};

// Each refusal has the number of document 01.
#[derive(Clone, Copy, Debug, PartialEq, Eq)]
pub enum Refusal {
    // Because of the input.
    UnknownCommand = 1,
    CutShort = 2,
    OutOfRange = 3,
    NoSuchDart = 4,
    EmptySpan = 5,
    // Because of the input, of tables only.
    LinkBeyond = 6,
    LinkNotUndone = 7,
    PairNotUndone = 8,
    PlacesDiffer = 9,
    BadRow = 10,
    RowsDiffer = 11,
    // Because of the state.
    NoPlan = 12,
    PlanFull = 13,
    AlreadyLinked = 14,
    NoPairing = 15,
    PairDisagrees = 16,
    AlreadyFree = 17,
    SpanOverlaps = 18,
    RowFull = 19,
    TooLarge = 20,
    NothingLifted = 21,
    TopDimension = 22,
    RepliesFull = 23,
}

impl Refusal {
    pub fn number(self) -> u8
        ensures { result ≡ number self }
    {
        self as u8
    }
}

// A value, or the refusal's number with value 0.
impl From<Result<u16, Refusal>> for Answer {
    ghost from_gives = { λ told r. r ≡ answer_of told };

    fn from(told: Result<u16, Refusal>) -> Answer {
        match told {
            Ok(value) => Answer { number: 0, value },
            Err(refusal) => Answer {
                number: refusal.number(),
                value: 0,
            },
        }
    }
}

// What a call on raw tables is refused by, with the value that it answers then: the first dart at fault where the check found one, else 0.
#[derive(Clone, Copy, Debug, PartialEq, Eq)]
pub struct Refused {
    pub refusal: Refusal,
    pub value: u16,
}

impl From<Refusal> for Refused {
    ghost from_gives = { λ why r. r ≡ refused_of why };

    fn from(refusal: Refusal) -> Refused {
        Refused { refusal, value: 0 }
    }
}

impl From<Result<u16, Refused>> for Answer {
    ghost from_gives = { λ told r. r ≡ judged_of told };

    fn from(told: Result<u16, Refused>) -> Answer {
        match told {
            Ok(value) => Answer { number: 0, value },
            Err(refused) => Answer {
                number: refused.refusal.number(),
                value: refused.value,
            },
        }
    }
}

// The check answers a dart at fault, or zeros.
impl From<Result<(), Refused>> for Answer {
    ghost from_gives = { λ told r. r ≡ checked_of told };

    fn from(told: Result<(), Refused>) -> Answer {
        Answer::from(told.map(|()| 0u16))
    }
}

// A byte of free axes, of which the set bits are counted; or the refusal's number with zeros.
impl From<Result<u8, Refusal>> for Looseness {
    ghost from_gives = { λ told r. r ≡ loose_of told };

    fn from(told: Result<u8, Refusal>) -> Looseness {
        match told {
            Ok(bits) => Looseness {
                number: 0,
                bits,
                ones: bits.count_ones(),
            },
            Err(refusal) => Looseness {
                number: refusal.number(),
                bits: 0,
                ones: 0,
            },
        }
    }
}

// How many pairs of ends, or the refusal's number with none.
impl From<Result<usize, Refusal>> for Pairs {
    ghost from_gives = { λ told r. r ≡ paired_of told };

    fn from(told: Result<usize, Refusal>) -> Pairs {
        match told {
            Ok(pairs) => Pairs { number: 0, pairs },
            Err(refusal) => Pairs {
                number: refusal.number(),
                pairs: 0,
            },
        }
    }
}
