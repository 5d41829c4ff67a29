// What the code and the definitions of specs/ share: the command, what was read, the refusals, and the answers of the calls.
#![tactic(auto)]

pub mod refusal;

// One command, of twelve kinds: the eleven that document 01 lists, and SPAN of an object, with its operands. The last is an unreadable one with its refusal's number.
#[derive(Clone, Copy)]
pub enum Command {
    New {
        dimension: u8,
    },
    Dart,
    Sew {
        axis: u8,
        a: u16,
        b: u16,
    },
    Unsew {
        axis: u8,
        a: u16,
    },
    Place {
        dart: u16,
        axis: u8,
        coordinate: i32,
    },
    Span {
        dart: u16,
        lo: i32,
        hi: i32,
    },
    SpanOf {
        dart: u16,
        lo: i32,
        hi: i32,
        object: u16,
    },
    Clear {
        dart: u16,
    },
    Lift,
    Adopt,
    Count {
        side: u8,
        axis: u8,
    },
    // A number and no Refusal: the definitions tell what is answered to it of any number.
    Unreadable {
        number: u8,
    },
}

// A command with the place of the byte after it.
#[derive(Clone, Copy)]
pub struct Read {
    pub command: Command,
    pub next: usize,
}

// A reply, and the answer of the calls check, lift, cells and counts: the refusal's number, or 0, and the value. No Result, here and in the three below, since C reads it.
#[repr(C)]
#[derive(Clone, Copy)]
pub struct Answer {
    pub number: u8,
    pub value: u16,
}

// The answer of the pieces call: the refusal's number, or 0, and how many pairs of ends were written.
#[repr(C)]
#[derive(Clone, Copy)]
pub struct Pairs {
    pub number: u8,
    pub pairs: usize,
}

// The answer of the looseness call: the refusal's number, or 0, the byte of free axes, and how many of its bits are set.
#[repr(C)]
#[derive(Clone, Copy)]
pub struct Looseness {
    pub number: u8,
    pub bits: u8,
    pub ones: u32,
}

// The result of a run: the number that it ended by, and how many commands were taken, accepted and refused.
#[repr(C)]
#[derive(Clone, Copy)]
pub struct Ended {
    pub number: u8,
    pub taken: usize,
    pub accepted: usize,
    pub refused: usize,
}
