// The sizes of documents 01 and 02 that the code uses, each named once; those that follow from others are computed from them. `paper`'s Width has the same numbers.

// The largest dimension of a map.
pub const DIMENSION: u8 = 5;

// The largest dimension of a new plan: its lift is a map as well.
pub const NEW_LIMIT: usize = DIMENSION as usize - 1;

// Numbers in a row of links, one for each axis of the largest dimension, and in a row of places.
pub const LINKS: usize = DIMENSION as usize + 1;

pub const PLACES: usize = DIMENSION as usize;

// Numbers that a span takes in its row, spans that a row may hold, and numbers in a row of spans: how many, then those of each.
pub const PER_SPAN: usize = 3;

pub const SPAN_LIMIT: i32 = 8;

pub const SPANS: usize = 1 + PER_SPAN * SPAN_LIMIT as usize;

// Numbers in a row of objects.
pub const OBJECTS: usize = 1;

// How many values an object's number has.
pub const OBJECT_LIMIT: i32 = 65536;

// Numbers in a pair of ends, as the pieces call writes it.
pub const PAIR: usize = 2;

// Numbers in a row of work.
pub const WORK: usize = 4;

// The largest capacity of a side.
pub const DARTS: usize = 16384;

// Bytes in a reply: its number, then its value.
pub const REPLY: usize = 3;

// What `liftrun` takes and lends: bytes of input, darts of the plan and of the lifted side, bytes of replies.
pub const INPUT_LIMIT: usize = 2048;

pub const PLAN_ROOM: usize = 192;

pub const LIFTED_ROOM: usize = 512;

pub const REPLY_ROOM: usize = 3072;

// The largest number: more rows than any table has, for one of which nothing is known.
pub const LARGEST: usize = 18446744073709551615;
