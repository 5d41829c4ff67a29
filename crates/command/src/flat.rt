// A command as five numbers, for callers outside Rattle, who have no such enum.
ghost use Rattle.std.specs.Prelude.{◌≡◌};
ghost use Rattle.paper.specs.Command.{read_at};
ghost use Rattle.command.specs.Flat.{flat_of, noted};

use paper::Command;

// How many there are: the command byte and four operands, which SPAN of an object uses all.
const NUMBERS: usize = 5;

// The command byte, or 0 for an unreadable command with its number behind it. The operands stand in document 01's order, 0 where there is none.
#[tactic(auto, unfolding(crate::specs::Flat::flat_of))]
fn flatten(command: Command) -> [i32; NUMBERS]
    ensures { result ≡ flat_of command }
{
    match command {
        Command::New { dimension } => [0x10, i32::from(dimension), 0, 0, 0],
        Command::Dart => [0x11, 0, 0, 0, 0],
        Command::Sew { axis, a, b } => [0x12, i32::from(axis), i32::from(a), i32::from(b), 0],
        Command::Unsew { axis, a } => [0x13, i32::from(axis), i32::from(a), 0, 0],
        Command::Place {
            dart,
            axis,
            coordinate,
        } => [0x14, i32::from(dart), i32::from(axis), coordinate, 0],
        Command::Span { dart, lo, hi } => [0x15, i32::from(dart), lo, hi, 0],
        Command::Clear { dart } => [0x16, i32::from(dart), 0, 0, 0],
        Command::Lift => [0x17, 0, 0, 0, 0],
        Command::Adopt => [0x18, 0, 0, 0, 0],
        Command::Count { side, axis } => [0x19, i32::from(side), i32::from(axis), 0, 0],
        Command::SpanOf {
            dart,
            lo,
            hi,
            object,
        } => [0x1A, i32::from(dart), lo, hi, i32::from(object)],
        Command::Unreadable { number } => [0, i32::from(number), 0, 0, 0],
    }
}

// Reads the command at a place and writes its numbers to the start of lent memory, which stays whole where it has no room for five.
// The result is the place of the byte after the command.
pub fn decode_into(bytes: &[u8], at: usize, out: &mut [i32]) -> usize
    ensures value { result ≡ (read_at bytes.now at).next }
    ensures out_after { out.new ≡ noted (flat_of (read_at bytes.now at).command) out.old }
{
    let read = crate::decode(bytes, at);
    let numbers = flatten(read.command);
    if let Some(start) = out.first_chunk_mut() {
        *start = numbers;
    }
    read.next
}
