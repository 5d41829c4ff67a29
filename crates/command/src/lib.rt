// Reads the command that stands at a place of the lent bytes: how many bytes of operands it has, and then the operands, which start at p.
#![tactic(auto)]

pub mod flat;

ghost use Rattle.std.specs.Prelude.{◌≡◌, ◌+◌, ◌≤◌, length, IfSome};
ghost use Rattle.paper.specs.Command.{unreadable, read_after, read_at};
ghost use Rattle.paper.specs.Refusal.{number, answer_of};
ghost use Rattle.paper.specs.Step.{Maps, Room, reply};
ghost use Rattle.paper.specs.declared.Command.TheVariants.{Unreadable};
ghost use Rattle.command.specs.Operands.{operand_width, command_of};

use paper::refusal::Refusal;
use paper::{Command, Read};

// The command at a place, with the place of the byte after it.
pub fn decode(bytes: &[u8], at: usize) -> Read
    ensures { result ≡ read_at bytes.now at }
{
    if bytes.len() <= at {
        return unreadable(bytes, Refusal::CutShort);
    }
    read_after(bytes, bytes[at], at + 1)
}

// The command of a command byte, unless there is none or its operands are cut short.
fn read_after(bytes: &[u8], op: u8, p: usize) -> Read
    requires { p ≤ length bytes.now }
    ensures { result ≡ read_after bytes.now op p }
{
    let Some(width) = operand_width(op) else {
        return unreadable(bytes, Refusal::UnknownCommand);
    };
    // The place after the operands is compared, not their width with what is left: a width of 0 would pass that test unasked, and the compiler would make jumps of the table.
    let next = p + width;
    if bytes.len() < next {
        return unreadable(bytes, Refusal::CutShort);
    }
    let command = command_of(bytes, op, p);
    Read { command, next }
}

// What is told of an unreadable command. Its place is the end of the bytes, since nothing is read after it.
fn unreadable(bytes: &[u8], refusal: Refusal) -> Read
    ensures { result ≡ unreadable bytes.now (number refusal) }
{
    let number = refusal.number();
    Read {
        command: Command::Unreadable { number },
        next: bytes.len(),
    }
}

// The reply to an unreadable command: 1 for an unknown command byte; any other was cut short.
pub fn reply_unreadable(number: u8) -> Refusal
    ensures { (R : Room) (s : Maps) → answer_of (Err result) ≡ reply R s (Unreadable number) }
{
    if number == Refusal::UnknownCommand.number() {
        return Refusal::UnknownCommand;
    }
    Refusal::CutShort
}

// How many bytes of operands a command has, where the byte is a command's.
#[tactic(auto, unfolding(crate::specs::Operands::operand_width))]
fn operand_width(op: u8) -> Option<usize>
    ensures { result ≡ operand_width op }
{
    match op {
        0x10 => Some(1),
        0x11 => Some(0),
        0x12 => Some(5),
        0x13 => Some(3),
        0x14 => Some(7),
        0x15 => Some(10),
        0x16 => Some(2),
        0x17 => Some(0),
        0x18 => Some(0),
        0x19 => Some(2),
        0x1A => Some(12),
        _ => None,
    }
}

// The command, with its operands.
#[tactic(auto, unfolding(crate::specs::Operands::operand_width))]
fn command_of(bytes: &[u8], op: u8, p: usize) -> Command
    requires { IfSome (operand_width op) (λ width. p + width ≤ length bytes.now) }
    ensures { result ≡ command_of bytes.now op p }
{
    match op {
        0x10 => new(bytes, p),
        0x11 => Command::Dart,
        0x12 => sew(bytes, p),
        0x13 => unsew(bytes, p),
        0x14 => place(bytes, p),
        0x15 => span(bytes, p),
        0x16 => clear(bytes, p),
        0x17 => Command::Lift,
        0x18 => Command::Adopt,
        0x19 => count(bytes, p),
        0x1A => span_of(bytes, p),
        _ => Command::Unreadable {
            number: Refusal::UnknownCommand.number(),
        },
    }
}

// NEW: a dimension.
fn new(bytes: &[u8], p: usize) -> Command
    requires { p + 1 ≤ length bytes.now }
    ensures { result ≡ command_of bytes.now 0x10 p }
{
    let dimension = bytes[p];
    Command::New { dimension }
}

// SEW: an axis and two darts.
fn sew(bytes: &[u8], p: usize) -> Command
    requires { p + 5 ≤ length bytes.now }
    ensures { result ≡ command_of bytes.now 0x12 p }
{
    let axis = bytes[p];
    let a = kernel::word_at(bytes, p + 1);
    let b = kernel::word_at(bytes, p + 3);
    Command::Sew { axis, a, b }
}

// UNSEW: an axis and a dart.
fn unsew(bytes: &[u8], p: usize) -> Command
    requires { p + 3 ≤ length bytes.now }
    ensures { result ≡ command_of bytes.now 0x13 p }
{
    let axis = bytes[p];
    let a = kernel::word_at(bytes, p + 1);
    Command::Unsew { axis, a }
}

// PLACE: a dart, an axis and a coordinate.
fn place(bytes: &[u8], p: usize) -> Command
    requires { p + 7 ≤ length bytes.now }
    ensures { result ≡ command_of bytes.now 0x14 p }
{
    let dart = kernel::word_at(bytes, p);
    let axis = bytes[p + 2];
    let coordinate = kernel::signed_at(bytes, p + 3);
    Command::Place {
        dart,
        axis,
        coordinate,
    }
}

// SPAN: a dart and the two ends.
fn span(bytes: &[u8], p: usize) -> Command
    requires { p + 10 ≤ length bytes.now }
    ensures { result ≡ command_of bytes.now 0x15 p }
{
    let dart = kernel::word_at(bytes, p);
    let lo = kernel::signed_at(bytes, p + 2);
    let hi = kernel::signed_at(bytes, p + 6);
    Command::Span { dart, lo, hi }
}

// CLEAR: a dart.
fn clear(bytes: &[u8], p: usize) -> Command
    requires { p + 2 ≤ length bytes.now }
    ensures { result ≡ command_of bytes.now 0x16 p }
{
    let dart = kernel::word_at(bytes, p);
    Command::Clear { dart }
}

// COUNT: a side and an axis.
fn count(bytes: &[u8], p: usize) -> Command
    requires { p + 2 ≤ length bytes.now }
    ensures { result ≡ command_of bytes.now 0x19 p }
{
    let side = bytes[p];
    let axis = bytes[p + 1];
    Command::Count { side, axis }
}

// SPAN of an object: a dart, the two ends and the object.
fn span_of(bytes: &[u8], p: usize) -> Command
    requires { p + 12 ≤ length bytes.now }
    ensures { result ≡ command_of bytes.now 0x1A p }
{
    let dart = kernel::word_at(bytes, p);
    let lo = kernel::signed_at(bytes, p + 2);
    let hi = kernel::signed_at(bytes, p + 6);
    let object = kernel::word_at(bytes, p + 10);
    Command::SpanOf {
        dart,
        lo,
        hi,
        object,
    }
}
