// `liftrun` but for its input and output: from the bytes that it reads to the bytes that it writes, in lent memory.
#![tactic(auto)]

ghost use Rattle.std.specs.Prelude.{◌≡◌, ◌≤◌, length};
ghost use Rattle.paper.specs.Width.{input_limit};
ghost use Rattle.paper.specs.Below.{onto};
ghost use Rattle.paper.specs.Print.{liftrun, text};
ghost use Rattle.program.specs.Printed.{text_room, printed};

use kernel::width;

// The most decimal digits of a reply's number, of its value, and of a count.
const BYTE_DIGITS: usize = 3;

const WORD_DIGITS: usize = 5;

const SIZE_DIGITS: usize = 20;

// The most bytes in the line of a reply: two numbers, a blank between them and a newline.
const REPLY_LINE: usize = BYTE_DIGITS + 1 + WORD_DIGITS + 1;

// The most bytes in the last line: `end`, four numbers with a blank before each, and a newline.
const END_LINE: usize = 3 + (1 + BYTE_DIGITS) + 3 * (1 + SIZE_DIGITS) + 1;

// Bytes that are enough for the text of any input.
pub const TEXT_ROOM: usize = REPLY_LINE * (width::REPLY_ROOM / width::REPLY) + END_LINE;

// The text for an input goes to the start of out, whose other bytes stay, and the result is its length. Where out is too short for the
// longest text nothing is written.
pub fn text(bytes: &[u8], out: &mut [u8]) -> usize
    ensures told { result ≡ length (printed bytes.now out.old) }
    ensures memory { out.new ≡ onto (printed bytes.now out.old) out.old }
    ensures within { result ≤ text_room }
{
    if out.len() < TEXT_ROOM {
        return 0;
    }
    if width::INPUT_LIMIT < bytes.len() {
        return print::long(out);
    }
    run_text(bytes, out)
}

// The same for an input that is run: in tables of its own, with the capacities of `liftrun`.
fn run_text(bytes: &[u8], out: &mut [u8]) -> usize
    requires { (length bytes.now ≤ input_limit) × (text_room ≤ length out.old) }
    ensures told { result ≡ length (text (liftrun bytes.now)) }
    ensures memory { out.new ≡ onto (text (liftrun bytes.now)) out.old }
    ensures within { result ≤ text_room }
{
    let mut links = [0u16; width::PLAN_ROOM * width::LINKS];
    let mut places = [0i32; width::PLAN_ROOM * width::PLACES];
    let mut spans = [0i32; width::PLAN_ROOM * width::SPANS];
    let mut w = [0u16; width::PLAN_ROOM * width::WORK];
    let mut ol = [0u16; width::LIFTED_ROOM * width::LINKS];
    let mut op = [0i32; width::LIFTED_ROOM * width::PLACES];
    let mut oo = [0u16; width::LIFTED_ROOM * width::OBJECTS];
    let mut v = [0u16; width::LIFTED_ROOM * width::WORK];
    let mut replies = [0u8; width::REPLY_ROOM];
    let ended = run::run(
        bytes,
        &mut links,
        &mut places,
        &mut spans,
        &mut w,
        &mut ol,
        &mut op,
        &mut oo,
        &mut v,
        &mut replies,
    );
    print::print(&replies, ended, out)
}
