// The text that `liftrun` prints, made in lent memory from what a run left.
#![tactic(auto)]

mod text;

ghost use Rattle.std.specs.Prelude.{◌≡◌, ◌+◌, ◌*◌, ◌<◌, ◌≤◌, [], ◌∷◌, length};
ghost use Rattle.paper.specs.Width.{reply_width};
ghost use Rattle.paper.specs.Below.{onto};
ghost use Rattle.paper.specs.Print.{long, end, line_text, text};
ghost use Rattle.print.specs.Laid.{Lays};
ghost use Rattle.print.specs.Lines.{reply_at, replies_of, lines_of, end_word, reply_line, end_line, long_line, room_for};

use kernel::width;
use paper::Ended;
use text::Text;

// A line for each reply, then `end` with the run's four numbers. How many bytes that takes.
pub fn print(replies: &[u8], ended: Ended, out: &mut [u8]) -> usize
    requires { (reply_width * ended.taken ≤ length replies.now) × (room_for ended.taken ≤ length out.old) }
    ensures told { result ≡ length (text (lines_of replies.now ended)) }
    ensures memory { out.new ≡ onto (text (lines_of replies.now ended)) out.old }
    ensures within { result ≤ room_for ended.taken }
{
    let mut text = Text {
        memory: out,
        len: 0,
    };
    put_replies(replies, ended.taken, &mut text);
    put_end(ended, &mut text);
    text.len
}

// The lines of the first replies.
fn put_replies(replies: &[u8], taken: usize, out: &mut Text)
    requires fits { (reply_width * taken ≤ length replies.now) × (reply_line * taken ≤ length out.old.memory.now) }
    requires begins { out.old.len ≡ 0 }
    ensures same_reference { out.new.memory.ghost_name ≡ out.old.memory.ghost_name }
    ensures kept { length out.new.memory.now ≡ length out.old.memory.now }
    ensures within { out.new.len ≤ reply_line * taken }
    ensures lays { Lays 0 (text (replies_of replies.now taken)) out.old.memory.now out.new.len out.new.memory.now }
{
    for k in 0..taken {
        put_reply(replies, k, out);
    }
}

// The line of a reply.
#[tactic(auto, using(crate::proofs::Room::byte_room, crate::proofs::Room::word_room))]
fn put_reply(replies: &[u8], k: usize, out: &mut Text)
    requires { (reply_width * k + reply_width ≤ length replies.now) × (out.old.len + reply_line ≤ length out.old.memory.now) }
    ensures same_reference { out.new.memory.ghost_name ≡ out.old.memory.ghost_name }
    ensures kept { length out.new.memory.now ≡ length out.old.memory.now }
    ensures within { out.new.len ≤ out.old.len + reply_line }
    ensures lays { Lays out.old.len (line_text (reply_at replies.now k)) out.old.memory.now out.new.len out.new.memory.now }
{
    let at = width::REPLY * k;
    out.number(usize::from(replies[at]));
    out.spaced(usize::from(kernel::word_at(replies, at + 1)));
    out.push(b"\n");
}

// The line of a run's four numbers.
#[tactic(auto, using(crate::proofs::Room::byte_room, crate::proofs::Room::size_room))]
fn put_end(ended: Ended, out: &mut Text)
    requires { out.old.len + end_line ≤ length out.old.memory.now }
    ensures same_reference { out.new.memory.ghost_name ≡ out.old.memory.ghost_name }
    ensures kept { length out.new.memory.now ≡ length out.old.memory.now }
    ensures within { out.new.len ≤ out.old.len + end_line }
    ensures lays { Lays out.old.len (line_text (end ended.number ended.taken ended.accepted ended.refused)) out.old.memory.now out.new.len out.new.memory.now }
{
    out.push(b"end");
    out.spaced(usize::from(ended.number));
    out.spaced(ended.taken);
    out.spaced(ended.accepted);
    out.spaced(ended.refused);
    out.push(b"\n");
}

// The one line for an input that is too long.
pub fn long(out: &mut [u8]) -> usize
    requires { long_line ≤ length out.old }
    ensures told { result ≡ length (text (long ∷ [])) }
    ensures memory { out.new ≡ onto (text (long ∷ [])) out.old }
    ensures within { result ≤ long_line }
{
    let mut text = Text {
        memory: out,
        len: 0,
    };
    text.push(b"long\n");
    text.len
}
