// The run: commands from lent bytes, one after the other, on blank tables.
#![tactic(auto)]

ghost use Rattle.std.specs.Prelude.{ℕ, ◌<◌, List, [], length};
ghost use Rattle.paper.specs.Map.{blank};
ghost use Rattle.paper.specs.Table.{lent, lent_lifted};
ghost use Rattle.paper.specs.Step.{Room};
ghost use Rattle.paper.specs.Run.{Outcome};
ghost use Rattle.hold.specs.Hold.{HoldsPlan, HoldsLifted};
ghost use Rattle.run.specs.Going.{Going, Turning, Begun};
ghost use Rattle.run.specs.Ran.{lent_to_run, Ran};

use paper::Ended;
use progress::{Progress, reply};

// One command is read, taken and replied to.
fn turn(
    bytes: &[u8],
    p: Progress,
    room: usize,
    lroom: usize,
    links: &mut [u16],
    places: &mut [i32],
    spans: &mut [i32],
    w: &mut [u16],
    ol: &mut [u16],
    op: &mut [i32],
    oo: &mut [u16],
    v: &mut [u16],
    replies: &mut [u8],
) -> Progress
    requires { Turning bytes.now p room lroom (lent links.old places.old spans.old (length w.old)) (lent_lifted ol.old op.old oo.old (length v.old)) replies.old }
    ensures kept { (R : Room) (o : Outcome) (before : List ℕ)
        → Going bytes.now R o before p room lroom (lent links.old places.old spans.old (length w.old))
        (lent_lifted ol.old op.old oo.old (length v.old)) replies.old
        → Going bytes.now R o before result room lroom (lent links.new places.new spans.new (length w.new))
        (lent_lifted ol.new op.new oo.new (length v.new)) replies.new }
    ensures past { p.at < result.at }
{
    let sizes = p.sizes;
    let read = command::decode(bytes, p.at);
    let next = read.next;
    let command = read.command;
    let r = step::step(
        read, sizes, room, lroom, links, places, spans, w, ol, op, oo, v,
    );
    let answer = r.answer;
    reply::write(replies, p.taken, answer);
    progress::after(p, command, next, r)
}

// Commands are taken until no byte is left, no reply has room, or one can't be read: each tells where the next begins, so that no index is counted.
fn take_all(
    bytes: &[u8],
    room: usize,
    lroom: usize,
    links: &mut [u16],
    places: &mut [i32],
    spans: &mut [i32],
    w: &mut [u16],
    ol: &mut [u16],
    op: &mut [i32],
    oo: &mut [u16],
    v: &mut [u16],
    replies: &mut [u8],
) -> Ended
    requires { Begun room lroom (lent links.old places.old spans.old (length w.old)) (lent_lifted ol.old op.old oo.old (length v.old)) }
    ensures { Ran bytes.now (lent_to_run (lent links.old places.old spans.old (length w.old))
        (lent_lifted ol.old op.old oo.old (length v.old)) replies.old)
        result (lent links.new places.new spans.new (length w.new))
        (lent_lifted ol.new op.new oo.new (length v.new)) replies.new }
{
    let mut p = progress::start();
    while progress::goes_on(bytes.len(), replies.len(), p) {
        p = turn(
            bytes, p, room, lroom, links, places, spans, w, ol, op, oo, v, replies,
        );
    }
    progress::ended(bytes.len(), p)
}

// Both sides are blank: 0 darts and dimension 0, whatever the tables held. The longest table comes first, so that more of the others is still at hand to the processor then.
fn blank(
    links: &mut [u16],
    places: &mut [i32],
    spans: &mut [i32],
    ol: &mut [u16],
    op: &mut [i32],
    oo: &mut [u16],
)
    ensures holds_plan { HoldsPlan blank 0 0 links.new places.new spans.new }
    ensures by_index { (v : ℕ) → HoldsLifted blank [] 0 0 (lent_lifted ol.new op.new oo.new v) }
{
    kernel::blank(spans, 0);
    kernel::blank(links, 0);
    kernel::blank(places, 0);
    kernel::blank(ol, 0);
    kernel::blank(op, 0);
    kernel::blank(oo, 0);
}

// Runs the commands that stand in the bytes: what it answers and leaves is document 01's run on paper over the same bytes, in the room of the lent tables.
pub fn run(
    bytes: &[u8],
    links: &mut [u16],
    places: &mut [i32],
    spans: &mut [i32],
    w: &mut [u16],
    ol: &mut [u16],
    op: &mut [i32],
    oo: &mut [u16],
    v: &mut [u16],
    replies: &mut [u8],
) -> Ended
    ensures { Ran bytes.now (lent_to_run (lent links.old places.old spans.old (length w.old))
        (lent_lifted ol.old op.old oo.old (length v.old)) replies.old)
        result (lent links.new places.new spans.new (length w.new))
        (lent_lifted ol.new op.new oo.new (length v.new)) replies.new }
{
    let room = table::capacity::plan(links.len(), places.len(), spans.len(), w.len());
    let lroom = table::capacity::lifted(ol.len(), op.len(), oo.len(), v.len());
    blank(links, places, spans, ol, op, oo);
    take_all(
        bytes, room, lroom, links, places, spans, w, ol, op, oo, v, replies,
    )
}
