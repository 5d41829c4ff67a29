// One command on the lent tables: each is lent the tables that it needs, and no more.
#![tactic(auto)]

mod told;

ghost use Rattle.std.specs.Prelude.{length};
ghost use Rattle.paper.specs.Table.{lent, lent_lifted};
ghost use Rattle.paper.specs.Step.{Maps, Room};
ghost use Rattle.step.specs.Standing.{Stands, Standing, Taken};

use command::reply_unreadable;
use edit::dart::dart;
use edit::new::new;
use edit::place::place;
use edit::unsew::unsew;
use paper::{Command, Read};
use respan::{clear, span};
use sew::sew;
use sides::adopt::adopt;
use sides::count::count;
use sides::raise::lift;
use sizes::{Sizes, Stepped};
use told::{kept, relifted, replanned};

// Takes the command that was read: what it answers and leaves is what document 01's step does to the two maps, whatever they are.
// room and lroom are the capacities of the two sides.
pub fn step(
    read: Read,
    sizes: Sizes,
    room: usize,
    lroom: usize,
    links: &mut [u16],
    places: &mut [i32],
    spans: &mut [i32],
    w: &mut [u16],
    ol: &mut [u16],
    op: &mut [i32],
    oo: &mut [u16],
    v: &mut [u16],
) -> Stepped
    requires { Standing sizes room lroom (lent links.old places.old spans.old (length w.old)) (lent_lifted ol.old op.old oo.old (length v.old)) }
    ensures { (R : Room) (s : Maps)
        → Stands R s sizes room lroom (lent links.old places.old spans.old (length w.old))
        (lent_lifted ol.old op.old oo.old (length v.old))
        → Taken R s read.command result (lent links.new places.new spans.new (length w.new))
        (lent_lifted ol.new op.new oo.new (length v.new)) }
{
    let command = read.command;
    let Sizes { m, n, lm, ln } = sizes;
    match command {
        Command::New { dimension } => {
            let answer = new(links, places, spans, m, n, dimension);
            replanned(answer, sizes, dimension as usize, 0)
        }
        Command::Dart => replanned(dart(links, m, n, room), sizes, m, n + 1),
        Command::Sew { axis, a, b } => kept(sew(links, places, spans, w, m, n, axis, a, b), sizes),
        Command::Unsew { axis, a } => kept(unsew(links, w, m, n, axis, a), sizes),
        Command::Place {
            dart,
            axis,
            coordinate,
        } => kept(place(links, places, w, m, n, dart, axis, coordinate), sizes),
        Command::Span { dart, lo, hi } => kept(span(links, spans, w, m, n, dart, lo, hi, 0), sizes),
        Command::SpanOf {
            dart,
            lo,
            hi,
            object,
        } => kept(span(links, spans, w, m, n, dart, lo, hi, object), sizes),
        Command::Clear { dart } => kept(clear(links, spans, w, m, n, dart), sizes),
        Command::Lift => {
            let answer = lift(links, places, spans, w, m, n, ol, op, oo, v, ln, lroom);
            relifted(answer, sizes)
        }
        Command::Adopt => {
            let answer = adopt(links, places, spans, n, ol, op, lm, ln, room);
            replanned(answer, sizes, lm, ln)
        }
        Command::Count { side, axis } => kept(count(side, axis, sizes, links, w, ol, v), sizes),
        Command::Unreadable { number } => kept(Err(reply_unreadable(number)), sizes),
    }
}
