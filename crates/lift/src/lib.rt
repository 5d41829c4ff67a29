// The lift: of tables that are known to hold a valid plan, and the call on raw tables.
#![tactic(auto)]

ghost use Rattle.std.specs.Prelude.{◌≡◌, ℕ, suc, ◌*◌, ◌%◌, ◌<◌, ◌≤◌, length};
ghost use Rattle.paper.specs.Width.{work_width, dim_limit};
ghost use Rattle.paper.specs.Refusal.{judged_of};
ghost use Rattle.paper.specs.Table.{lent, lent_lifted, lifted_lengths, map_of, lifted_capacity};
ghost use Rattle.paper.specs.Lift.{lifted_darts, lift};
ghost use Rattle.paper.specs.Call.{held, lift_call, lift_leaves};
ghost use Rattle.number.specs.First.{first};
ghost use Rattle.base.specs.Base.{base};
ghost use Rattle.kernel.specs.Room.{or_past, InRoom};
ghost use Rattle.visit.specs.Stead.{Known};
ghost use Rattle.lift.specs.Lifted.{links_put, places_put, Liftable, Raised, Lifted};
ghost use Rattle.lift.specs.Holding.{LeavesLift};

use kernel::{tail, width};
use paper::refusal::{Refusal, Refused};

// The rows of the lift, as many as total, in place of the first ones of both tables. No more of a table is lent to the write, so that what stands past them stays.
fn write_rows(
    op: &mut [i32],
    ol: &mut [u16],
    w: &mut [u16],
    v: &mut [u16],
    links: &[u16],
    places: &[i32],
    spans: &[i32],
    m: usize,
    n: usize,
    total: usize,
)
    requires known { Known links.now places.now spans.now m n w.old op.old ol.old }
    requires total_value { (total ≡ length (lifted_darts (map_of links.now places.now spans.now m n))) × (total * work_width ≤ length v.old) }
    requires by_index { (d : ℕ) → d < n → base w.old n 0 d ≡ first (map_of links.now places.now spans.now m n) d 0 }
    requires by_index_2 { (d : ℕ) → d < n → base w.old n 1 d ≡ first (map_of links.now places.now spans.now m n) d (suc m) }
    ensures ol_after { (ol.new ≡ links_put (lift (map_of links.now places.now spans.now m n)) ol.old)
        × (op.new ≡ places_put (lift (map_of links.now places.now spans.now m n)) op.old) }
    ensures by_index_3 { (d : ℕ) → d < n → base w.new n (m % 2) d ≡ first (map_of links.now places.now spans.now m n) d m }
{
    let a = total * width::LINKS;
    let b = total * width::PLACES;
    write::level::write_all(
        &mut op[..b],
        &mut ol[..a],
        w,
        v,
        links,
        places,
        spans,
        m,
        n,
        total,
    );
}

// How many darts the lift has, whose rows are written then and nothing else; or None where it has more than room, and nothing is written.
// First every dart's pieces are counted, so nothing is written before it is known to fit. What each lifted dart carries is told by its height, and comes last.
fn lift_rows(
    links: &[u16],
    places: &[i32],
    spans: &[i32],
    w: &mut [u16],
    m: usize,
    n: usize,
    ol: &mut [u16],
    op: &mut [i32],
    oo: &mut [u16],
    v: &mut [u16],
    room: usize,
) -> Option<usize>
    requires liftable { Liftable (lent links.now places.now spans.now (length w.old)) m n (lent_lifted ol.old op.old oo.old (length v.old)) room }
    requires m_nonzero { (0 < m) × (m < dim_limit) }
    ensures { Raised (held (lent links.now places.now spans.now (length w.old)) m n) room
        (lent_lifted ol.old op.old oo.old (length v.old)) (or_past room result) (lent_lifted ol.new op.new oo.new (length v.new)) × InRoom room result }
{
    let total = tally::level::count_all(links, spans, w, v, m, n, room)?;
    base::bases(w, n);
    write_rows(op, ol, w, v, links, places, spans, m, n, total);
    carry::carry(oo, spans, op, w, m, n);
    Some(total)
}

// The lifted side becomes the lift of the plan, if it has room: the command and the call both come to this. Its tables had rows in use up to row old;
// what they had behind the lift becomes 0, and behind row old there is 0 already: nothing is to be cleared where the lift reaches as far.
// The result is the number of lifted darts; or None where there are more than room, and nothing is written.
pub fn lift_side(
    links: &[u16],
    places: &[i32],
    spans: &[i32],
    w: &mut [u16],
    m: usize,
    n: usize,
    ol: &mut [u16],
    op: &mut [i32],
    oo: &mut [u16],
    v: &mut [u16],
    old: usize,
    room: usize,
) -> Option<usize>
    requires liftable { Liftable (lent links.now places.now spans.now (length w.old)) m n (lent_lifted ol.old op.old oo.old (length v.old)) room }
    requires m_nonzero { (0 < m) × (m < dim_limit) }
    ensures { Lifted (held (lent links.now places.now spans.now (length w.old)) m n) room old
        (lent_lifted ol.old op.old oo.old (length v.old)) (or_past room result) (lent_lifted ol.new op.new oo.new (length v.new)) × InRoom room result }
{
    let total = lift_rows(links, places, spans, w, m, n, ol, op, oo, v, room)?;
    if old <= total {
        return Some(total);
    }
    tail::clear(ol, width::LINKS, total, old, 0);
    tail::clear(op, width::PLACES, total, old, 0);
    tail::clear(oo, width::OBJECTS, total, old, 0);
    Some(total)
}

// The lift call, on raw tables: 22 for a plan of the top dimension, then the check, then 20. The lifted side has links ol, places op, objects oo and work v.
pub fn lift(
    links: &[u16],
    places: &[i32],
    spans: &[i32],
    work: &mut [u16],
    dimension: u8,
    count: usize,
    ol: &mut [u16],
    op: &mut [i32],
    oo: &mut [u16],
    v: &mut [u16],
) -> Result<u16, Refused>
    ensures told { judged_of result ≡ lift_call (lent links.now places.now spans.now (length work.old)) dimension count
        (lifted_capacity (lifted_lengths (lent_lifted ol.old op.old oo.old (length v.old)))) }
    ensures tables { lent_lifted ol.new op.new oo.new (length v.new)
        ≡ lift_leaves (lent links.now places.now spans.now (length work.old)) dimension count
        (lifted_capacity (lifted_lengths (lent_lifted ol.old op.old oo.old (length v.old))))
        (lent_lifted ol.old op.old oo.old (length v.old)) }
    ensures left { LeavesLift (lent links.now places.now spans.now (length work.old)) dimension count
        (judged_of result).number (judged_of result).value (lent_lifted ol.new op.new oo.new (length v.new)) }
{
    if dimension == width::DIMENSION {
        return Err(Refused::from(Refusal::TopDimension));
    }
    checker::check(links, places, spans, work, dimension, count)?;
    let room = table::capacity::lifted(ol.len(), op.len(), oo.len(), v.len());
    let m = dimension as usize;
    let raised = lift_side(
        links,
        places,
        spans,
        work,
        m,
        count,
        ol,
        op,
        oo,
        v,
        width::LARGEST,
        room,
    );
    let Some(darts) = raised else {
        return Err(Refused::from(Refusal::TooLarge));
    };
    Ok(darts as u16)
}
