// The sweep that lays the blocks of a level: those of a cell's darts, and the turn that finds the cell. A dart without spans has no blocks, so that a cell is looked for only from a dart that has some.
#![tactic(auto)]

mod upper;

ghost use Rattle.std.specs.Prelude.{◌≡◌, ℕ, ◌-◌, ◌<◌, ◌≤◌, false, ◌||◌, ◌==◌};
ghost use Rattle.paper.specs.Table.{map_of};
ghost use Rattle.orbit.specs.Sparse.{is_in};
ghost use Rattle.base.specs.Base.{base, Bases};
ghost use Rattle.visit.specs.Block.{Lays};
ghost use Rattle.visit.specs.Stead.{Known};
ghost use Rattle.sweep.specs.Level.{Spread, Done, Called, Celled, Turnable, TurnedTo, Sweepable};

use ends::gather::Gathered;
use visit::Level;

// The block of a dart, if it has spans.
fn lay_dart(
    op: &mut [i32],
    ol: &mut [u16],
    w: &[u16],
    v: &[u16],
    g: Gathered,
    links: &[u16],
    places: &[i32],
    spans: &[i32],
    l: Level,
    e: usize,
)
    requires known { Known links.now places.now spans.now l.m l.n w.now op.old ol.old }
    requires called { Called (map_of links.now places.now spans.now l.m l.n) l.m l.n e l.k l.h spans.now w.now v.now g.half g.ends op.old ol.old }
    ensures { Lays (map_of links.now places.now spans.now l.m l.n) e l.k
        op.old ol.old op.new ol.new }
{
    if visit::is_bare(w, l.n, l.h, e) {
        return;
    }
    visit::lay_block(op, ol, w, v, g, links, places, spans, l, e);
}

// The darts stand in the queue at the places from .. to, and the ends of their cell in a half of v.
fn lay_cell(
    op: &mut [i32],
    ol: &mut [u16],
    w: &[u16],
    v: &[u16],
    g: Gathered,
    links: &[u16],
    places: &[i32],
    spans: &[i32],
    l: Level,
    d: usize,
    from: usize,
    to: usize,
)
    requires known { Known links.now places.now spans.now l.m l.n w.now op.old ol.old }
    requires celled { Celled (map_of links.now places.now spans.now l.m l.n) l.m l.n l.k l.h d spans.now w.now v.now g.half g.ends from to op.old ol.old }
    ensures { Spread (map_of links.now places.now spans.now l.m l.n) l.n l.k l.h w.now
        (Done l.n w.now to d) op.new ol.new }
{
    for q in from..to {
        let e = kernel::get(w, l.n + q);
        lay_dart(op, ol, w, v, g, links, places, spans, l, e);
    }
}

// The cell of d is found, and the blocks of its darts laid. Where the queue ends then.
fn lay_found(
    op: &mut [i32],
    ol: &mut [u16],
    w: &mut [u16],
    v: &mut [u16],
    links: &[u16],
    places: &[i32],
    spans: &[i32],
    l: Level,
    d: usize,
    t: usize,
    total: usize,
) -> usize
    requires known { Known links.now places.now spans.now l.m l.n w.old op.old ol.old }
    requires turnable { Turnable (map_of links.now places.now spans.now l.m l.n) l.m l.n l.k l.h links.now w.old v.old op.old ol.old d t total }
    requires d_value { (base w.old l.n l.h d == base w.old l.n (1 - l.h) d || is_in l.n w.old t d) ≡ false }
    ensures { TurnedTo (map_of links.now places.now spans.now l.m l.n) l.m l.n l.k l.h links.now d
        w.new result op.new ol.new }
{
    let u = tally::turn::find_cell(links, w, l.m, l.n, l.k, d, t);
    // A cell has no more ends than the lift has darts.
    let g = ends::gather::gather(v, total, spans, w, l.n + t, l.n + u).unwrap();
    lay_cell(op, ol, w, v, g, links, places, spans, l, d, t, u);
    u
}

// Nothing is to be laid at d: it has no spans, or it is in a cell before.
fn is_laid(w: &[u16], n: usize, h: usize, d: usize, t: usize) -> bool
    requires bases { Bases w.now n }
    requires h_bound { (h ≤ 1) × ((d < n) × (t ≤ n)) }
    ensures { result ≡ (base w.now n h d == base w.now n (1 - h) d || is_in n w.now t d) }
{
    if visit::is_bare(w, n, h, d) {
        return true;
    }
    orbit::has(w, n, t, d)
}

// The sweep's turn at d. Where the queue ends then.
fn lay_turn(
    op: &mut [i32],
    ol: &mut [u16],
    w: &mut [u16],
    v: &mut [u16],
    links: &[u16],
    places: &[i32],
    spans: &[i32],
    l: Level,
    d: usize,
    t: usize,
    total: usize,
) -> usize
    requires known { Known links.now places.now spans.now l.m l.n w.old op.old ol.old }
    requires turnable { Turnable (map_of links.now places.now spans.now l.m l.n) l.m l.n l.k l.h links.now w.old v.old op.old ol.old d t total }
    ensures { TurnedTo (map_of links.now places.now spans.now l.m l.n) l.m l.n l.k l.h links.now d
        w.new result op.new ol.new }
{
    if is_laid(w, l.n, l.h, d, t) {
        return t;
    }
    lay_found(op, ol, w, v, links, places, spans, l, d, t, total)
}

// The blocks of a level below the upper two. Half h of the bases has their first rows.
fn lay_cells(
    op: &mut [i32],
    ol: &mut [u16],
    w: &mut [u16],
    v: &mut [u16],
    links: &[u16],
    places: &[i32],
    spans: &[i32],
    l: Level,
    total: usize,
)
    requires known { Known links.now places.now spans.now l.m l.n w.old op.old ol.old }
    requires sweepable { Sweepable (map_of links.now places.now spans.now l.m l.n) l.m l.n l.k l.h w.old v.old op.old ol.old total }
    requires k_lt_m { l.k < l.m }
    ensures { Spread (map_of links.now places.now spans.now l.m l.n) l.n l.k l.h w.new
        (λ (e : ℕ). e < l.n) op.new ol.new }
{
    let mut t = 0;
    for d in 0..l.n {
        t = lay_turn(op, ol, w, v, links, places, spans, l, d, t, total);
    }
}

// The blocks of level k, whichever it is: at the top and one below it they are told by rows, and else cell by cell.
pub fn lay_level(
    op: &mut [i32],
    ol: &mut [u16],
    w: &mut [u16],
    v: &mut [u16],
    links: &[u16],
    places: &[i32],
    spans: &[i32],
    l: Level,
    total: usize,
)
    requires known { Known links.now places.now spans.now l.m l.n w.old op.old ol.old }
    requires sweepable { Sweepable (map_of links.now places.now spans.now l.m l.n) l.m l.n l.k l.h w.old v.old op.old ol.old total }
    ensures { Spread (map_of links.now places.now spans.now l.m l.n) l.n l.k l.h w.new
        (λ (e : ℕ). e < l.n) op.new ol.new }
{
    if l.k + 1 < l.m {
        lay_cells(op, ol, w, v, links, places, spans, l, total);
        return;
    }
    upper::lay_upper(op, ol, w, links, places, spans, l);
}
