// The links of a level over the boundary, and all levels.
ghost use Rattle.std.specs.Prelude.{◌≡◌, ℕ, suc, ◌+◌, ◌-◌, ◌*◌, ◌/◌, ◌%◌, ◌<◌, ◌≤◌, length};
ghost use Rattle.paper.specs.Width.{work_width};
ghost use Rattle.paper.specs.Table.{map_of};
ghost use Rattle.paper.specs.Lift.{lifted_darts};
ghost use Rattle.number.specs.First.{first};
ghost use Rattle.base.specs.Base.{base, Bases};
ghost use Rattle.visit.specs.Stead.{Known};
ghost use Rattle.sweep.specs.Drawn.{Drawn, OverAt, Complete};
ghost use Rattle.sweep.specs.Level.{Past, Filed, Bounded};

use crate::link;
use kernel::width;
use visit::Level;

// How many pieces a block has: its rows end where the next block of the dart starts.
fn pieces_of(w: &[u16], n: usize, h: usize, d: usize) -> usize
    requires bases { Bases w.now n }
    requires h_bound { (h ≤ 1) × ((d < n) × (base w.now n h d ≤ base w.now n (1 - h) d)) }
    ensures { result ≡ (base w.now n (1 - h) d - base w.now n h d) / 2 }
{
    let x = base::base(w, n, h, d);
    let y = base::base(w, n, 1 - h, d);
    (y - x) / 2
}

// Axis m + 1 of the blocks of d and of its neighbour over the boundary, at level k, leads to equal ends in the other one.
// That is done once, for the higher of the two. A dart that is its own neighbour has its own rows there already.
fn over_dart(
    ol: &mut [u16],
    op: &[i32],
    links: &[u16],
    places: &[i32],
    spans: &[i32],
    w: &[u16],
    l: Level,
    d: usize,
)
    requires known { Known links.now places.now spans.now l.m l.n w.now op.now ol.old }
    requires bounded { Bounded (map_of links.now places.now spans.now l.m l.n) l.m l.n l.k l.h d w.now op.now ol.old }
    ensures { OverAt (map_of links.now places.now spans.now l.m l.n) d l.k ol.old ol.new }
{
    let e = kernel::get(links, d * width::LINKS + l.m);
    if d <= e {
        return;
    }
    let x = base::base(w, l.n, l.h, d);
    let y = base::base(w, l.n, l.h, e);
    let c = pieces_of(w, l.n, l.h, d);
    let b = pieces_of(w, l.n, l.h, e);
    over::match_alike(op, l.m, ol, l.m + 1, x, c, y, b);
}

// The same for a dart that may have no spans, and then has no block: nothing leads there, and its neighbour has its own rows already.
fn over_block(
    ol: &mut [u16],
    op: &[i32],
    links: &[u16],
    places: &[i32],
    spans: &[i32],
    w: &[u16],
    l: Level,
    d: usize,
)
    requires known { Known links.now places.now spans.now l.m l.n w.now op.now ol.old }
    requires bounded { Bounded (map_of links.now places.now spans.now l.m l.n) l.m l.n l.k l.h d w.now op.now ol.old }
    ensures { OverAt (map_of links.now places.now spans.now l.m l.n) d l.k ol.old ol.new }
{
    if visit::is_bare(w, l.n, l.h, d) {
        return;
    }
    over_dart(ol, op, links, places, spans, w, l, d);
}

// The same for every dart. At the top level there is nothing to do: axis m + 1 joins pieces that touch instead.
fn over_level(
    ol: &mut [u16],
    op: &[i32],
    links: &[u16],
    places: &[i32],
    spans: &[i32],
    w: &[u16],
    l: Level,
)
    requires known { Known links.now places.now spans.now l.m l.n w.now op.now ol.old }
    requires k_le_m { (l.k ≤ l.m) × (l.h ≤ 1) }
    requires filed { Filed (map_of links.now places.now spans.now l.m l.n) l.n l.k l.h w.now op.now ol.old }
    ensures { Drawn (map_of links.now places.now spans.now l.m l.n) (Past l.n (suc l.k)) (Past l.n (suc l.k)) op.now ol.new }
{
    if l.k == l.m {
        return;
    }
    for d in 0..l.n {
        over_block(ol, op, links, places, spans, w, l, d);
    }
}

// All levels: the whole lifted map, whose darts are as many as total. Half 0 of the bases has the number of each dart's first lifted dart, half 1 that past its last one;
// at the end half m mod 2 has the number of the first one at the top level.
pub fn write_all(
    op: &mut [i32],
    ol: &mut [u16],
    w: &mut [u16],
    v: &mut [u16],
    links: &[u16],
    places: &[i32],
    spans: &[i32],
    m: usize,
    n: usize,
    total: usize,
)
    requires known { Known links.now places.now spans.now m n w.old op.old ol.old }
    requires total_value { (total ≡ length (lifted_darts (map_of links.now places.now spans.now m n))) × (total * work_width ≤ length v.old) }
    requires by_index { (d : ℕ) → d < n → base w.old n 0 d ≡ first (map_of links.now places.now spans.now m n) d 0 }
    requires by_index_2 { (d : ℕ) → d < n → base w.old n 1 d ≡ first (map_of links.now places.now spans.now m n) d (suc m) }
    ensures complete { Complete (map_of links.now places.now spans.now m n) op.new ol.new }
    ensures by_index_3 { (d : ℕ) → d < n → base w.new n (m % 2) d ≡ first (map_of links.now places.now spans.now m n) d m }
{
    let mut h = 0;
    for k in 0..=m {
        let l = Level { m, n, k, h };
        sweep::lay_level(op, ol, w, v, links, places, spans, l, total);
        link::link_level(ol, op, links, places, spans, w, l);
        over_level(ol, op, links, places, spans, w, l);
        h = 1 - h;
    }
}
