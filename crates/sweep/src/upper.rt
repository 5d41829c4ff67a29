// The two upper levels, the top one and that below it, dart by dart. No cell is looked for: the pieces of a dart are told by its row, below the top by that of its neighbour over the boundary too.
ghost use Rattle.std.specs.Prelude.{ℕ, suc, ◌<◌, ◌≤◌};
ghost use Rattle.paper.specs.Table.{map_of};
ghost use Rattle.visit.specs.Block.{Lays};
ghost use Rattle.visit.specs.Stead.{Known};
ghost use Rattle.sweep.specs.Level.{Reached, Spread};

use visit::Level;

// The block of a dart at an upper level, if it has spans.
fn lay_own(
    op: &mut [i32],
    ol: &mut [u16],
    w: &[u16],
    links: &[u16],
    places: &[i32],
    spans: &[i32],
    l: Level,
    d: usize,
)
    requires known { Known links.now places.now spans.now l.m l.n w.now op.old ol.old }
    requires reached { Reached (map_of links.now places.now spans.now l.m l.n) l.n l.k l.h w.now op.old ol.old }
    requires d_lt_n { (d < l.n) × ((l.k ≤ l.m) × ((l.m ≤ suc l.k) × (l.h ≤ 1))) }
    ensures { Lays (map_of links.now places.now spans.now l.m l.n) d l.k
        op.old ol.old op.new ol.new }
{
    if visit::is_bare(w, l.n, l.h, d) {
        return;
    }
    if l.k == l.m {
        visit::lay_spans(op, ol, w, links, places, spans, l, d);
        return;
    }
    visit::lay_cuts(op, ol, w, links, places, spans, l, d);
}

// The blocks of an upper level.
pub fn lay_upper(
    op: &mut [i32],
    ol: &mut [u16],
    w: &[u16],
    links: &[u16],
    places: &[i32],
    spans: &[i32],
    l: Level,
)
    requires known { Known links.now places.now spans.now l.m l.n w.now op.old ol.old }
    requires reached { Reached (map_of links.now places.now spans.now l.m l.n) l.n l.k l.h w.now op.old ol.old }
    requires k_le_m { (l.k ≤ l.m) × ((l.m ≤ suc l.k) × (l.h ≤ 1)) }
    ensures { Spread (map_of links.now places.now spans.now l.m l.n) l.n l.k l.h w.now
        (λ (e : ℕ). e < l.n) op.new ol.new }
{
    for d in 0..l.n {
        lay_own(op, ol, w, links, places, spans, l, d);
    }
}
