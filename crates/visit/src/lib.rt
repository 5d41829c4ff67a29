// The block of a dart at a level: it is laid, with its places, and linked once all blocks of the level are.
#![tactic(auto)]

ghost use Rattle.std.specs.Prelude.{◌≡◌, suc, ◌-◌, ◌<◌, ◌≤◌, ◌==◌};
ghost use Rattle.paper.specs.Table.{map_of};
ghost use Rattle.base.specs.Base.{base, Bases};
ghost use Rattle.visit.specs.Block.{Wired, Lays, Connected};
ghost use Rattle.visit.specs.Stead.{Known};
ghost use Rattle.visit.specs.Visit.{Layable, LayableBy, Wireable, Linkable};

use ends::gather::Gathered;
use kernel::width;

// A level that is written: the plan's dimension and darts, the level, and the half of the bases that has the first rows of its blocks.
#[derive(Clone, Copy)]
pub struct Level {
    pub m: usize,
    pub n: usize,
    pub k: usize,
    pub h: usize,
}

// Dart e has no spans, and so no blocks: then both halves of its bases are the same.
pub fn is_bare(w: &[u16], n: usize, h: usize, e: usize) -> bool
    requires bases { Bases w.now n }
    requires h_bound { (h ≤ 1) × (e < n) }
    ensures { result ≡ (base w.now n h e == base w.now n (1 - h) e) }
{
    base::base(w, n, h, e) == base::base(w, n, 1 - h, e)
}

// The links of e's block at level k, c pieces from row x on, and those of the block below it that lead up. Where that has as many pieces, they are the same: no end of a level is missing at the one below.
fn wire(
    ol: &mut [u16],
    op: &[i32],
    links: &[u16],
    places: &[i32],
    spans: &[i32],
    w: &[u16],
    l: Level,
    e: usize,
    x: usize,
    c: usize,
)
    requires known { Known links.now places.now spans.now l.m l.n w.now op.now ol.old }
    requires wireable { Wireable (map_of links.now places.now spans.now l.m l.n) l.m l.n e l.k l.h x c w.now op.now ol.old }
    ensures { Wired (map_of links.now places.now spans.now l.m l.n) e l.k ol.old ol.new }
{
    follow::fill(ol, links, w, l.m, l.n, l.k, l.h, e, x, c);
    over::match_touching(op, l.m, ol, l.k + 1, x, c);
    if l.k == 0 {
        return;
    }
    let y = base::base(w, l.n, 1 - l.h, e);
    let b = (x - y) / 2;
    if b == c {
        over::match_same(ol, l.k, x, c, y);
        return;
    }
    over::match_levels(op, l.m, ol, l.k, x, c, y, b);
}

// The block of e at level k is linked, whose first row tells how many pieces it has, and the first row of e's next block goes to the other half.
pub fn link_block(
    ol: &mut [u16],
    op: &[i32],
    links: &[u16],
    places: &[i32],
    spans: &[i32],
    w: &mut [u16],
    l: Level,
    e: usize,
)
    requires known { Known links.now places.now spans.now l.m l.n w.old op.now ol.old }
    requires linkable { Linkable (map_of links.now places.now spans.now l.m l.n) l.m l.n e l.k l.h w.old op.now ol.old }
    ensures { Connected (map_of links.now places.now spans.now l.m l.n) l.n e l.k l.h
        op.now ol.old w.old ol.new w.new }
{
    let x = base::base(w, l.n, l.h, e);
    let c = kernel::get(ol, x * width::LINKS);
    wire(ol, op, links, places, spans, w, l, e, x, c);
    base::put_base(w, l.n, 1 - l.h, e, x + 2 * c);
}

// The block of e at level k is laid: its places are written, and its first row tells how many pieces it has, until it is linked.
pub fn lay_block(
    op: &mut [i32],
    ol: &mut [u16],
    w: &[u16],
    v: &[u16],
    g: Gathered,
    links: &[u16],
    places: &[i32],
    spans: &[i32],
    l: Level,
    e: usize,
)
    requires known { Known links.now places.now spans.now l.m l.n w.now op.old ol.old }
    requires layable_by { LayableBy (map_of links.now places.now spans.now l.m l.n) l.m l.n e l.k l.h spans.now w.now v.now g.half g.ends }
    ensures { Lays (map_of links.now places.now spans.now l.m l.n) e l.k
        op.old ol.old op.new ol.new }
{
    let x = base::base(w, l.n, l.h, e);
    let c = places::write_places(op, x, v, g.half, g.ends, spans, places, e, l.m);
    kernel::put(ol, x * width::LINKS, c); // for `link_block`
}

// The same at the top level, where the pieces of e are the spans of its row.
pub fn lay_spans(
    op: &mut [i32],
    ol: &mut [u16],
    w: &[u16],
    links: &[u16],
    places: &[i32],
    spans: &[i32],
    l: Level,
    e: usize,
)
    requires known { Known links.now places.now spans.now l.m l.n w.now op.old ol.old }
    requires layable { Layable (map_of links.now places.now spans.now l.m l.n) l.m l.n e l.k l.h w.now }
    requires k_value { l.k ≡ l.m }
    ensures { Lays (map_of links.now places.now spans.now l.m l.n) e l.k
        op.old ol.old op.new ol.new }
{
    let x = base::base(w, l.n, l.h, e);
    let c = places::write_spans(op, x, spans, places, e, l.m);
    kernel::put(ol, x * width::LINKS, c);
}

// The same at the level below the top: there the pieces of e are the spans of its row, cut by the ends of its neighbour over the boundary.
pub fn lay_cuts(
    op: &mut [i32],
    ol: &mut [u16],
    w: &[u16],
    links: &[u16],
    places: &[i32],
    spans: &[i32],
    l: Level,
    e: usize,
)
    requires known { Known links.now places.now spans.now l.m l.n w.now op.old ol.old }
    requires layable { Layable (map_of links.now places.now spans.now l.m l.n) l.m l.n e l.k l.h w.now }
    requires k_value { suc l.k ≡ l.m }
    ensures { Lays (map_of links.now places.now spans.now l.m l.n) e l.k
        op.old ol.old op.new ol.new }
{
    let x = base::base(w, l.n, l.h, e);
    let f = kernel::get(links, e * width::LINKS + l.m);
    let c = beside::write_row(op, x, spans, places, e, f, l.m);
    kernel::put(ol, x * width::LINKS, c);
}
