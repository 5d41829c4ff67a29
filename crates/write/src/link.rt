// The links of a level but those over the boundary, once all its blocks are laid: dart by dart, since a block's links lead to rows whose numbers the bases tell.
ghost use Rattle.std.specs.Prelude.{ℕ, ◌<◌, ◌≤◌};
ghost use Rattle.paper.specs.Table.{map_of};
ghost use Rattle.visit.specs.Block.{Laid, Connected};
ghost use Rattle.visit.specs.Stead.{Known};
ghost use Rattle.visit.specs.Visit.{Below};
ghost use Rattle.sweep.specs.Level.{Spread, Filed};

use visit::Level;

// The block of a dart, if it has spans.
fn link_dart(
    ol: &mut [u16],
    op: &[i32],
    links: &[u16],
    places: &[i32],
    spans: &[i32],
    w: &mut [u16],
    l: Level,
    d: usize,
)
    requires known { Known links.now places.now spans.now l.m l.n w.old op.now ol.old }
    requires below { Below (map_of links.now places.now spans.now l.m l.n) l.m l.n d l.k l.h w.old op.now ol.old }
    requires laid { Laid (map_of links.now places.now spans.now l.m l.n) op.now ol.old d l.k }
    ensures { Connected (map_of links.now places.now spans.now l.m l.n) l.n d l.k l.h
        op.now ol.old w.old ol.new w.new }
{
    if visit::is_bare(w, l.n, l.h, d) {
        return;
    }
    visit::link_block(ol, op, links, places, spans, w, l, d);
}

// Every dart's. Half h of the bases has the first rows of the blocks; the other half gets those of the next level.
pub fn link_level(
    ol: &mut [u16],
    op: &[i32],
    links: &[u16],
    places: &[i32],
    spans: &[i32],
    w: &mut [u16],
    l: Level,
)
    requires known { Known links.now places.now spans.now l.m l.n w.old op.now ol.old }
    requires k_le_m { (l.k ≤ l.m) × (l.h ≤ 1) }
    requires spread { Spread (map_of links.now places.now spans.now l.m l.n) l.n l.k l.h w.old (λ (e : ℕ). e < l.n) op.now ol.old }
    ensures { Filed (map_of links.now places.now spans.now l.m l.n) l.n l.k l.h w.new op.now ol.new }
{
    for d in 0..l.n {
        link_dart(ol, op, links, places, spans, w, l, d);
    }
}
