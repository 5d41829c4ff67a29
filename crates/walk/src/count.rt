// The pieces of a row: the stretches between neighbours among the ends that a span of the row covers.
ghost use Rattle.std.specs.Prelude.{◌≡◌, length};
ghost use Rattle.paper.specs.Ends.{stretches, covered_by};
ghost use Rattle.paper.specs.Table.{row_at};
ghost use Rattle.ends.specs.Key.{ends_at};
ghost use Rattle.walk.specs.Walk.{Walkable};

use crate::next;
use crate::next::Stop;
use kernel::width;

// How many stretches between the n ends of half p the row of d covers. A `while`: it goes from piece to piece, over stretches that are passed.
pub fn count_pieces(v: &[u16], p: usize, n: usize, spans: &[i32], d: usize) -> usize
    requires { Walkable v.now p n spans.now d }
    ensures { result ≡ length (covered_by (row_at spans.now d) (stretches (ends_at v.now p n))) }
{
    let mut pieces: usize = 0;
    let mut stop = next::first_piece(v, p, n, spans, d);
    while stop.end < n {
        pieces += 1;
        let Stop { end, span } = stop;
        if next::goes_on(v, p, n, spans, d, end, span) {
            stop = Stop { end: end + 1, span };
            continue;
        }
        let all = span::row_length(spans, d);
        if all == span + 1 {
            return pieces;
        }
        let at = d * width::SPANS + 1 + (span + 1) * width::PER_SPAN;
        let found = next::descend(v, p, n, spans, d, all - (span + 1), at, end + 1);
        stop = Stop {
            end: found.end,
            span: all - found.left,
        };
    }
    pieces
}
