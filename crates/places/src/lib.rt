// The places of the lifted darts of a plan dart at a level: two rows for each piece, its foot and its head.
#![tactic(auto)]

ghost use Rattle.std.specs.Prelude.{◌≡◌, ◌+◌, ◌*◌, ◌<◌, ◌≤◌, length, slice_set};
ghost use Rattle.paper.specs.Width.{place_width, work_width};
ghost use Rattle.paper.specs.Table.{row_at};
ghost use Rattle.span.specs.Row.{RowIn};
ghost use Rattle.ends.specs.Key.{ends_at};
ghost use Rattle.walk.specs.Walk.{Walkable, stretch_at};
ghost use Rattle.places.specs.Write.{pieces_in, coord_of, put_place, put_pair, Wrote, Writable};

use ends::key;
use kernel::width;
use walk::next;
use walk::next::Stop;

// Coordinate a of row x: that of d below m, t at m, 0 above.
fn put_coord(op: &mut [i32], x: usize, places: &[i32], d: usize, m: usize, t: i32, a: usize)
    requires { (x * place_width + place_width ≤ length op.old) × ((d * place_width + place_width ≤ length places.now) × (a < place_width)) }
    ensures { op.new ≡ slice_set op.old (x * place_width + a) (coord_of places.now d m t a) }
{
    if a < m {
        let z = places[d * width::PLACES + a];
        op[x * width::PLACES + a] = z;
        return;
    }
    if a == m {
        op[x * width::PLACES + a] = t;
        return;
    }
    op[x * width::PLACES + a] = 0;
}

// Row x: the place of d, then t, then 0 to the row's end.
fn put_place(op: &mut [i32], x: usize, places: &[i32], d: usize, m: usize, t: i32)
    requires { (x * place_width + place_width ≤ length op.old) × (d * place_width + place_width ≤ length places.now) }
    ensures { op.new ≡ put_place places.now d m t x op.old }
{
    for a in 0..width::PLACES {
        put_coord(op, x, places, d, m, t, a);
    }
}

// Rows x and x + 1: foot and head.
pub fn put_pair(op: &mut [i32], x: usize, places: &[i32], d: usize, m: usize, foot: i32, head: i32)
    requires { ((x + 2) * place_width ≤ length op.old) × (d * place_width + place_width ≤ length places.now) }
    ensures { op.new ≡ put_pair places.now d m foot head x op.old }
{
    put_place(op, x, places, d, m, foot);
    put_place(op, x + 1, places, d, m, head);
}

// Rows x and x + 1: foot and head of the piece that starts at end i of half p.
fn put_piece(
    op: &mut [i32],
    x: usize,
    v: &[u16],
    p: usize,
    i: usize,
    places: &[i32],
    d: usize,
    m: usize,
)
    requires p_bound { (p ≤ 1) × ((i + 2) * work_width ≤ length v.now) }
    requires place_width_in_bounds { ((x + 2) * place_width ≤ length op.old) × (d * place_width + place_width ≤ length places.now) }
    ensures { op.new ≡ put_pair places.now d m (stretch_at v.now p i).lo (stretch_at v.now p i).hi x op.old }
{
    let foot = key::height(key::get_end(v, p, i));
    let head = key::height(key::get_end(v, p, i + 1));
    put_pair(op, x, places, d, m, foot, head);
}

// The places of the lifted darts of d, from row x on: for each piece of the n ends of half p that d's row covers, foot and head. How many pieces. A `while`: it goes from piece to piece.
pub fn write_places(
    op: &mut [i32],
    x: usize,
    v: &[u16],
    p: usize,
    n: usize,
    spans: &[i32],
    places: &[i32],
    d: usize,
    m: usize,
) -> usize
    requires { Walkable v.now p n spans.now d × Writable op.old x (pieces_in (row_at spans.now d) (ends_at v.now p n)) places.now d }
    ensures { Wrote places.now d m (pieces_in (row_at spans.now d) (ends_at v.now p n)) x op.old op.new result }
{
    let mut count: usize = 0;
    let mut stop = next::first_piece(v, p, n, spans, d);
    while stop.end < n {
        let Stop { end, span } = stop;
        put_piece(op, x + count * 2, v, p, end, places, d, m);
        count += 1;
        if next::goes_on(v, p, n, spans, d, end, span) {
            stop = Stop { end: end + 1, span };
            continue;
        }
        let all = span::row_length(spans, d);
        if all == span + 1 {
            return count;
        }
        let at = d * width::SPANS + 1 + (span + 1) * width::PER_SPAN;
        let found = next::descend(v, p, n, spans, d, all - (span + 1), at, end + 1);
        stop = Stop {
            end: found.end,
            span: all - found.left,
        };
    }
    count
}

// The same where the pieces are the spans of d's row, as at the top level they are.
pub fn write_spans(
    op: &mut [i32],
    x: usize,
    spans: &[i32],
    places: &[i32],
    d: usize,
    m: usize,
) -> usize
    requires row_in { RowIn spans.now d }
    requires writable { Writable op.old x (row_at spans.now d) places.now d }
    ensures { Wrote places.now d m (row_at spans.now d) x op.old op.new result }
{
    let c = span::row_length(spans, d);
    let at = d * width::SPANS + 1;
    for j in 0..c {
        let foot = kernel::at(spans, at + j * width::PER_SPAN);
        let head = kernel::at(spans, at + j * width::PER_SPAN + 1);
        put_pair(op, x + j * 2, places, d, m, foot, head);
    }
    c
}
