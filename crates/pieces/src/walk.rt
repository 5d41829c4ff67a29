// The ends of a cell are visited upwards, each found from the rows of its darts, so that no memory is needed for them.
ghost use Rattle.std.specs.Prelude.{◌≡◌, ◌+◌, ◌*◌, ◌/◌, ◌<◌, ◌≤◌, true, length, if◌then◌else◌, nat_lt, slice_get, slice_set};
ghost use Rattle.paper.specs.Width.{pair_width, dart_limit};
ghost use Rattle.paper.specs.Below.{onto};
ghost use Rattle.paper.specs.Span.{ordered, covered, ends_of};
ghost use Rattle.paper.specs.Table.{row_at};
ghost use Rattle.theory.specs.Walk.{pieces_of};
ghost use Rattle.span.specs.Row.{RowIn};
ghost use Rattle.pieces.specs.Listed.{spans_of, RowsIn, next_above, Lowest};

use kernel::width;

// The first end above t in the row of d. The ends of a row ascend, so that it is the nearest.
fn first_above(spans: &[i32], d: usize, t: i32) -> Option<i32>
    requires { RowIn spans.now d × (ordered (row_at spans.now d) ≡ true) }
    ensures { result ≡ next_above t (ends_of (row_at spans.now d)) }
{
    (0..span::end_count(spans, d))
        .map(|x| span::end_at(spans, d, x))
        .find(|z| t < *z)
}

// The next end above t in the rows of some darts.
fn next_end(spans: &[i32], darts: &[u16], t: i32) -> Option<i32>
    requires { RowsIn spans.now darts.now }
    ensures { result ≡ next_above t (ends_of (spans_of spans.now darts.now)) }
{
    darts
        .iter()
        .filter_map(|d| first_above(spans, usize::from(*d), t))
        .min()
}

// Some span of the darts covers the side above t.
fn is_covered_above(spans: &[i32], darts: &[u16], t: i32) -> bool
    requires { RowsIn spans.now darts.now }
    ensures { result ≡ covered (spans_of spans.now darts.now) t true }
{
    darts
        .iter()
        .any(|d| span::is_covered(spans, usize::from(*d), t, true))
}

// The first end in the row of d: no other is below it.
fn first_end(spans: &[i32], d: usize) -> Option<i32>
    requires { RowIn spans.now d }
    ensures { result ≡ slice_get (ends_of (row_at spans.now d)) 0 }
{
    if span::end_count(spans, d) == 0 {
        return None;
    }
    Some(span::end_at(spans, d, 0))
}

// The lowest end in the rows of some darts: the walk begins there.
fn lowest_end(spans: &[i32], darts: &[u16]) -> Option<i32>
    requires { RowsIn spans.now darts.now }
    ensures { Lowest (ends_of (spans_of spans.now darts.now)) result }
{
    darts
        .iter()
        .filter_map(|d| first_end(spans, usize::from(*d)))
        .min()
}

// The pair of ends of piece c, where there is room for it.
fn put_pair(memory: &mut [i32], c: usize, lo: i32, hi: i32)
    ensures { memory.new ≡ (if nat_lt c (length memory.old / pair_width) then slice_set (slice_set memory.old (pair_width * c) lo) (pair_width * c + 1) hi else memory.old) }
{
    if c < memory.len() / width::PAIR {
        memory[width::PAIR * c] = lo;
        memory[width::PAIR * c + 1] = hi;
    }
}

// How many pieces the darts have. They are written where they all have room: with no memory they are but counted. A `while let`: it goes from end to end, as far as there is one.
pub fn write_pieces(spans: &[i32], darts: &[u16], memory: &mut [i32]) -> usize
    requires { (length darts.now ≤ dart_limit) × RowsIn spans.now darts.now }
    ensures value { result ≡ length (pieces_of (spans_of spans.now darts.now)) }
    ensures memory_after { pair_width * length (pieces_of (spans_of spans.now darts.now)) ≤ length memory.old
        → memory.new ≡ onto (ends_of (pieces_of (spans_of spans.now darts.now))) memory.old }
{
    let Some(mut t) = lowest_end(spans, darts) else {
        return 0;
    };
    let mut count = 0;
    while let Some(u) = next_end(spans, darts, t) {
        if is_covered_above(spans, darts, t) {
            put_pair(memory, count, t, u);
            count += 1;
        }
        t = u;
    }
    count
}
