// The rows of a dart with several spans. Each gets the object of a span that the recursive search of `span` found: for the row itself, or for one before it and it covers this side too.
ghost use Rattle.std.specs.Prelude.{◌≡◌, ◌-◌, ◌*◌, ◌<◌, ◌≤◌, ◌&&◌, length, if◌then◌else◌, nat_eq, nat_lt, slice_index_or, slice_set, unsigned_abs};
ghost use Rattle.paper.specs.Width.{per_span};
ghost use Rattle.paper.specs.Map.{no_span};
ghost use Rattle.paper.specs.Span.{covers};
ghost use Rattle.paper.specs.Table.{owned_at, row_at};
ghost use Rattle.span.specs.Row.{span_from};
ghost use Rattle.carry.specs.Carried.{carried_at, carried_rows, Own, Within, Met};

use kernel::width;

// Row q gets the object of span j of d's row.
fn carry_row(oo: &mut [u16], spans: &[i32], d: usize, j: usize, q: usize)
    requires { Own spans.now d × ((j < length (row_at spans.now d)) × (q < length oo.old)) }
    ensures { oo.new ≡ slice_set oo.old q (unsigned_abs (slice_index_or (owned_at spans.now d) j no_span).object) }
{
    kernel::put(oo, q, crate::object_at(spans, d, j));
}

// The span that was found last covers this side too: so many spans are left from it on, up to this end of their row. None are left where none is found, and then it is false.
fn goes_on(spans: &[i32], end: usize, left: usize, t: i32, up: bool) -> bool
    requires { (left * per_span ≤ end) × (end ≤ length spans.now) }
    ensures { result ≡ (nat_lt 0 left && covers (span_from spans.now (end - left * per_span)) t up) }
{
    if left == 0 {
        return false;
    }
    span::covers_at(spans, end - left * width::PER_SPAN, t, up)
}

// How many spans are to be searched: those behind the one that was found last, or all where none is found.
fn to_search(left: usize, all: usize) -> usize
    ensures { result ≡ (if nat_eq left 0 then all else left - 1) }
{
    if left == 0 {
        return all;
    }
    left - 1
}

// Each row of a dart with several spans, so many, gets its object. As long as the span that was found last covers the side, that is it; then the spans behind it are searched, since heights ascend from row to row. Where none of them covers the side, as at the start of a level, and for the first row, all are searched.
// No count of an index: a row is looked at again where the search has to begin anew. The loop calls the search itself: the compiler would write the slices anew for each call through a function between them, and the processor would wait for them.
pub fn carry_rows(
    oo: &mut [u16],
    spans: &[i32],
    op: &[i32],
    m: usize,
    d: usize,
    all: usize,
    from: usize,
    to: usize,
)
    requires own { Own spans.now d × (all ≡ length (row_at spans.now d)) }
    requires within { Within m to op.now (length oo.old) × Met spans.now op.now m d from to }
    ensures { oo.new ≡ carried_rows (carried_at spans.now op.now m d) from to oo.old }
{
    let end = d * width::SPANS + 1 + all * width::PER_SPAN;
    let mut left: usize = 0;
    let mut q = from;
    while q < to {
        let t = kernel::at(op, q * width::PLACES + m);
        let up = q % 2 == 0;
        if goes_on(spans, end, left, t, up) {
            carry_row(oo, spans, d, all - left, q);
            q += 1;
            continue;
        }
        let rest = to_search(left, all);
        left = span::search(spans, end - rest * width::PER_SPAN, rest, t, up);
        if left == 0 {
            continue;
        }
        carry_row(oo, spans, d, all - left, q);
        q += 1;
    }
}
