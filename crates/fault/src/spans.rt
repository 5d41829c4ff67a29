// A dart's row of spans, by itself and beside a neighbour's: 10 and 11.
ghost use Rattle.std.specs.Prelude.{◌≡◌, ◌+◌, ◌*◌, ◌<◌, ◌≤◌, true, pos, slice_index_or};
ghost use Rattle.paper.specs.Width.{span_limit, per_span, span_width};
ghost use Rattle.paper.specs.Map.{eq_z};
ghost use Rattle.paper.specs.Table.{count_fits, object_fits, owned_at, span_in, owned_in};
ghost use Rattle.paper.specs.Call.{has_bad_row};
ghost use Rattle.fault.specs.Fault.{count_in, ordered_at, sound, sound_at, SpansFit, CountsIn, LinksWithin, respanned};

// How many spans the row of d says it has.
fn count(spans: &[i32], n: usize, d: usize) -> i32
    requires { SpansFit spans.now n × (d < n) }
    ensures { result ≡ count_in spans.now d }
{
    kernel::at(spans, d * kernel::width::SPANS)
}

// Two rows say that they have as many.
pub fn same_count(spans: &[i32], n: usize, d: usize, e: usize) -> bool
    requires { SpansFit spans.now n × ((d < n) × (e < n)) }
    ensures { result ≡ eq_z (count_in spans.now d) (count_in spans.now e) }
{
    count(spans, n, d) == count(spans, n, e)
}

// That is a number of spans that a row may have.
pub fn has_count(spans: &[i32], n: usize, d: usize) -> bool
    requires { SpansFit spans.now n × (d < n) }
    ensures { result ≡ count_fits (count_in spans.now d) }
{
    (0..=kernel::width::SPAN_LIMIT).contains(&count(spans, n, d))
}

// A number of span q in the row of d: its lo, its hi and its object are 0, 1 and 2.
fn number(spans: &[i32], n: usize, d: usize, q: usize, k: usize) -> i32
    requires { SpansFit spans.now n × ((d < n) × ((q < span_limit) × (k < per_span))) }
    ensures { result ≡ slice_index_or spans.now (d * span_width + (1 + k + per_span * q)) (pos 0) }
{
    kernel::at(
        spans,
        d * kernel::width::SPANS + (1 + k + kernel::width::PER_SPAN * q),
    )
}

// Span q is no empty one, and the next, if there is one, starts at its end or above.
fn is_ordered_at(spans: &[i32], n: usize, d: usize, c: usize, q: usize) -> bool
    requires { SpansFit spans.now n × ((d < n) × ((c ≤ span_limit) × (q < c))) }
    ensures { result ≡ ordered_at spans.now d c q }
{
    let start = number(spans, n, d, q, 0);
    let end = number(spans, n, d, q, 1);
    start < end && (c <= q + 1 || end <= number(spans, n, d, q + 1, 0))
}

// Span q has an object that one may have.
fn has_object(spans: &[i32], n: usize, d: usize, q: usize) -> bool
    requires { SpansFit spans.now n × ((d < n) × (q < span_limit)) }
    ensures { result ≡ object_fits (owned_in spans.now d q).object }
{
    (0..kernel::width::OBJECT_LIMIT).contains(&number(spans, n, d, q, 2))
}

// Span q is in order, and has such an object.
fn is_sound_at(spans: &[i32], n: usize, d: usize, c: usize, q: usize) -> bool
    requires { SpansFit spans.now n × ((d < n) × ((c ≤ span_limit) × (q < c))) }
    ensures { result ≡ sound_at spans.now d c q }
{
    is_ordered_at(spans, n, d, c, q) && has_object(spans, n, d, q)
}

// So is every span of the row. Order and objects are told by one look at each span.
fn is_sound(spans: &[i32], n: usize, d: usize) -> bool
    requires { SpansFit spans.now n × ((d < n) × (count_fits (count_in spans.now d) ≡ true)) }
    ensures { result ≡ sound (owned_at spans.now d) }
{
    let c = span::row_length(spans, d);
    // A `for`: with `all` the check of sound tables took a tenth longer.
    for q in 0..c {
        if !is_sound_at(spans, n, d, c, q) {
            return false;
        }
    }
    true
}

// The row has a count outside 0 to 8, an empty span, an overlap, a wrong order, or an object outside 16 bits.
pub fn is_bad_row(spans: &[i32], n: usize, d: usize) -> bool
    requires { SpansFit spans.now n × (d < n) }
    ensures { result ≡ has_bad_row spans.now d }
{
    !has_count(spans, n, d) || !is_sound(spans, n, d)
}

// The link along axis j, below m, leads to another row.
pub fn is_respanned(links: &[u16], spans: &[i32], m: usize, n: usize, d: usize, j: usize) -> bool
    requires { LinksWithin links.now m n × (SpansFit spans.now n × (CountsIn spans.now n × ((d < n) × (j ≤ m)))) }
    ensures { result ≡ respanned links.now spans.now m d j }
{
    j < m && !span::same_row(spans, d, crate::links::neighbour(links, m, n, d, j))
}
