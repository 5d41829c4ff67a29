// Rows of spans in a lent table: which span of a row covers a side of a height, and whether two rows are the same.
#![tactic(auto)]

ghost use Rattle.std.specs.Prelude.{◌≡◌, ◌+◌, ◌*◌, ◌<◌, ◌≤◌, true, length, pos, slice_index_or, unsigned_abs};
ghost use Rattle.paper.specs.Width.{span_limit, per_span, span_width, pair_width};
ghost use Rattle.paper.specs.Below.{same_list};
ghost use Rattle.paper.specs.Map.{eq_span, eq_row};
ghost use Rattle.paper.specs.Span.{covers, covering, covered, ends_of};
ghost use Rattle.paper.specs.Table.{owned_at, row_at};
ghost use Rattle.theory.specs.Alike.{eq_by, alike};
ghost use Rattle.span.specs.Row.{span_from, owned_from, spans_from, left_of, RowIn};

use kernel::width;

// How many spans the row of d has.
pub fn row_length(spans: &[i32], d: usize) -> usize
    requires { RowIn spans.now d }
    ensures { (result ≡ unsigned_abs (slice_index_or spans.now (d * span_width) (pos 0))) × (result ≤ span_limit) }
{
    let count = kernel::at(spans, d * width::SPANS);
    count as usize
}

// How many ends the row of d has.
pub fn end_count(spans: &[i32], d: usize) -> usize
    requires { RowIn spans.now d }
    ensures { (result ≡ length (ends_of (row_at spans.now d))) × (result ≤ pair_width * span_limit) }
{
    row_length(spans, d) * width::PAIR
}

// End j of d's row, in the row's order: the lo of a span, then its hi, then the lo of the next. The numbers of the spans below it that are no ends stand between.
pub fn end_at(spans: &[i32], d: usize, j: usize) -> i32
    requires { RowIn spans.now d × (j < length (ends_of (row_at spans.now d))) }
    ensures { result ≡ slice_index_or (ends_of (row_at spans.now d)) j (pos 0) }
{
    let others = j / width::PAIR * (width::PER_SPAN - width::PAIR);
    kernel::at(spans, d * width::SPANS + 1 + others + j)
}

// A span lies directly above a height, or directly below it.
fn covers_side(lo: i32, hi: i32, t: i32, up: bool) -> bool
    ensures { result ≡ covers (record { lo = lo; hi = hi }) t up }
{
    if up {
        if lo <= t {
            return t < hi;
        }
        return false;
    }
    if lo < t {
        return t <= hi;
    }
    false
}

// The span at a place of the table covers the side.
pub fn covers_at(spans: &[i32], at: usize, t: i32, up: bool) -> bool
    requires { at + per_span ≤ length spans.now }
    ensures { result ≡ covers (span_from spans.now at) t up }
{
    covers_side(kernel::at(spans, at), kernel::at(spans, at + 1), t, up)
}

// The row is searched by descent, one span fewer at each call. Of the spans that are left, so many from a place of the table on, as many as are left from the one that covers the side on; 0 where none does.
// A count and no Option: the caller goes on from the span that was found with as many as are left, and with none left nothing was.
pub fn search(spans: &[i32], at: usize, left: usize, t: i32, up: bool) -> usize
    requires { (at + left * per_span ≤ length spans.now) × (left ≤ span_limit) }
    ensures { result ≡ left_of left (covering (spans_from spans.now at left) t up) }
{
    if left == 0 {
        return 0;
    }
    if covers_at(spans, at, t, up) {
        return left;
    }
    search(spans, at + width::PER_SPAN, left - 1, t, up)
}

// Which span of d's row covers the side.
pub fn covering_of(spans: &[i32], d: usize, t: i32, up: bool) -> Option<usize>
    requires { RowIn spans.now d }
    ensures { result ≡ covering (row_at spans.now d) t up }
{
    let all = row_length(spans, d);
    let left = search(spans, d * width::SPANS + 1, all, t, up);
    if left == 0 {
        return None;
    }
    Some(all - left)
}

// Some span of d's row covers the side.
pub fn is_covered(spans: &[i32], d: usize, t: i32, up: bool) -> bool
    requires { RowIn spans.now d }
    ensures { result ≡ covered (row_at spans.now d) t up }
{
    covering_of(spans, d, t, up).is_some()
}

// The spans at two places of the table have the same ends.
fn same_ends(spans: &[i32], p: usize, q: usize) -> bool
    requires { (p + per_span ≤ length spans.now) × (q + per_span ≤ length spans.now) }
    ensures { result ≡ eq_span (span_from spans.now p) (span_from spans.now q) }
{
    spans[p] == spans[q] && spans[p + 1] == spans[q + 1]
}

// The spans at two places of the table have the same ends, and where it is asked the same object.
fn same_span(spans: &[i32], p: usize, q: usize, objects: bool) -> bool
    requires { (p + per_span ≤ length spans.now) × (q + per_span ≤ length spans.now) }
    ensures { result ≡ eq_by objects (owned_from spans.now p) (owned_from spans.now q) }
{
    if !same_ends(spans, p, q) {
        return false;
    }
    !objects || spans[p + 2] == spans[q + 2]
}

// Two darts have the same spans in the same order, and where it is asked of the same objects.
fn same_by(spans: &[i32], d: usize, e: usize, objects: bool) -> bool
    requires { RowIn spans.now d × RowIn spans.now e }
    ensures { result ≡ same_list (eq_by objects) (owned_at spans.now d) (owned_at spans.now e) }
{
    let all = row_length(spans, d);
    if all != row_length(spans, e) {
        return false;
    }
    let p = d * width::SPANS + 1;
    let q = e * width::SPANS + 1;
    for j in 0..all {
        let x = p + j * width::PER_SPAN;
        let y = q + j * width::PER_SPAN;
        if !same_span(spans, x, y, objects) {
            return false;
        }
    }
    true
}

// Two darts have the same row.
pub fn same_row(spans: &[i32], d: usize, e: usize) -> bool
    requires { RowIn spans.now d × RowIn spans.now e }
    ensures { result ≡ eq_row (owned_at spans.now d) (owned_at spans.now e) }
{
    same_by(spans, d, e, true)
}

// Two darts have the same spans, whatever their objects: then they have the same ends.
pub fn same_spans(spans: &[i32], d: usize, e: usize) -> bool
    requires { RowIn spans.now d × RowIn spans.now e }
    ensures { result ≡ alike (owned_at spans.now d) (owned_at spans.now e) }
{
    same_by(spans, d, e, false)
}
