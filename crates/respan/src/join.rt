// What a new span meets in a row, and what it becomes with it. In a row in order the spans that it overlaps stand one behind the other.
ghost use Rattle.std.specs.Prelude.{◌≡◌, ◌+◌, ◌<◌, ◌≤◌, length, take, drop, slice_index_or, pos};
ghost use Rattle.paper.specs.Below.{any_of};
ghost use Rattle.paper.specs.Map.{no_span};
ghost use Rattle.paper.specs.Table.{owned_at, row_at};
ghost use Rattle.span.specs.Row.{RowIn};
ghost use Rattle.respan.specs.Splice.{owned_of, before, met, low_end, high_end};
ghost use Rattle.respan.specs.Cell.{is_other};

use crate::splice::Owned;
use kernel::width;

// Span j of d's row.
#[tactic(auto, using(crate::proofs::Numbers::row_sizes))]
fn span_at(spans: &[i32], d: usize, j: usize) -> Owned
    requires { RowIn spans.now d × (j < length (owned_at spans.now d)) }
    ensures { owned_of result ≡ slice_index_or (owned_at spans.now d) j no_span }
{
    let p = d * width::SPANS + 1 + j * width::PER_SPAN;
    Owned {
        lo: spans[p],
        hi: spans[p + 1],
        object: spans[p + 2],
    }
}

// How many spans of d's row come before a new one that starts at lo: those that end there or below, up to the first that does not.
#[tactic(auto, using(crate::proofs::Search::before_steps))]
pub fn spans_before(spans: &[i32], d: usize, lo: i32) -> usize
    requires { RowIn spans.now d }
    ensures { result ≡ before lo (row_at spans.now d) }
{
    let all = span::row_length(spans, d);
    for j in 0..all {
        if lo < span_at(spans, d, j).hi {
            return j;
        }
    }
    all
}

// How many spans of d's row, from span a on, start below hi, up to the first that does not.
#[tactic(auto, using(crate::proofs::Search::met_steps))]
pub fn spans_met(spans: &[i32], d: usize, a: usize, hi: i32) -> usize
    requires { RowIn spans.now d }
    ensures { result ≡ met hi (drop a (row_at spans.now d)) }
{
    let all = span::row_length(spans, d);
    for j in a..all {
        if hi <= span_at(spans, d, j).lo {
            return j - a;
        }
    }
    all.saturating_sub(a)
}

// Some of the b spans of d's row from span a on is of another object.
#[tactic(auto, using(crate::proofs::Search::other_steps))]
pub fn has_other(spans: &[i32], d: usize, a: usize, b: usize, object: u16) -> bool
    requires { RowIn spans.now d × (a + b ≤ length (owned_at spans.now d)) }
    ensures { result ≡ any_of (is_other (pos object)) (take b (drop a (owned_at spans.now d))) }
{
    let object = i32::from(object);
    for j in a..a + b {
        if span_at(spans, d, j).object != object {
            return true;
        }
    }
    false
}

// Where a span from lo on begins, once it is one with the b spans of d's row from span a on.
pub fn low_end(spans: &[i32], d: usize, a: usize, b: usize, lo: i32) -> i32
    requires { RowIn spans.now d × (a + b ≤ length (owned_at spans.now d)) }
    ensures { result ≡ low_end lo a b (owned_at spans.now d) }
{
    if b == 0 {
        return lo;
    }
    lo.min(span_at(spans, d, a).lo)
}

// Where a span up to hi ends then.
#[tactic(auto, using(crate::proofs::Numbers::row_sizes))]
pub fn high_end(spans: &[i32], d: usize, a: usize, b: usize, hi: i32) -> i32
    requires { RowIn spans.now d × (a + b ≤ length (owned_at spans.now d)) }
    ensures { result ≡ high_end hi a b (owned_at spans.now d) }
{
    if b == 0 {
        return hi;
    }
    hi.max(span_at(spans, d, a + b - 1).hi)
}
