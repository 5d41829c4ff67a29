// A row cut by the ends of another: the pieces of a dart at the level below the top are the spans of its row, cut at the ends of its neighbour over the boundary that lie inside them.
// Spans and ends are gone over side by side, each once, and nothing is written down between.
#![tactic(auto)]

ghost use Rattle.std.specs.Prelude.{◌≡◌, ◌&&◌, length, drop, pos, int_lt, nat_lt, slice_index_or};
ghost use Rattle.paper.specs.Span.{ends_of};
ghost use Rattle.paper.specs.Table.{row_at};
ghost use Rattle.span.specs.Row.{span_from, RowIn};
ghost use Rattle.number.specs.Beside.{cut_span, cut_row};
ghost use Rattle.places.specs.Write.{put_pieces, Writable, Wrote};
ghost use Rattle.beside.specs.Beside.{TwoRows, Cuttable, CutTo};

use kernel::width;

// How many pieces a span has, and how many of the ends lie below its head: for the next span they need not be asked.
#[derive(Clone, Copy)]
struct Cuts {
    pieces: usize,
    end: usize,
}

// End j of e's row, which has so many, lies below a height.
fn is_below(spans: &[i32], e: usize, ends: usize, j: usize, t: i32) -> bool
    requires { RowIn spans.now e × (ends ≡ length (ends_of (row_at spans.now e))) }
    ensures { result ≡ (nat_lt j ends && int_lt (slice_index_or (ends_of (row_at spans.now e)) j (pos 0)) t) }
{
    if ends <= j {
        return false;
    }
    span::end_at(spans, e, j) < t
}

// The pieces of the span at a place of the table, cut by the ends of e's row from end j on. The end at which the loop stops is a part of the answer.
fn count_span(spans: &[i32], at: usize, e: usize, ends: usize, j: usize) -> Cuts
    requires { Cuttable spans.now at e ends j }
    ensures { CutTo (span_from spans.now at) (ends_of (row_at spans.now e)) j result.pieces result.end }
{
    let head = kernel::at(spans, at + 1);
    let mut foot = kernel::at(spans, at);
    let mut pieces: usize = 1;
    let mut end = j;
    while is_below(spans, e, ends, end, head) {
        let t = span::end_at(spans, e, end);
        end += 1;
        if t <= foot {
            continue;
        }
        pieces += 1;
        foot = t;
    }
    Cuts { pieces, end }
}

// How many pieces the row of d has, cut by the ends of e's.
pub fn count_row(spans: &[i32], d: usize, e: usize) -> usize
    requires { TwoRows spans.now d e }
    ensures { result ≡ length (cut_row (row_at spans.now d) (ends_of (row_at spans.now e))) }
{
    let all = span::row_length(spans, d);
    let ends = span::end_count(spans, e);
    let mut pieces: usize = 0;
    let mut end: usize = 0;
    for i in 0..all {
        let at = d * width::SPANS + 1 + i * width::PER_SPAN;
        let r = count_span(spans, at, e, ends, end);
        pieces += r.pieces;
        end = r.end;
    }
    pieces
}

// The pieces that `count_span` counts, written as lifted darts of d from row x on: two rows for each, its foot and its head. The loop stops where that one does.
fn write_span(
    op: &mut [i32],
    x: usize,
    spans: &[i32],
    at: usize,
    e: usize,
    ends: usize,
    j: usize,
    places: &[i32],
    d: usize,
    m: usize,
) -> Cuts
    requires cuttable { Cuttable spans.now at e ends j }
    requires writable { Writable op.old x (cut_span (span_from spans.now at).lo (span_from spans.now at).hi (drop j (ends_of (row_at spans.now e)))) places.now d }
    ensures cut_to { CutTo (span_from spans.now at) (ends_of (row_at spans.now e)) j result.pieces result.end }
    ensures op_after { op.new ≡ put_pieces places.now d m
        (cut_span (span_from spans.now at).lo (span_from spans.now at).hi (drop j (ends_of (row_at spans.now e)))) x op.old }
{
    let head = kernel::at(spans, at + 1);
    let mut foot = kernel::at(spans, at);
    let mut pieces: usize = 0;
    let mut end = j;
    while is_below(spans, e, ends, end, head) {
        let cut = span::end_at(spans, e, end);
        end += 1;
        if cut <= foot {
            continue;
        }
        places::put_pair(op, x + pieces * 2, places, d, m, foot, cut);
        pieces += 1;
        foot = cut;
    }
    places::put_pair(op, x + pieces * 2, places, d, m, foot, head);
    Cuts {
        pieces: pieces + 1,
        end,
    }
}

// The pieces that `count_row` counts, written so. How many pieces.
pub fn write_row(
    op: &mut [i32],
    x: usize,
    spans: &[i32],
    places: &[i32],
    d: usize,
    e: usize,
    m: usize,
) -> usize
    requires two_rows { TwoRows spans.now d e }
    requires writable { Writable op.old x (cut_row (row_at spans.now d) (ends_of (row_at spans.now e))) places.now d }
    ensures { Wrote places.now d m (cut_row (row_at spans.now d) (ends_of (row_at spans.now e))) x op.old op.new result }
{
    let all = span::row_length(spans, d);
    let ends = span::end_count(spans, e);
    let mut pieces: usize = 0;
    let mut end: usize = 0;
    for i in 0..all {
        let at = d * width::SPANS + 1 + i * width::PER_SPAN;
        let r = write_span(op, x + pieces * 2, spans, at, e, ends, end, places, d, m);
        pieces += r.pieces;
        end = r.end;
    }
    pieces
}
