// The next piece of a row: its spans are descended beside the ends, so that neither is gone over twice.
ghost use Rattle.std.specs.Prelude.{◌≡◌, ◌+◌, ◌-◌, ◌<◌, ◌≤◌, length};
ghost use Rattle.paper.specs.Table.{row_at};
ghost use Rattle.walk.specs.Walk.{Walkable, SpanAt, PieceAt, Reached, Probed};

use crate::seek;
use ends::key;
use kernel::width;

// Where the pass stops: a piece starts at this end, and this span covers it. Past the last end no piece is left: a place that has run out, as an index at the end of a slice is, and no Option, which the loops would only take apart again.
#[derive(Clone, Copy)]
pub struct Stop {
    pub end: usize,
    pub span: usize,
}

// Where the descent stops: a piece starts at this end, and of the spans that are left, so many, the first covers it. Past the last end no piece is left: a place that has run out, as of Stop.
#[derive(Clone, Copy)]
pub struct Descent {
    pub end: usize,
    pub left: usize,
}

// What a span tells by itself: up to which end it covers no stretch, and whether it covers the one that starts there. No Option: the end is told in both cases.
#[derive(Clone, Copy)]
struct Probe {
    end: usize,
    covers: bool,
}

// The span at a place of the table, from end i of the n ends of half p on: it is span j of d's row, as the contract needs to know. Ends below it are passed at once. It covers the stretch from the next one on where it covers side down of that stretch's head; else it covers none that is left.
fn probe_span(
    v: &[u16],
    p: usize,
    n: usize,
    spans: &[i32],
    d: usize,
    j: usize,
    at: usize,
    i: usize,
) -> Probe
    requires { Walkable v.now p n spans.now d × ((i < n) × SpanAt spans.now d j at) }
    ensures { Probed v.now p n spans.now d i j result.end result.covers }
{
    let end = seek::seek(v, p, n, i, key::key_at(spans, at));
    if n <= end + 1 {
        return Probe { end, covers: false };
    }
    let head = key::height(key::get_end(v, p, end + 1));
    let covers = span::covers_at(spans, at, head, false);
    Probe { end, covers }
}

// The row of d is descended, one span fewer at each call, to the span that covers the next piece from end i on; the first span that is left is at a place of the table.
// A loop calls it itself, and not through a function that asks more: the compiler would write the slices anew for each call, in two parts that the processor waits for.
pub fn descend(
    v: &[u16],
    p: usize,
    n: usize,
    spans: &[i32],
    d: usize,
    left: usize,
    at: usize,
    i: usize,
) -> Descent
    requires { Walkable v.now p n spans.now d × ((i < n) × ((left ≤ length (row_at spans.now d)) × SpanAt spans.now d (length (row_at spans.now d) - left) at)) }
    ensures { Reached v.now p n spans.now d i (length (row_at spans.now d) - left) result.end (length (row_at spans.now d) - result.left) × (result.left ≤ left) }
{
    let j = span::row_length(spans, d) - left;
    let probe = probe_span(v, p, n, spans, d, j, at, i);
    let end = probe.end;
    if probe.covers {
        return Descent { end, left };
    }
    if left == 1 {
        return Descent { end: n, left };
    }
    descend(v, p, n, spans, d, left - 1, at + width::PER_SPAN, end)
}

// The first piece of d's row: its first span is asked, which spares most rows a call, and the rest is descended.
pub fn first_piece(v: &[u16], p: usize, n: usize, spans: &[i32], d: usize) -> Stop
    requires { Walkable v.now p n spans.now d }
    ensures { Reached v.now p n spans.now d 0 0 result.end result.span }
{
    let left = span::row_length(spans, d);
    if left == 0 {
        return Stop { end: n, span: 0 };
    }
    if n <= 1 {
        return Stop { end: n, span: 0 };
    }
    let at = d * width::SPANS + 1;
    let probe = probe_span(v, p, n, spans, d, 0, at, 0);
    if probe.covers {
        return Stop {
            end: probe.end,
            span: 0,
        };
    }
    if left == 1 {
        return Stop { end: n, span: 0 };
    }
    let found = descend(v, p, n, spans, d, left - 1, at + width::PER_SPAN, probe.end);
    Stop {
        end: found.end,
        span: left - found.left,
    }
}

// Behind a piece that starts at this end and that this span covers: whether the span covers the next stretch too. Else it covers none that is left, and the spans behind it are to be descended.
pub fn goes_on(
    v: &[u16],
    p: usize,
    n: usize,
    spans: &[i32],
    d: usize,
    end: usize,
    span: usize,
) -> bool
    requires { Walkable v.now p n spans.now d × PieceAt v.now p n spans.now d end span }
    ensures { Probed v.now p n spans.now d (end + 1) span (end + 1) result }
{
    if n <= end + 2 {
        return false;
    }
    let at = d * width::SPANS + 1 + span * width::PER_SPAN;
    let head = key::height(key::get_end(v, p, end + 2));
    span::covers_at(spans, at, head, false)
}
