// SPAN, 1A and CLEAR: refused by the dart and its row, else one splice of that row for the whole top cell.
#![tactic(auto)]

mod join;
mod splice;

ghost use Rattle.std.specs.Prelude.{◌≡◌, ◌+◌, ◌≤◌, List, length, ℤ};
ghost use Rattle.paper.specs.Refusal.{number_of, answer_of};
ghost use Rattle.paper.specs.Table.{owned_at};
ghost use Rattle.paper.specs.Step.{Maps, Room, owned_span};
ghost use Rattle.paper.specs.declared.Command.TheVariants as command;
ghost use Rattle.span.specs.Row.{RowIn};
ghost use Rattle.hold.specs.Stand.{PlanStands, Edited};
ghost use Rattle.orbit.specs.Flood.{Ready};
ghost use Rattle.respan.specs.Splice.{insertion, removal};
ghost use Rattle.respan.specs.Cell.{Rows, dart_refusal, row_refusal};

use kernel::width;
use paper::refusal::Refusal;
use splice::{Owned, Splice};

// Refused by 12 and 4: where there is no plan or no such dart.
fn admit_dart(m: usize, n: usize, dart: usize) -> Result<(), Refusal>
    ensures { number_of result ≡ dart_refusal m n dart }
{
    if m == 0 {
        return Err(Refusal::NoPlan);
    }
    if n <= dart {
        return Err(Refusal::NoSuchDart);
    }
    Ok(())
}

// Refused by 5, and by 18 and 19 by d's row, of which lo..hi of an object overlaps b spans from span a on.
#[tactic(auto, using(crate::proofs::Numbers::row_sizes))]
fn admit_row(
    spans: &[i32],
    d: usize,
    a: usize,
    b: usize,
    lo: i32,
    hi: i32,
    object: u16,
) -> Result<(), Refusal>
    requires { RowIn spans.now d × (a + b ≤ length (owned_at spans.now d)) }
    ensures { number_of result ≡ row_refusal (owned_span lo hi object) a b (owned_at spans.now d) }
{
    if hi <= lo {
        return Err(Refusal::EmptySpan);
    }
    if join::has_other(spans, d, a, b, object) {
        return Err(Refusal::SpanOverlaps);
    }
    let left = span::row_length(spans, d) - b;
    if width::SPAN_LIMIT as usize <= left {
        return Err(Refusal::RowFull);
    }
    Ok(())
}

// What 1A makes of d's row, and SPAN by object 0: the spans that lo..hi overlaps go, and the one that they become with it comes in their place, of its object.
fn insertion(spans: &[i32], d: usize, lo: i32, hi: i32, object: u16) -> Splice
    requires { RowIn spans.now d }
    ensures { result ≡ insertion (owned_span lo hi object) (owned_at spans.now d) }
{
    let a = join::spans_before(spans, d, lo);
    let b = join::spans_met(spans, d, a, hi);
    let lo = join::low_end(spans, d, a, b, lo);
    let hi = join::high_end(spans, d, a, b, hi);
    let object = i32::from(object);
    Splice {
        kept: a,
        dropped: b,
        new: Some(Owned { lo, hi, object }),
    }
}

// What CLEAR makes of it: all spans go.
#[tactic(auto, using(crate::proofs::Numbers::row_sizes))]
fn removal(spans: &[i32], d: usize) -> Splice
    requires { RowIn spans.now d }
    ensures { result ≡ removal (owned_at spans.now d) }
{
    Splice {
        kept: 0,
        dropped: span::row_length(spans, d),
        new: None,
    }
}

// A new span in the rows of d's top cell, one with those of its object that it overlaps; refused by d's row, before anything is written.
// Not written out in `span`, which refuses a dart sooner without what this has to keep at hand.
#[inline(never)]
fn join_cell(
    links: &[u16],
    spans: &mut [i32],
    w: &mut [u16],
    m: usize,
    n: usize,
    d: usize,
    lo: i32,
    hi: i32,
    object: u16,
) -> Result<u16, Refusal>
    requires ready { Ready m n links.now w.old }
    requires rows { Rows n spans.old × (dart_refusal m n d ≡ 0) }
    ensures { (R : Room) (s : Maps) (ps : List ℤ) → PlanStands R s m n links.now ps spans.old (length w.old) → Edited R s (command.SpanOf d lo hi object) (answer_of result) m n links.now ps spans.new }
{
    let s = insertion(spans, d, lo, hi, object);
    admit_row(spans, d, s.kept, s.dropped, lo, hi, object)?;
    Ok(splice::splice_cell(links, spans, w, m, n, d, s))
}

// 1A, and SPAN by object 0: a new span for the dart's top cell.
pub fn span(
    links: &[u16],
    spans: &mut [i32],
    w: &mut [u16],
    m: usize,
    n: usize,
    dart: u16,
    lo: i32,
    hi: i32,
    object: u16,
) -> Result<u16, Refusal>
    requires ready { Ready m n links.now w.old }
    requires rows { Rows n spans.old }
    ensures { (R : Room) (s : Maps) (ps : List ℤ) → PlanStands R s m n links.now ps spans.old (length w.old) → Edited R s (command.SpanOf dart lo hi object) (answer_of result) m n links.now ps spans.new }
{
    let d = usize::from(dart);
    admit_dart(m, n, d)?;
    join_cell(links, spans, w, m, n, d, lo, hi, object)
}

// CLEAR: the rows of the dart's top cell are emptied.
pub fn clear(
    links: &[u16],
    spans: &mut [i32],
    w: &mut [u16],
    m: usize,
    n: usize,
    dart: u16,
) -> Result<u16, Refusal>
    requires ready { Ready m n links.now w.old }
    requires rows { Rows n spans.old }
    ensures { (R : Room) (s : Maps) (ps : List ℤ) → PlanStands R s m n links.now ps spans.old (length w.old) → Edited R s (command.Clear dart) (answer_of result) m n links.now ps spans.new }
{
    let d = usize::from(dart);
    admit_dart(m, n, d)?;
    let s = removal(spans, d);
    Ok(splice::splice_cell(links, spans, w, m, n, d, s))
}
