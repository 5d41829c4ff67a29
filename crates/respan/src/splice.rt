// A change of a row at one place, worked out once and written to every dart of a top cell.
ghost use Rattle.std.specs.Prelude.{◌≡◌, ℕ, ◌+◌, ◌*◌, ◌%◌, ◌<◌, ◌≤◌, length, pos, slice_index_or};
ghost use Rattle.paper.specs.Width.{span_limit, per_span, span_width};
ghost use Rattle.paper.specs.Below.{list_below};
ghost use Rattle.paper.specs.Table.{owned_at};
ghost use Rattle.span.specs.Row.{RowIn};
ghost use Rattle.hold.specs.Rows.{row_put, rows_put};
ghost use Rattle.orbit.specs.Sparse.{queue};
ghost use Rattle.orbit.specs.Flood.{Ready};
ghost use Rattle.respan.specs.Splice.{added, spliced, row_number, number_at, new_count, respliced, spliced_number, Fits};
ghost use Rattle.respan.specs.Cell.{Rows, Spliced};

use kernel::width;

// A span with its object, by its numbers in a row.
#[derive(Clone, Copy)]
pub struct Owned {
    pub lo: i32,
    pub hi: i32,
    pub object: i32,
}

// A change of a row: its first spans are kept, the next are dropped, a new one may come in their place, and the rest follows.
#[derive(Clone, Copy)]
pub struct Splice {
    pub kept: usize,
    pub dropped: usize,
    pub new: Option<Owned>,
}

// How many spans the row has that a splice makes of one of so many.
fn new_count(all: usize, s: Splice) -> usize
    requires { Fits s all × (all ≤ span_limit) }
    ensures { (result ≡ new_count all s) × (result ≤ span_limit) }
{
    all - s.dropped + usize::from(s.new.is_some())
}

// The numbers of spans are put in a row from a place on, span by span: where a loop copies number by number, the compiler calls `memcpy`, which the static library would ask its caller's program for, and which takes longer here.
fn put_spans(row: &mut [i32], at: usize, numbers: &[i32])
    requires { (at + length numbers.now ≤ length row.old) × (length numbers.now % per_span ≡ 0) }
    ensures { row.new ≡ spliced at (length numbers.now) numbers.now row.old }
{
    for q in 0..numbers.len() / width::PER_SPAN {
        let from = q * width::PER_SPAN;
        row[at + from] = numbers[from];
        row[at + from + 1] = numbers[from + 1];
        row[at + from + 2] = numbers[from + 2];
    }
}

// The row that a splice makes of d's: its count, the numbers of its spans, and 0 behind them.
#[tactic(auto, using(crate::proofs::Numbers::row_sizes))]
fn row(spans: &[i32], d: usize, s: Splice) -> [i32; width::SPANS]
    requires row_in { RowIn spans.now d }
    requires fits { Fits s (length (owned_at spans.now d)) }
    ensures built { result ≡ list_below span_width (row_number (respliced s (owned_at spans.now d))) }
    ensures numbered { result ≡ list_below span_width (spliced_number (number_at spans.now d) s.kept s.dropped (added s)) }
{
    let all = span::row_length(spans, d);
    let at = d * width::SPANS + 1;
    let old = &spans[at..at + all * width::PER_SPAN];
    let kept = s.kept * width::PER_SPAN;
    let mut r = [0; width::SPANS];
    r[0] = new_count(all, s) as i32;
    put_spans(&mut r, 1, &old[..kept]);
    let mut end = 1 + kept;
    if let Some(x) = s.new {
        put_spans(&mut r, end, &[x.lo, x.hi, x.object]);
        end += width::PER_SPAN;
    }
    put_spans(&mut r, end, &old[kept + s.dropped * width::PER_SPAN..]);
    r
}

// The row of d is set.
fn put_row(spans: &mut [i32], d: usize, row: &[i32; width::SPANS])
    requires { d * span_width + span_width ≤ length spans.old }
    ensures { spans.new ≡ row_put span_width d (λ q. slice_index_or row.now q (pos 0)) span_width spans.old }
{
    let at = d * width::SPANS;
    kernel::copy(row, width::SPANS, &mut spans[at..at + width::SPANS]);
}

// The rows of the first t darts of the queue are set.
fn put_rows(spans: &mut [i32], w: &[u16], n: usize, t: usize, row: &[i32; width::SPANS])
    requires span_width_in_bounds { n * span_width ≤ length spans.old }
    requires t_in_bounds { (n + t ≤ length w.now) × ((q : ℕ) → q < t → queue n w.now q < n) }
    ensures { spans.new ≡ rows_put span_width (queue n w.now) (λ q. slice_index_or row.now q (pos 0)) t spans.old }
{
    for d in &w[n..n + t] {
        put_row(spans, usize::from(*d), row);
    }
}

// The splice is worked out on d's row and written to every dart of d's top cell. How many darts it has.
pub fn splice_cell(
    links: &[u16],
    spans: &mut [i32],
    w: &mut [u16],
    m: usize,
    n: usize,
    d: usize,
    s: Splice,
) -> u16
    requires ready { Ready m n links.now w.old }
    requires rows { Rows n spans.old × (d < n) }
    requires fits { Fits s (length (owned_at spans.old d)) }
    ensures { Spliced s d m n links.now spans.old (length w.old) result spans.new }
{
    let r = row(spans, d, s);
    let t = orbit::list(links, w, m, n, m, m + 1, d);
    put_rows(spans, w, n, t, &r);
    t as u16
}
