// The check of raw tables: one pass that tells whether all is well, and where it is not refusals 6 to 11, each tried over all darts before the next.
#![tactic(auto)]

ghost use Rattle.std.specs.Prelude.{◌≡◌, ℕ, ◌<◌, ◌≤◌, length};
ghost use Rattle.paper.specs.Refusal.{number, judge, checked_of};
ghost use Rattle.paper.specs.Call.{faults, check};
ghost use Rattle.paper.specs.Table.{lent};
ghost use Rattle.fault.specs.Fault.{fault_along, fault_of, lowest, Fits, Tried};
ghost use Rattle.checker.specs.Exactly.{Exactly};

use fault::{links, places, spans};
use kernel::width;
use paper::refusal::{Refusal, Refused};

// What a dart may be at fault by, in the order in which it is tried: 6 to 11.
const FAULTS: [Refusal; 6] = [
    Refusal::LinkBeyond,
    Refusal::LinkNotUndone,
    Refusal::PairNotUndone,
    Refusal::PlacesDiffer,
    Refusal::BadRow,
    Refusal::RowsDiffer,
];

// Dart d is at fault along axis i by a refusal, where those before it are met by no dart.
fn is_at_fault_along(
    refusal: Refusal,
    links: &[u16],
    places: &[i32],
    spans: &[i32],
    m: usize,
    n: usize,
    d: usize,
    i: usize,
) -> bool
    requires { Fits links.now places.now spans.now m n × (Tried (number refusal) links.now places.now spans.now m n × ((d < n) × (i ≤ m))) }
    ensures { result ≡ fault_along (number refusal) links.now places.now spans.now m n d i }
{
    match refusal {
        Refusal::LinkBeyond => links::is_beyond(links, m, n, d, i),
        Refusal::LinkNotUndone => links::is_unlinked(links, m, n, d, i),
        Refusal::PairNotUndone => links::is_unpaired(links, m, n, d, i),
        Refusal::PlacesDiffer => places::is_displaced(links, places, m, n, d, i),
        Refusal::RowsDiffer => spans::is_respanned(links, spans, m, n, d, i),
        _ => false,
    }
}

// Dart d is at fault by a refusal: along some axis, or by its row of spans.
fn is_at_fault(
    refusal: Refusal,
    links: &[u16],
    places: &[i32],
    spans: &[i32],
    m: usize,
    n: usize,
    d: usize,
) -> bool
    requires { Fits links.now places.now spans.now m n × (Tried (number refusal) links.now places.now spans.now m n × (d < n)) }
    ensures { result ≡ fault_of (number refusal) links.now places.now spans.now m n d }
{
    match refusal {
        Refusal::BadRow => spans::is_bad_row(spans, n, d),
        _ => (0..m + 1).any(|i| is_at_fault_along(refusal, links, places, spans, m, n, d, i)),
    }
}

// The first dart at fault by a refusal.
fn first_at_fault(
    refusal: Refusal,
    links: &[u16],
    places: &[i32],
    spans: &[i32],
    m: usize,
    n: usize,
) -> Option<usize>
    requires { Fits links.now places.now spans.now m n × Tried (number refusal) links.now places.now spans.now m n }
    ensures { result ≡ lowest n (fault_of (number refusal) links.now places.now spans.now m n) }
{
    (0..n).find(|d| is_at_fault(refusal, links, places, spans, m, n, *d))
}

// The first refusal of 6 to 11 that is met, with the first dart at fault. Work's length does not matter.
// Which refusal it is is asked only where something is wrong: most tables are sound, and one pass is cheaper than six.
fn first_fault(
    links: &[u16],
    places: &[i32],
    spans: &[i32],
    m: usize,
    n: usize,
) -> Result<(), Refused>
    requires { Fits links.now places.now spans.now m n × (1 ≤ m) }
    ensures { (w : ℕ) → checked_of result ≡ judge n (faults (lent links.now places.now spans.now w) m n) }
{
    if well::all_well(links, places, spans, m, n) {
        return Ok(());
    }
    for refusal in FAULTS {
        if let Some(d) = first_at_fault(refusal, links, places, spans, m, n) {
            let value = d as u16;
            return Err(Refused { refusal, value });
        }
    }
    Ok(())
}

// The check: 3 for a dimension that is not 1 to 5, 4 for a count above capacity, then 6 to 11. No table is written; of work only the length matters.
pub fn check(
    links: &[u16],
    places: &[i32],
    spans: &[i32],
    work: &[u16],
    dimension: u8,
    count: usize,
) -> Result<(), Refused>
    ensures told { checked_of result ≡ check (lent links.now places.now spans.now (length work.now)) dimension count }
    ensures accepted { Exactly (lent links.now places.now spans.now (length work.now)) dimension count (checked_of result).number }
{
    if dimension < 1 || width::DIMENSION < dimension {
        return Err(Refused::from(Refusal::OutOfRange));
    }
    if table::capacity::plan(links.len(), places.len(), spans.len(), work.len()) < count {
        return Err(Refused::from(Refusal::NoSuchDart));
    }
    first_fault(links, places, spans, dimension as usize, count)
}
