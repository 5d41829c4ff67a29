// The pieces call: the stretches between neighbouring ends of a cell that some span of the cell covers.
#![tactic(auto)]

mod walk;

ghost use Rattle.std.specs.Prelude.{◌≡◌, ℕ, ◌<◌, ◌≤◌, true, length};
ghost use Rattle.paper.specs.Map.{Map};
ghost use Rattle.paper.specs.Span.{ordered};
ghost use Rattle.paper.specs.Ends.{pieces};
ghost use Rattle.paper.specs.Table.{row_at, lent};
ghost use Rattle.paper.specs.Refusal.{paired_of};
ghost use Rattle.paper.specs.Call.{pieces_call, pieces_memory};
ghost use Rattle.hold.specs.Hold.{Reads};
ghost use Rattle.orbit.specs.Flood.{Ready};
ghost use Rattle.span.specs.Row.{RowIn};
ghost use Rattle.pieces.specs.Told.{Told};

use kernel::width;
use paper::refusal::Refusal;

// The pieces of d's k-cell, in tables that hold a valid plan; 20 where memory has no room for them, and it stays then.
fn of_cell(
    links: &[u16],
    spans: &[i32],
    work: &mut [u16],
    m: usize,
    n: usize,
    k: usize,
    d: usize,
    memory: &mut [i32],
) -> Result<usize, Refusal>
    requires ready { Ready m n links.now work.old }
    requires by_index { (e : ℕ) → e < n → RowIn spans.now e × (ordered (row_at spans.now e) ≡ true) }
    requires k_le_m { (k ≤ m) × (d < n) }
    ensures { (M : Map) → Reads M m n links.now spans.now → Told (pieces M k d) memory.old (paired_of result) memory.new }
{
    let size = orbit::list(links, work, m, n, k, k + 1, d);
    let darts = &work[n..n + size];
    let pairs = walk::write_pieces(spans, darts, &mut []);
    if memory.len() / width::PAIR < pairs {
        return Err(Refusal::TooLarge);
    }
    walk::write_pieces(spans, darts, memory);
    Ok(pairs)
}

// The pieces call, on raw tables: they are checked, then the axis, the dart and the room. Of the tables only work is written, and the memory.
pub fn pieces(
    links: &[u16],
    places: &[i32],
    spans: &[i32],
    work: &mut [u16],
    dimension: u8,
    count: usize,
    dart: usize,
    axis: u8,
    memory: &mut [i32],
) -> Result<usize, Refusal>
    ensures value { paired_of result ≡ pieces_call (lent links.now places.now spans.now (length work.old)) dimension count dart axis (length memory.old) }
    ensures memory_after { memory.new ≡ pieces_memory (lent links.now places.now spans.now (length work.old)) dimension count dart axis memory.old }
{
    checker::check(links, places, spans, work, dimension, count).map_err(
        |refused| refused.refusal,
    )?;
    if dimension < axis {
        return Err(Refusal::OutOfRange);
    }
    if count <= dart {
        return Err(Refusal::NoSuchDart);
    }
    of_cell(
        links,
        spans,
        work,
        dimension as usize,
        count,
        axis as usize,
        dart,
        memory,
    )
}
