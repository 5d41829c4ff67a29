// The numbers of cells of all axes that raw tables have: the tables are checked once.
#![tactic(auto)]

ghost use Rattle.std.specs.Prelude.{◌≡◌, suc, ◌<◌, length};
ghost use Rattle.paper.specs.Below.{list_below, onto};
ghost use Rattle.paper.specs.Map.{Map};
ghost use Rattle.paper.specs.Cell.{cells};
ghost use Rattle.paper.specs.Table.{lent};
ghost use Rattle.paper.specs.Refusal.{judged_of};
ghost use Rattle.hold.specs.Hold.{HasLinks};
ghost use Rattle.orbit.specs.Flood.{Ready};
ghost use Rattle.counts.specs.Call.{counts_call, counts_memory};

use paper::refusal::{Refusal, Refused};

// The number of cells of each axis, from 0 to m, goes to the start of the memory.
fn put_counts(links: &[u16], work: &mut [u16], m: usize, n: usize, memory: &mut [u16])
    requires ready { Ready m n links.now work.old }
    requires m_in_bounds { m < length memory.old }
    ensures { (M : Map) → HasLinks M m n links.now → memory.new ≡ onto (list_below (suc m) (cells M)) memory.old }
{
    for i in 0..m + 1 {
        kernel::put(memory, i, orbit::count_cells(links, work, m, n, i));
    }
}

// The tables are checked, then the room. Of the tables only work is written, and the memory.
pub fn counts(
    links: &[u16],
    places: &[i32],
    spans: &[i32],
    work: &mut [u16],
    dimension: u8,
    count: usize,
    memory: &mut [u16],
) -> Result<u16, Refused>
    ensures value { judged_of result ≡ counts_call (lent links.now places.now spans.now (length work.old)) dimension count (length memory.old) }
    ensures memory_after { memory.new ≡ counts_memory (lent links.now places.now spans.now (length work.old)) dimension count memory.old }
{
    checker::check(links, places, spans, work, dimension, count)?;
    let m = dimension as usize;
    if memory.len() <= m {
        return Err(Refused::from(Refusal::TooLarge));
    }
    put_counts(links, work, m, count, memory);
    Ok(m as u16 + 1)
}
