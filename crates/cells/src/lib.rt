// The number of cells of an axis that raw tables have.
#![tactic(auto)]

ghost use Rattle.std.specs.Prelude.{◌≡◌, length};
ghost use Rattle.paper.specs.Table.{lent};
ghost use Rattle.paper.specs.Refusal.{judged_of};
ghost use Rattle.cells.specs.Call.{cells_call};

use paper::refusal::{Refusal, Refused};

// The tables are checked, then the axis. Of the tables only work is written.
pub fn count(
    links: &[u16],
    places: &[i32],
    spans: &[i32],
    work: &mut [u16],
    dimension: u8,
    count: usize,
    axis: u8,
) -> Result<u16, Refused>
    ensures { judged_of result ≡ cells_call (lent links.now places.now spans.now (length work.old)) dimension count axis }
{
    checker::check(links, places, spans, work, dimension, count)?;
    if dimension < axis {
        return Err(Refused::from(Refusal::OutOfRange));
    }
    let cells = orbit::count_cells(links, work, dimension as usize, count, axis as usize);
    Ok(cells as u16)
}
