// The pieces of a level below the two upper ones, cell by cell in a sweep over the darts, and those of all levels.
ghost use Rattle.std.specs.Prelude.{◌≡◌, suc, ◌*◌, ◌<◌, ◌≤◌};
ghost use Rattle.paper.specs.Below.{sum_below};
ghost use Rattle.paper.specs.Map.{Map};
ghost use Rattle.kernel.specs.Room.{or_past, InRoom};
ghost use Rattle.hold.specs.Hold.{Reads};
ghost use Rattle.base.specs.Base.{base};
ghost use Rattle.tally.specs.Level.{Sound, Levelled, Tallied};

use crate::{turn, upper};

// The cells of level k: what is counted with them, or None where that is more than room.
fn count_level(
    links: &[u16],
    spans: &[i32],
    w: &mut [u16],
    v: &mut [u16],
    m: usize,
    n: usize,
    k: usize,
    total: usize,
    room: usize,
) -> Option<usize>
    requires sound { Sound m n links.now spans.now w.old v.old room }
    requires k_bound { (suc k < m) × ((total ≡ 2 * sum_below n (base w.old n 0)) × (total ≤ room)) }
    ensures { Levelled m n k links.now spans.now w.old room w.new (or_past room result) × InRoom room result }
{
    let mut t = 0;
    let mut sum = total;
    for d in 0..n {
        let r = turn::count_turn(links, spans, w, v, m, n, k, d, t, sum, room)?;
        t = r.tail;
        sum = r.total;
    }
    Some(sum)
}

// All levels: how many darts the lift has, or None where that is more than room. The two upper ones come first, so that a base of 0 tells a dart without spans.
pub fn count_all(
    links: &[u16],
    spans: &[i32],
    w: &mut [u16],
    v: &mut [u16],
    m: usize,
    n: usize,
    room: usize,
) -> Option<usize>
    requires { Sound m n links.now spans.now w.old v.old room × (0 < m) }
    ensures value { or_past room result ≤ room → or_past room result ≡ 2 * sum_below n (base w.new n 0) }
    ensures tallied { (M : Map) → Reads M m n links.now spans.now → Tallied M m n room w.new (or_past room result) }
    ensures within { InRoom room result }
{
    let mut total = upper::count_upper(links, spans, w, m, n, room)?;
    for k in 0..m - 1 {
        total = count_level(links, spans, w, v, m, n, k, total, room)?;
    }
    Some(total)
}
