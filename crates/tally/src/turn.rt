// The count at a dart, in a sweep over the cells of a level. A dart without spans has no pieces, so that a cell is looked for only from a dart that has some.
ghost use Rattle.std.specs.Prelude.{◌≡◌, ◌+◌, ◌<◌, ◌≤◌, ◌||◌, ◌==◌};
ghost use Rattle.kernel.specs.Room.{or_past, InRoom};
ghost use Rattle.orbit.specs.Sparse.{In, is_in};
ghost use Rattle.orbit.specs.Flood.{Ready};
ghost use Rattle.base.specs.Base.{base, Bases};
ghost use Rattle.tally.specs.Level.{front, Whole, Queued, Turn, Fresh, Stepped};
ghost use Rattle.tally.specs.Tally.{tail_of, total_of};

// The cell of d at level k goes behind the queue. What stands behind the queue's room stays.
pub fn find_cell(
    links: &[u16],
    w: &mut [u16],
    m: usize,
    n: usize,
    k: usize,
    d: usize,
    t: usize,
) -> usize
    requires ready { Ready m n links.now w.old }
    requires d_lt_n { (d < n) × (k ≤ m) }
    requires whole { Whole m n k links.now w.old t }
    requires fact { In n (front n w.old) t d → ⊥ }
    ensures { Queued m n k links.now d w.old t w.new result }
{
    let all = n + n;
    orbit::flood(links, &mut w[..all], m, n, k, k + 1, d, t)
}

// Where the queue ends, and what is counted.
#[derive(Clone, Copy)]
pub struct Tally {
    pub tail: usize,
    pub total: usize,
}

// Nothing is to be counted at d: it has no spans, or it is in a cell before.
fn is_counted(w: &[u16], n: usize, d: usize, t: usize) -> bool
    requires bases { Bases w.now n }
    requires d_lt_n { (d < n) × (t ≤ n) }
    ensures { result ≡ (base w.now n 0 d == 0 || is_in n w.now t d) }
{
    if base::base(w, n, 0, d) == 0 {
        return true;
    }
    orbit::has(w, n, t, d)
}

// The cell of d is found, and its pieces counted. None where that is more than room, as in what follows.
fn count_found(
    links: &[u16],
    spans: &[i32],
    w: &mut [u16],
    v: &mut [u16],
    m: usize,
    n: usize,
    k: usize,
    d: usize,
    t: usize,
    total: usize,
    room: usize,
) -> Option<Tally>
    requires turn { Turn m n k links.now spans.now w.old v.old d t total room }
    requires fresh { Fresh n w.old d t }
    ensures { Stepped m n k links.now spans.now d w.old t room w.new (tail_of result) (or_past room (total_of result)) × InRoom room (total_of result) }
{
    let u = find_cell(links, w, m, n, k, d, t);
    let g = ends::gather::gather(v, room, spans, w, n + t, n + u)?;
    let total = census::count_cell(v, g.half, g.ends, spans, w, n, n + t, n + u, total, room)?;
    Some(Tally { tail: u, total })
}

// The sweep's turn at d.
pub fn count_turn(
    links: &[u16],
    spans: &[i32],
    w: &mut [u16],
    v: &mut [u16],
    m: usize,
    n: usize,
    k: usize,
    d: usize,
    t: usize,
    total: usize,
    room: usize,
) -> Option<Tally>
    requires { Turn m n k links.now spans.now w.old v.old d t total room }
    ensures { Stepped m n k links.now spans.now d w.old t room w.new (tail_of result) (or_past room (total_of result)) × InRoom room (total_of result) }
{
    if is_counted(w, n, d, t) {
        return Some(Tally { tail: t, total });
    }
    count_found(links, spans, w, v, m, n, k, d, t, total, room)
}
