// Floods: the orbit of a dart under some axes, the sweep over all cells, and the count of cells.
// Work holds an index for each dart and a queue of darts behind it, and is never cleared: a flood costs its orbit and the links there.
// It is a lent table, so where the queue ends goes from call to call beside it.
#![tactic(auto)]

ghost use Rattle.std.specs.Prelude.{◌≡◌, ◌+◌, ◌*◌, ◌<◌, ◌≤◌, true, false, length};
ghost use Rattle.paper.specs.Width.{link_width, dart_limit};
ghost use Rattle.paper.specs.Map.{Map};
ghost use Rattle.paper.specs.Orbit.{orbit};
ghost use Rattle.paper.specs.Cell.{cells};
ghost use Rattle.orbit.specs.Sparse.{Sparse, In, is_in, pushed};
ghost use Rattle.kernel.specs.Link.{alpha};
ghost use Rattle.hold.specs.Hold.{HasLinks};
ghost use Rattle.orbit.specs.Flood.{axes, Ready, Shut, Looked, Around, Flooded, Listed, Swept, Met};

use kernel::width;

// The dart that d is linked to along axis j.
pub fn link_at(links: &[u16], d: usize, j: usize) -> usize
    requires { (d ≤ dart_limit) × ((j < link_width) × (d * link_width + j < length links.now)) }
    ensures { (result ≡ alpha links.now j d) × (result < 65536) }
{
    kernel::get(links, d * width::LINKS + j)
}

// Is axis j below lo, or from hi up?
pub fn on(j: usize, lo: usize, hi: usize) -> bool
    ensures { result ≡ axes lo hi j }
{
    j < lo || hi <= j
}

// Is dart e among the first t of the queue that stands from `at` on?
#[tactic(auto, unfolding(crate::specs::Sparse::is_in))]
pub fn has(work: &[u16], at: usize, t: usize, e: usize) -> bool
    requires { (e < length work.now) × (at + t ≤ length work.now) }
    ensures { result ≡ is_in at work.now t e }
{
    let s = kernel::get(work, e);
    s < t && kernel::get(work, at + s) == e
}

// Dart g goes to the queue's end.
fn push(work: &mut [u16], n: usize, t: usize, g: usize)
    requires { (n ≤ dart_limit) × ((n + n ≤ length work.old) × ((t < n) × (g < n))) }
    ensures { work.new ≡ pushed n work.old t g }
{
    kernel::put(work, g, t);
    kernel::put(work, n + t, g);
}

// Looks from e along axis j: a dart that is not in the set yet goes to the queue's end. Where the queue ends then.
pub fn look(
    links: &[u16],
    work: &mut [u16],
    m: usize,
    n: usize,
    lo: usize,
    hi: usize,
    e: usize,
    j: usize,
    t: usize,
) -> usize
    requires ready { Ready m n links.now work.old }
    requires e_lt_n { (e < n) × (j ≤ m) }
    requires sparse { Sparse n n work.old t }
    ensures { Looked (alpha links.now) (axes lo hi) n e j work.old t work.new result }
{
    if !on(j, lo, hi) {
        return t;
    }
    let g = link_at(links, e, j);
    if has(work, n, t, g) {
        return t;
    }
    push(work, n, t, g);
    t + 1
}

// Looks from e along each of the axes.
fn look_around(
    links: &[u16],
    work: &mut [u16],
    m: usize,
    n: usize,
    lo: usize,
    hi: usize,
    e: usize,
    t: usize,
) -> usize
    requires ready { Ready m n links.now work.old }
    requires e_lt_n { e < n }
    requires sparse { Sparse n n work.old t }
    ensures { Around (alpha links.now) m (axes lo hi) n e work.old t work.new result }
{
    let mut u = t;
    for j in 0..=m {
        u = look(links, work, m, n, lo, hi, e, j, u);
    }
    u
}

// The orbit of d goes behind the first t of the queue. Where the queue ends then.
pub fn flood(
    links: &[u16],
    work: &mut [u16],
    m: usize,
    n: usize,
    lo: usize,
    hi: usize,
    d: usize,
    t: usize,
) -> usize
    requires ready { Ready m n links.now work.old }
    requires d_lt_n { d < n }
    requires sparse { Sparse n n work.old t }
    requires shut { Shut (alpha links.now) m (axes lo hi) n work.old t }
    requires fact { In n work.old t d → ⊥ }
    ensures { Flooded (alpha links.now) m (axes lo hi) n d work.old t work.new result }
{
    push(work, n, t, d);
    let mut tail = t + 1;
    let mut head = t;
    // The queue grows while it is read.
    while head < tail {
        let e = kernel::get(work, n + head);
        tail = look_around(links, work, m, n, lo, hi, e, tail);
        head += 1;
    }
    tail
}

// The orbit of d alone, from the queue's start on. How many darts it has.
pub fn list(
    links: &[u16],
    work: &mut [u16],
    m: usize,
    n: usize,
    lo: usize,
    hi: usize,
    d: usize,
) -> usize
    requires ready { Ready m n links.now work.old }
    requires d_lt_n { d < n }
    ensures { Listed n (orbit (alpha links.now) m (axes lo hi) n d) work.new result }
{
    flood(links, work, m, n, lo, hi, d, 0)
}

// A sweep's turn at d: floods from it, unless an orbit before has it. Where the queue ends then; it is longer where d began a new orbit.
pub fn sweep(
    links: &[u16],
    work: &mut [u16],
    m: usize,
    n: usize,
    lo: usize,
    hi: usize,
    d: usize,
    t: usize,
) -> usize
    requires ready { Ready m n links.now work.old }
    requires d_lt_n { d < n }
    requires swept { Swept (alpha links.now) m (axes lo hi) n work.old t d }
    ensures { Met (alpha links.now) m (axes lo hi) n d work.old t work.new result }
{
    if has(work, n, t, d) {
        return t;
    }
    flood(links, work, m, n, lo, hi, d, t)
}

// The number of i-cells.
pub fn count_cells(links: &[u16], work: &mut [u16], m: usize, n: usize, i: usize) -> usize
    requires ready { Ready m n links.now work.old }
    requires i_le_m { i ≤ m }
    ensures value { (M : Map) → HasLinks M m n links.now → result ≡ cells M i }
    ensures upper_bound { result ≤ n }
{
    let mut t = 0;
    let mut k = 0;
    for d in 0..n {
        let u = sweep(links, work, m, n, i, i + 1, d, t);
        if t < u {
            k += 1;
        }
        t = u;
    }
    k
}
