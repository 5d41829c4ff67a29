// The darts reached from a and those reached from b are walked in step, and paired on the way.
// Work holds an index for each dart, A's darts behind it, and their partners behind those. It is never cleared: the walk costs its pairs and the links there.
ghost use Rattle.std.specs.Prelude.{◌≡◌, ◌+◌, ◌<◌, ◌≤◌, true, length};
ghost use Rattle.std.specs.Option.{MatchOption};
ghost use Rattle.paper.specs.Width.{dart_limit};
ghost use Rattle.kernel.specs.Link.{alpha};
ghost use Rattle.orbit.specs.Flood.{axes, Ready};
ghost use Rattle.sew.specs.Label.{Stood, Stepped, Around, Stuck};
ghost use Rattle.sew.specs.Pairs.{Pairs, Clash, Judged, Wrong, entered, Paired};

// What two darts are beside the pairs so far.
#[derive(Clone, Copy)]
enum Verdict {
    // They can't be a pair.
    Apart,
    // They are one of the pairs.
    Known,
    // They can be one more.
    New,
}

// May g and x be a pair beside the first t?
#[tactic(auto, using(crate::proofs::Pairs::pairs_fit))]
fn judge(w: &[u16], n: usize, t: usize, g: usize, x: usize) -> Verdict
    requires n_le_dart_limit { (n ≤ dart_limit) × ((n + n + n ≤ length w.now) × ((g < n) × (x < n))) }
    requires pairs { Pairs n w.now t }
    ensures { Judged n w.now t g x result }
{
    if orbit::has(w, n, t, g) {
        if kernel::get(w, n + n + kernel::get(w, g)) == x {
            return Verdict::Known;
        }
        return Verdict::Apart;
    }
    if orbit::has(w, n + n, t, g) {
        return Verdict::Apart;
    }
    if orbit::has(w, n, t, x) {
        return Verdict::Apart;
    }
    if orbit::has(w, n + n, t, x) {
        return Verdict::Apart;
    }
    if g == x {
        return Verdict::Apart;
    }
    Verdict::New
}

// The pair of g and x goes behind the first t.
fn enter(w: &mut [u16], n: usize, t: usize, g: usize, x: usize)
    requires { (n ≤ dart_limit) × ((n + n + n ≤ length w.old) × ((g < n) × ((x < n) × (t < n)))) }
    ensures { w.new ≡ entered n w.old t g x }
{
    kernel::put(w, g, t);
    kernel::put(w, x, t);
    kernel::put(w, n + t, g);
    kernel::put(w, n + n + t, x);
}

// Makes g and x a pair, if they can be one. How many pairs there are then.
fn take(w: &mut [u16], n: usize, t: usize, g: usize, x: usize) -> Option<usize>
    requires n_le_dart_limit { (n ≤ dart_limit) × ((n + n + n ≤ length w.old) × ((g < n) × (x < n))) }
    requires pairs { Pairs n w.old t }
    ensures { MatchOption result (Clash n w.old t g x) (λ u. Stood (Pairs n) n w.old t g x w.new u) }
{
    match judge(w, n, t, g, x) {
        Verdict::Apart => None,
        Verdict::Known => Some(t),
        Verdict::New => {
            enter(w, n, t, g, x);
            Some(t + 1)
        }
    }
}

// Goes from the pair of e and x along axis j. How many pairs there are then, unless what it leads to can't be a pair.
fn step(
    links: &[u16],
    w: &mut [u16],
    m: usize,
    n: usize,
    lo: usize,
    hi: usize,
    e: usize,
    x: usize,
    j: usize,
    t: usize,
) -> Option<usize>
    requires ready { Ready m n links.now w.old × (n + n + n ≤ length w.old) }
    requires e_lt_n { (e < n) × ((x < n) × (j ≤ m)) }
    requires pairs { Pairs n w.old t }
    ensures { MatchOption result ((axes lo hi j ≡ true) × Clash n w.old t (alpha links.now j e) (alpha links.now j x))
        (λ u. Stepped (alpha links.now) (alpha links.now) (axes lo hi) (Pairs n) n e x j w.old t w.new u) }
{
    if !orbit::on(j, lo, hi) {
        return Some(t);
    }
    let g = orbit::link_at(links, e, j);
    let y = orbit::link_at(links, x, j);
    take(w, n, t, g, y)
}

// Goes from the pair of e and x along each of the axes.
fn around(
    links: &[u16],
    w: &mut [u16],
    m: usize,
    n: usize,
    lo: usize,
    hi: usize,
    e: usize,
    x: usize,
    t: usize,
) -> Option<usize>
    requires ready { Ready m n links.now w.old × (n + n + n ≤ length w.old) }
    requires e_lt_n { (e < n) × (x < n) }
    requires pairs { Pairs n w.old t }
    ensures { MatchOption result (Stuck (alpha links.now) (alpha links.now) m (axes lo hi)
        (Wrong (alpha links.now) m (axes lo hi)) n e x w.old t)
        (λ u. Around (alpha links.now) (alpha links.now) m (axes lo hi) (Pairs n) n e x w.old t w.new u) }
{
    let mut u = t;
    for j in 0..=m {
        u = step(links, w, m, n, lo, hi, e, x, j, u)?;
    }
    Some(u)
}

// The pairs that a and b lead to by links of the axes, in work: how many, where there is a pairing. A `while`, since the list grows while it is read.
pub fn walk(
    links: &[u16],
    w: &mut [u16],
    m: usize,
    n: usize,
    lo: usize,
    hi: usize,
    a: usize,
    b: usize,
) -> Option<usize>
    requires ready { Ready m n links.now w.old × (n + n + n ≤ length w.old) }
    requires a_lt_n { (a < n) × (b < n) }
    ensures { MatchOption result (Wrong (alpha links.now) m (axes lo hi) a b)
        (λ t. Paired (alpha links.now) m (axes lo hi) n a b w.new t) }
{
    let mut tail = take(w, n, 0, a, b)?;
    let mut head = 0;
    while head < tail {
        let e = kernel::get(w, n + head);
        let x = kernel::get(w, n + n + head);
        tail = around(links, w, m, n, lo, hi, e, x, tail)?;
        head += 1;
    }
    Some(tail)
}
