// Two numbers for each dart, its bases, behind the queue in the plan's work.
#![tactic(auto)]

ghost use Rattle.std.specs.Prelude.{◌≡◌, ℕ, suc, ◌+◌, ◌*◌, ◌<◌, ◌≤◌, slice_set};
ghost use Rattle.paper.specs.Width.{dart_limit};
ghost use Rattle.paper.specs.Below.{sum_below};
ghost use Rattle.base.specs.Base.{slot, base, Bases};

// Base h of dart d.
pub fn base(w: &[u16], n: usize, h: usize, d: usize) -> usize
    requires bases { Bases w.now n }
    requires h_bound { (h ≤ 1) × (d < n) }
    ensures { (result ≡ base w.now n h d) × (result < 65536) }
{
    kernel::get(w, n + n + (d + d + h))
}

pub fn put_base(w: &mut [u16], n: usize, h: usize, d: usize, x: usize)
    requires bases { Bases w.old n }
    requires h_bound { (h ≤ 1) × ((d < n) × (x < 65536)) }
    ensures { w.new ≡ slice_set w.old (slot n h d) x }
{
    kernel::put(w, n + n + (d + d + h), x);
}

// x more in base 0 of dart d.
pub fn add_base(w: &mut [u16], n: usize, d: usize, x: usize)
    requires bases { Bases w.old n }
    requires d_lt_n { (d < n) × (base w.old n 0 d + x < 65536) }
    ensures { w.new ≡ slice_set w.old (slot n 0 d) (base w.old n 0 d + x) }
{
    let b = base(w, n, 0, d);
    put_base(w, n, 0, d, b + x);
}

// Both bases of dart d.
fn put_bases(w: &mut [u16], n: usize, d: usize, x: usize, y: usize)
    requires bases { Bases w.old n }
    requires d_lt_n { (d < n) × ((x < 65536) × (y < 65536)) }
    ensures { w.new ≡ slice_set (slice_set w.old (slot n 0 d) x) (slot n 1 d) y }
{
    put_base(w, n, 0, d, x);
    put_base(w, n, 1, d, y);
}

// Where base 0 was the number of a dart's pieces, it becomes the number of the dart's first lifted dart: twice the sum of those before it.
// Base 1 becomes the number past its last one.
pub fn bases(w: &mut [u16], n: usize)
    requires bases { Bases w.old n }
    requires n_bound { 2 * sum_below n (base w.old n 0) ≤ dart_limit }
    ensures by_index { (e : ℕ) → e < n → base w.new n 0 e ≡ 2 * sum_below e (base w.old n 0) }
    ensures by_index_2 { (e : ℕ) → e < n → base w.new n 1 e ≡ 2 * sum_below (suc e) (base w.old n 0) }
{
    let mut sum = 0;
    for d in 0..n {
        let next = sum + 2 * base(w, n, 0, d);
        put_bases(w, n, d, sum, next);
        sum = next;
    }
}
