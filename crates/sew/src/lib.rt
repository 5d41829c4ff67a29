// SEW on lent tables.
#![tactic(auto)]

pub mod agree;
pub mod pair;

ghost use Rattle.std.specs.Prelude.{◌≡◌, ℕ, ◌+◌, ◌<◌, ◌≤◌, length, OnOk};
ghost use Rattle.paper.specs.Width.{link_width};
ghost use Rattle.paper.specs.Map.{Map};
ghost use Rattle.paper.specs.Refusal.{judge, number_of, answer_of};
ghost use Rattle.paper.specs.Step.{Maps, Room};
ghost use Rattle.paper.specs.declared.Command.TheVariants as command;
ghost use Rattle.hold.specs.Hold.{HasLinks};
ghost use Rattle.hold.specs.Rows.{columned};
ghost use Rattle.hold.specs.Stand.{PlanStands, Edited};
ghost use Rattle.fault.specs.Fault.{LinksFit};
ghost use Rattle.orbit.specs.Sparse.{queue, Sparse};
ghost use Rattle.sew.specs.Sewing.{Sewing, operand_tests};

use kernel::width;
use paper::refusal::Refusal;

// 12, 3, 4 and 14, which look at the command and its two darts.
#[tactic(auto, unfolding(crate::specs::Sewing::operand_tests, paper::specs::Refusal::judge))]
fn admit_sew(
    links: &[u16],
    m: usize,
    n: usize,
    axis: usize,
    a: usize,
    b: usize,
) -> Result<(), Refusal>
    requires { LinksFit links.now m n }
    ensures told { (M : Map) → HasLinks M m n links.now → number_of result ≡ (judge 0 (operand_tests M axis a b)).number }
    ensures served { OnOk result ((axis ≤ m) × ((a < n) × (b < n))) }
{
    if m == 0 {
        return Err(Refusal::NoPlan);
    }
    if m < axis {
        return Err(Refusal::OutOfRange);
    }
    if n <= a || n <= b {
        return Err(Refusal::NoSuchDart);
    }
    if orbit::link_at(links, a, axis) != a || orbit::link_at(links, b, axis) != b {
        return Err(Refusal::AlreadyLinked);
    }
    Ok(())
}

// Links each of the first t darts listed from one place of work on to the one listed from another, along the axis.
fn fasten(links: &mut [u16], w: &[u16], n: usize, axis: usize, from: usize, to: usize, t: usize)
    requires links_fit { LinksFit links.old axis n }
    requires sparse { Sparse from n w.now t × Sparse to n w.now t }
    requires t_in_bounds { (from + t ≤ length w.now) × (to + t ≤ length w.now) }
    ensures { (v : ℕ → ℕ) → ((q : ℕ) → q < t → v (queue from w.now q) ≡ queue to w.now q)
        → links.new ≡ columned link_width axis (queue from w.now) v t links.old }
{
    for q in 0..t {
        let d = kernel::get(w, from + q);
        kernel::put(links, d * width::LINKS + axis, kernel::get(w, to + q));
    }
}

// SEW. A and B are walked in step; what it costs is their darts.
#[tactic(auto, using(crate::proofs::Pairs::pairs_fit))]
pub fn sew(
    links: &mut [u16],
    places: &[i32],
    spans: &[i32],
    w: &mut [u16],
    m: usize,
    n: usize,
    axis: u8,
    a: u16,
    b: u16,
) -> Result<u16, Refusal>
    requires { Sewing m n links.old places.now spans.now w.old }
    ensures { (R : Room) (s : Maps) → PlanStands R s m n links.old places.now spans.now (length w.old)
        → Edited R s (command.Sew axis a b) (answer_of result) m n links.new places.now spans.now }
{
    let axis = usize::from(axis);
    let a = usize::from(a);
    let b = usize::from(b);
    admit_sew(links, m, n, axis, a, b)?;
    // The axes far from this one: those below the next lower, and those two or more above.
    let Some(t) = pair::walk(links, w, m, n, axis.saturating_sub(1), axis + 2, a, b) else {
        return Err(Refusal::NoPairing);
    };
    if !agree::all_agree(places, spans, w, m, n, axis, t) {
        return Err(Refusal::PairDisagrees);
    }
    fasten(links, w, n, axis, n, n + n, t);
    fasten(links, w, n, axis, n + n, n, t);
    Ok((t + t) as u16)
}
