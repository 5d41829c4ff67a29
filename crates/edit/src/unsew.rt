// UNSEW: what is reached from a dart by axes far from one becomes free along it, and so do the partners there.
ghost use Rattle.std.specs.Prelude.{◌≡◌, ◌*◌, ◌<◌, ◌≤◌, List, length, ℤ, OnOk};
ghost use Rattle.paper.specs.Width.{link_width, dim_limit, dart_limit};
ghost use Rattle.paper.specs.Refusal.{judge, number_of, answer_of};
ghost use Rattle.paper.specs.Step.{Maps, Room, refusals};
ghost use Rattle.paper.specs.declared.Command.TheVariants as command;
ghost use Rattle.kernel.specs.Link.{alpha};
ghost use Rattle.hold.specs.Hold.{HasLinks};
ghost use Rattle.hold.specs.Rows.{columned};
ghost use Rattle.hold.specs.Stand.{PlanStands, Edited};
ghost use Rattle.orbit.specs.Sparse.{queue, Sparse};
ghost use Rattle.orbit.specs.Flood.{Ready};
ghost use Rattle.edit.specs.Queue.{QueueIn};
ghost use Rattle.edit.specs.Across.{Across};

use kernel::width;
use paper::refusal::Refusal;

// Refused where there is no plan, no such axis or no such dart, and where the dart is free already.
#[tactic(auto, unfolding(paper::specs::Step::refusals, paper::specs::Refusal::judge))]
fn admit_unsew(links: &[u16], m: usize, n: usize, axis: usize, a: usize) -> Result<(), Refusal>
    requires { (n ≤ dart_limit) × ((m ≤ dim_limit) × (n * link_width ≤ length links.now)) }
    ensures told { (R : Room) (s : Maps) → HasLinks s.plan m n links.now → number_of result ≡ (judge 0 (refusals R s (command.Unsew axis a))).number }
    ensures served { OnOk result ((axis ≤ m) × (a < n)) }
{
    if m == 0 {
        return Err(Refusal::NoPlan);
    }
    if m < axis {
        return Err(Refusal::OutOfRange);
    }
    if n <= a {
        return Err(Refusal::NoSuchDart);
    }
    if orbit::link_at(links, a, axis) == a {
        return Err(Refusal::AlreadyFree);
    }
    Ok(())
}

// Looks from each of the first t darts of the queue along one axis: a partner that is not in the set yet goes to the queue's end. Where the queue ends then.
fn look_across(links: &[u16], w: &mut [u16], m: usize, n: usize, axis: usize, t: usize) -> usize
    requires ready { Ready m n links.now w.old }
    requires axis_le_m { axis ≤ m }
    requires sparse { Sparse n n w.old t }
    ensures { Across (alpha links.now axis) n w.old t t w.new result }
{
    let mut u = t;
    for q in 0..t {
        let e = kernel::get(w, n + q);
        u = orbit::look(links, w, m, n, 0, 0, e, axis, u);
    }
    u
}

// The first t darts of the queue become free along the axis.
fn put_free_along(links: &mut [u16], w: &[u16], n: usize, t: usize, axis: usize)
    requires queue_in { QueueIn n w.now t }
    requires axis_lt_link_width { (axis < link_width) × (n * link_width ≤ length links.old) }
    ensures { links.new ≡ columned link_width axis (queue n w.now) (λ d. d) t links.old }
{
    for d in &w[n..n + t] {
        links[usize::from(*d) * width::LINKS + axis] = *d;
    }
}

// Links is the only table that is written. A partner may be one of the darts reached, so darts are listed once and the value is how many there are.
pub fn unsew(
    links: &mut [u16],
    w: &mut [u16],
    m: usize,
    n: usize,
    axis: u8,
    a: u16,
) -> Result<u16, Refusal>
    requires { Ready m n links.old w.old }
    ensures { (R : Room) (s : Maps) (ps ss : List ℤ) → PlanStands R s m n links.old ps ss (length w.old)
        → Edited R s (command.Unsew axis a) (answer_of result) m n links.new ps ss }
{
    let axis = usize::from(axis);
    let a = usize::from(a);
    admit_unsew(links, m, n, axis, a)?;
    // The axes far from this one: those below axis - 1, and those from axis + 2 on.
    let t = orbit::list(links, w, m, n, axis.saturating_sub(1), axis + 2, a);
    let u = look_across(links, w, m, n, axis, t);
    put_free_along(links, w, n, u, axis);
    Ok(u as u16)
}
