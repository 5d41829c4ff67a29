// PLACE: one coordinate of a whole corner.
ghost use Rattle.std.specs.Prelude.{◌≡◌, ◌*◌, ◌<◌, ◌≤◌, List, length, ℤ, OnOk};
ghost use Rattle.paper.specs.Width.{place_width};
ghost use Rattle.paper.specs.Map.{count};
ghost use Rattle.paper.specs.Refusal.{judge, number_of, answer_of};
ghost use Rattle.paper.specs.Step.{Maps, Room, refusals};
ghost use Rattle.paper.specs.declared.Command.TheVariants as command;
ghost use Rattle.hold.specs.Rows.{columned};
ghost use Rattle.hold.specs.Stand.{PlanStands, Edited};
ghost use Rattle.orbit.specs.Sparse.{queue};
ghost use Rattle.orbit.specs.Flood.{Ready};
ghost use Rattle.edit.specs.Queue.{QueueIn};

use kernel::width;
use paper::refusal::Refusal;

// Refused where there is no plan, no such coordinate or no such dart.
#[tactic(auto, unfolding(paper::specs::Step::refusals, paper::specs::Refusal::judge))]
fn admit_place(m: usize, n: usize, dart: usize, axis: usize) -> Result<(), Refusal>
    ensures told { (R : Room) (s : Maps) (z : ℤ) → s.plan.dim ≡ m → count s.plan ≡ n
        → number_of result ≡ (judge 0 (refusals R s (command.Place dart axis z))).number }
    ensures served { OnOk result ((axis < m) × (dart < n)) }
{
    if m == 0 {
        return Err(Refusal::NoPlan);
    }
    if m <= axis {
        return Err(Refusal::OutOfRange);
    }
    if n <= dart {
        return Err(Refusal::NoSuchDart);
    }
    Ok(())
}

// Coordinate `axis` of the first t darts of the queue becomes z.
fn put_coordinates(places: &mut [i32], w: &[u16], n: usize, t: usize, axis: usize, z: i32)
    requires queue_in { QueueIn n w.now t }
    requires axis_lt_place_width { (axis < place_width) × (n * place_width ≤ length places.old) }
    ensures { places.new ≡ columned place_width axis (queue n w.now) (λ d. z) t places.old }
{
    for d in &w[n..n + t] {
        places[usize::from(*d) * width::PLACES + axis] = z;
    }
}

// Places is the only table that is written. The value is the number of darts in the corner.
pub fn place(
    links: &[u16],
    places: &mut [i32],
    w: &mut [u16],
    m: usize,
    n: usize,
    dart: u16,
    axis: u8,
    coordinate: i32,
) -> Result<u16, Refusal>
    requires ready { Ready m n links.now w.old }
    requires place_width_in_bounds { n * place_width ≤ length places.old }
    ensures { (R : Room) (s : Maps) (ss : List ℤ) → PlanStands R s m n links.now places.old ss (length w.old)
        → Edited R s (command.Place dart axis coordinate) (answer_of result) m n links.now places.new ss }
{
    let dart = usize::from(dart);
    let axis = usize::from(axis);
    admit_place(m, n, dart, axis)?;
    let t = orbit::list(links, w, m, n, 0, 1, dart);
    put_coordinates(places, w, n, t, axis, coordinate);
    Ok(t as u16)
}
