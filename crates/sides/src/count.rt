// COUNT, on either side: the number of cells of an axis. Work is all that is written.
ghost use Rattle.std.specs.Prelude.{◌≡◌, ℕ, List, length, ℤ};
ghost use Rattle.paper.specs.Map.{Map};
ghost use Rattle.paper.specs.Refusal.{answer_of};
ghost use Rattle.paper.specs.Step.{Maps, Room, reply};
ghost use Rattle.paper.specs.Table.{lent_lifted};
ghost use Rattle.paper.specs.declared.Command.TheVariants.{Count};
ghost use Rattle.hold.specs.Hold.{HasLinks};
ghost use Rattle.hold.specs.Stand.{PlanStands, LiftedStands};
ghost use Rattle.orbit.specs.Flood.{Ready};
ghost use Rattle.sides.specs.Count.{counted};

use paper::refusal::Refusal;
use sizes::Sizes;

// A side's: refused where there is no map, then by 3.
#[tactic(auto, using(orbit::proofs::Refused::nonzero), unfolding(crate::specs::Count::counted, paper::specs::Refusal::judge, paper::specs::Refusal::accept))]
fn count_side(
    links: &[u16],
    work: &mut [u16],
    m: usize,
    n: usize,
    axis: usize,
    no_map: Refusal,
) -> Result<u16, Refusal>
    requires { Ready m n links.now work.old }
    ensures { (M : Map) → HasLinks M m n links.now → answer_of result ≡ counted no_map M axis }
{
    if m == 0 {
        return Err(no_map);
    }
    if m < axis {
        return Err(Refusal::OutOfRange);
    }
    let cells = orbit::count_cells(links, work, m, n, axis);
    Ok(cells as u16)
}

// The side that COUNT names: 12 where it is the plan and there is none, 21 where it is the lifted map and nothing is lifted. One that is neither is refused by 3, before its axis is looked at.
pub fn count(
    side: u8,
    axis: u8,
    sizes: Sizes,
    links: &[u16],
    w: &mut [u16],
    ol: &[u16],
    v: &mut [u16],
) -> Result<u16, Refusal>
    requires { Ready sizes.m sizes.n links.now w.old × Ready sizes.lm sizes.ln ol.now v.old }
    ensures { (R : Room) (s : Maps) (ps ss op : List ℤ) (oo : List ℕ)
        → PlanStands R s sizes.m sizes.n links.now ps ss (length w.old)
        → LiftedStands R s sizes.lm sizes.ln (lent_lifted ol.now op oo (length v.old))
        → answer_of result ≡ reply R s (Count side axis) }
{
    let axis = usize::from(axis);
    match side {
        0 => count_side(links, w, sizes.m, sizes.n, axis, Refusal::NoPlan),
        1 => count_side(ol, v, sizes.lm, sizes.ln, axis, Refusal::NothingLifted),
        _ => Err(Refusal::OutOfRange),
    }
}
