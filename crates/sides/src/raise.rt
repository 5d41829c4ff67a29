// LIFT: the lifted side becomes the lift of the plan. Only old and new rows are written.
ghost use Rattle.std.specs.Prelude.{◌≡◌, ℕ, suc, length, if◌then◌else◌};
ghost use Rattle.paper.specs.Table.{lent, lent_lifted};
ghost use Rattle.paper.specs.Refusal.{accepted, answer_of};
ghost use Rattle.paper.specs.Step.{Maps, Room};
ghost use Rattle.paper.specs.declared.Command.TheVariants.{Lift};
ghost use Rattle.hold.specs.Stand.{PlanStands, LiftedStands, Replaced};
ghost use Rattle.lift.specs.Lifted.{Liftable};

use kernel::width;
use paper::refusal::Refusal;

// 12 where there is no plan, 22 for one of the largest dimension, 20 for a lift with more darts than room. The lifted map, whose tables are ol, op and oo, had ln darts.
pub fn lift(
    links: &[u16],
    places: &[i32],
    spans: &[i32],
    w: &mut [u16],
    m: usize,
    n: usize,
    ol: &mut [u16],
    op: &mut [i32],
    oo: &mut [u16],
    v: &mut [u16],
    ln: usize,
    room: usize,
) -> Result<u16, Refusal>
    requires { Liftable (lent links.now places.now spans.now (length w.old)) m n (lent_lifted ol.old op.old oo.old (length v.old)) room }
    ensures { (R : Room) (s : Maps) (lm : ℕ)
        → PlanStands R s m n links.now places.now spans.now (length w.old)
        → LiftedStands R s lm ln (lent_lifted ol.old op.old oo.old (length v.old)) → R.lifted ≡ room
        → Replaced R s Lift (answer_of result) (if accepted (answer_of result) then suc m else lm) (if accepted (answer_of result) then (answer_of result).value else ln)
        (lent_lifted ol.new op.new oo.new (length v.new)) }
{
    if m == 0 {
        return Err(Refusal::NoPlan);
    }
    if width::DIMENSION as usize <= m {
        return Err(Refusal::TopDimension);
    }
    let raised = lift::lift_side(links, places, spans, w, m, n, ol, op, oo, v, ln, room);
    let Some(darts) = raised else {
        return Err(Refusal::TooLarge);
    };
    Ok(darts as u16)
}
