// NEW: a plan with no darts.
ghost use Rattle.std.specs.Prelude.{◌≡◌, ℕ, ◌*◌, ◌≤◌, length, if◌then◌else◌};
ghost use Rattle.paper.specs.Width.{link_width, place_width, span_width, dart_limit};
ghost use Rattle.paper.specs.Refusal.{judge, accepted, number_of, answer_of};
ghost use Rattle.paper.specs.Step.{Maps, Room, refusals};
ghost use Rattle.paper.specs.declared.Command.TheVariants as command;
ghost use Rattle.hold.specs.Stand.{PlanStands, Edited};

use kernel::width;
use paper::refusal::Refusal;

// Refused where no new plan has this dimension.
#[tactic(auto, unfolding(paper::specs::Step::refusals, paper::specs::Refusal::judge))]
fn admit_new(dimension: usize) -> Result<(), Refusal>
    ensures { (R : Room) (s : Maps) → number_of result ≡ (judge 0 (refusals R s (command.New dimension))).number }
{
    if dimension < 1 || width::NEW_LIMIT < dimension {
        return Err(Refusal::OutOfRange);
    }
    Ok(())
}

// The rows of the old plan's n darts become 0, and nothing else is written: behind them the tables are 0 already.
// An accepted command leaves the new dimension and no darts.
pub fn new(
    links: &mut [u16],
    places: &mut [i32],
    spans: &mut [i32],
    m: usize,
    n: usize,
    dimension: u8,
) -> Result<u16, Refusal>
    requires { (n ≤ dart_limit) × ((n * link_width ≤ length links.old) × ((n * place_width ≤ length places.old) × (n * span_width ≤ length spans.old))) }
    ensures { (R : Room) (s : Maps) (w : ℕ) → PlanStands R s m n links.old places.old spans.old w
        → Edited R s (command.New dimension) (answer_of result) (if accepted (answer_of result) then dimension else m) (if accepted (answer_of result) then 0 else n) links.new places.new spans.new }
{
    admit_new(usize::from(dimension))?;
    kernel::clear(links, 0, n * width::LINKS, 0);
    kernel::clear(places, 0, n * width::PLACES, 0);
    kernel::clear(spans, 0, n * width::SPANS, 0);
    Ok(0)
}
