// DART: a new last dart, linked to itself.
ghost use Rattle.std.specs.Prelude.{◌≡◌, ℕ, suc, ◌*◌, ◌<◌, ◌≤◌, List, length, ℤ, OnOk, if◌then◌else◌};
ghost use Rattle.paper.specs.Width.{link_width, dart_limit};
ghost use Rattle.paper.specs.Map.{count};
ghost use Rattle.paper.specs.Refusal.{judge, accepted, number_of, answer_of};
ghost use Rattle.paper.specs.Step.{Maps, Room, refusals};
ghost use Rattle.paper.specs.declared.Command.TheVariants as command;
ghost use Rattle.hold.specs.Rows.{row_put};
ghost use Rattle.hold.specs.Stand.{PlanStands, Edited};

use kernel::width;
use paper::refusal::Refusal;

// Refused where there is no plan, and where it is full.
#[tactic(auto, unfolding(paper::specs::Step::refusals, paper::specs::Refusal::judge))]
fn admit_dart(m: usize, n: usize, room: usize) -> Result<(), Refusal>
    ensures told { (R : Room) (s : Maps) → s.plan.dim ≡ m → count s.plan ≡ n → R.plan ≡ room
        → number_of result ≡ (judge 0 (refusals R s command.Dart)).number }
    ensures served { OnOk result (n < room) }
{
    if m == 0 {
        return Err(Refusal::NoPlan);
    }
    if room <= n {
        return Err(Refusal::PlanFull);
    }
    Ok(())
}

// Dart d is free along every axis that a row has.
fn put_free(links: &mut [u16], d: usize)
    requires { (d ≤ dart_limit) × (suc d * link_width ≤ length links.old) }
    ensures { links.new ≡ row_put link_width d (λ i. d) link_width links.old }
{
    let at = d * width::LINKS;
    kernel::clear(links, at, at + width::LINKS, d as u16);
}

// One row of links is written: the new dart's rows of places and spans are 0 already. The value is its number.
// An accepted command leaves one dart more.
pub fn dart(links: &mut [u16], m: usize, n: usize, room: usize) -> Result<u16, Refusal>
    requires n_le_dart_limit { n ≤ dart_limit }
    requires link_width_in_bounds { n < room → suc n * link_width ≤ length links.old }
    ensures { (R : Room) (s : Maps) (ps ss : List ℤ) (w : ℕ) → PlanStands R s m n links.old ps ss w → R.plan ≡ room
        → Edited R s command.Dart (answer_of result) m (if accepted (answer_of result) then suc n else n) links.new ps ss }
{
    admit_dart(m, n, room)?;
    put_free(links, n);
    Ok(n as u16)
}
