// ADOPT: the plan becomes a copy of the lifted map, without spans. Only old and new rows are written.
ghost use Rattle.std.specs.Prelude.{◌≡◌, ℕ, ◌*◌, ◌<◌, ◌≤◌, List, length, OnOk, if◌then◌else◌};
ghost use Rattle.paper.specs.Table.{lent_lifted};
ghost use Rattle.paper.specs.Map.{count};
ghost use Rattle.paper.specs.Refusal.{judge, accepted, number_of, answer_of};
ghost use Rattle.paper.specs.Step.{Maps, Room, refusals};
ghost use Rattle.paper.specs.declared.Command.TheVariants.{Adopt};
ghost use Rattle.hold.specs.Stand.{PlanStands, LiftedStands, Edited};
ghost use Rattle.sides.specs.Rows.{rows_taken};
ghost use Rattle.sides.specs.Adopt.{Adoptable};

use kernel::{tail, width};
use paper::refusal::Refusal;

// Refused by 21 where nothing is lifted, then by 13 where the lifted map has more darts than room.
#[tactic(auto, unfolding(paper::specs::Step::refusals, paper::specs::Refusal::judge))]
fn admit_adopt(lm: usize, ln: usize, room: usize) -> Result<(), Refusal>
    ensures value { (R : Room) (s : Maps) → s.lifted.dim ≡ lm → count s.lifted ≡ ln → R.plan ≡ room → number_of result ≡ (judge 0 (refusals R s Adopt)).number }
    ensures ln_le_room { OnOk result (ln ≤ room) }
{
    if lm == 0 {
        return Err(Refusal::NothingLifted);
    }
    if room < ln {
        return Err(Refusal::PlanFull);
    }
    Ok(())
}

// The first k rows of another table, of `width` numbers each, come in place of a table's n. What is left of these gets the value `none`.
fn take_rows<T: Copy>(table: &mut [T], width: usize, n: usize, from: &[T], k: usize, none: T)
    requires { (0 < width) × ((k * width ≤ length table.old) × (k * width ≤ length from.now)) }
    ensures { table.new ≡ rows_taken none width n k from.now table.old }
{
    kernel::copy(from, k * width, table);
    tail::clear(table, width, k, n, none);
}

// The lifted map, whose tables are ol and op, has dimension lm and ln darts. What its darts carry is not taken, whatever it is.
pub fn adopt(
    links: &mut [u16],
    places: &mut [i32],
    spans: &mut [i32],
    n: usize,
    ol: &[u16],
    op: &[i32],
    lm: usize,
    ln: usize,
    room: usize,
) -> Result<u16, Refusal>
    requires { Adoptable links.old places.old spans.old n ol.now op.now ln room }
    ensures { (R : Room) (s : Maps) (oo : List ℕ) (m w v : ℕ)
        → PlanStands R s m n links.old places.old spans.old w
        → LiftedStands R s lm ln (lent_lifted ol.now op.now oo v) → R.plan ≡ room
        → Edited R s Adopt (answer_of result) (if accepted (answer_of result) then lm else m) (if accepted (answer_of result) then ln else n) links.new places.new spans.new }
{
    admit_adopt(lm, ln, room)?;
    take_rows(links, width::LINKS, n, ol, ln, 0);
    take_rows(places, width::PLACES, n, op, ln, 0);
    kernel::clear(spans, 0, n * width::SPANS, 0);
    Ok(ln as u16)
}
