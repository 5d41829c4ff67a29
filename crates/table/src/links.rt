// The row call: the six links of a dart, as a part of the link table of the chosen side.
ghost use Rattle.std.specs.Prelude.{◌≡◌, ◌*◌, ◌/◌, ◌<◌, ◌≤◌, length};
ghost use Rattle.paper.specs.Width.{link_width};
ghost use Rattle.paper.specs.Below.{onto};
ghost use Rattle.paper.specs.Call.{row_in, row_call, onward, row_place};
ghost use Rattle.table.specs.Copy.{written};

use kernel::width;

// Side 0 is the plan, 1 the lifted map. A dart beyond the rows, or another side, gives an empty part of the plan's table.
// The lifted map's table may be lent for longer than the plan's.
pub fn row<'a, 'b: 'a>(plan: &'a [u16], lifted: &'b [u16], side: u8, dart: usize) -> &'a [u16]
    ensures result_value { result.now ≡ row_call plan.now lifted.now side dart }
    ensures ref_ptr_value { result.ref_ptr ≡ row_place plan.now lifted.now plan.entry.ref_ptr lifted.entry.ref_ptr side dart }
{
    if side == 0 {
        if dart < plan.len() / width::LINKS {
            return whole_row(plan, dart);
        }
        return &plan[..0];
    }
    if side == 1 {
        if dart < lifted.len() / width::LINKS {
            return shorter(whole_row(lifted, dart), plan);
        }
        return &plan[..0];
    }
    &plan[..0]
}

// The same part, lent for as long as another table is.
fn shorter<'a, 'b: 'a>(part: &'b [u16], _other: &'a [u16]) -> &'a [u16]
    ensures { (result.now ≡ part.now) × (result.ref_ptr ≡ part.entry.ref_ptr) }
{
    part
}

// Six numbers from the start of the dart's row on.
fn whole_row<'a>(links: &'a [u16], dart: usize) -> &'a [u16]
    requires { dart < length links.now / link_width }
    ensures result_value { result.now ≡ row_in links.now dart }
    ensures ref_ptr_value { result.ref_ptr ≡ onward links.entry.ref_ptr (dart * link_width) }
{
    let start = dart * width::LINKS;
    let end = start + width::LINKS;
    &links[start..end]
}

// For a caller who can't be handed a part: the row is written to lent memory, whose other numbers stay, and the result is how many were written.
// Memory that is shorter than the row stays whole.
pub fn copy_row<'a>(
    plan: &'a [u16],
    lifted: &'a [u16],
    side: u8,
    dart: usize,
    out: &mut [u16],
) -> usize
    ensures value { result ≡ length (written (row_call plan.now lifted.now side dart) out.old) }
    ensures out_after { out.new ≡ onto (written (row_call plan.now lifted.now side dart) out.old) out.old }
{
    let part = row(plan, lifted, side, dart);
    if out.len() < part.len() {
        return 0;
    }
    kernel::copy(part, part.len(), out);
    part.len()
}
