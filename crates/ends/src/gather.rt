// The ends of the rows of some darts, gathered dart by dart. Neighbouring darts mostly have the same spans, and those that are known, of whatever object, are not joined again.
ghost use Rattle.std.specs.Prelude.{◌≡◌};
ghost use Rattle.kernel.specs.Room.{or_past, InRoom};
ghost use Rattle.ends.specs.Join.{Held};
ghost use Rattle.ends.specs.Gather.{darts, row_ends, known_by, known, Gatherable, Listed};
ghost use Rattle.ends.specs.Gathered.{half_of, ends_in};

use crate::join;

// The dart at q has the spans of the one that stands so many places before it.
fn is_known_by(spans: &[i32], work: &[u16], from: usize, q: usize, back: usize) -> bool
    requires { Listed spans.now work.now from q }
    ensures { result ≡ known_by spans.now work.now from q back }
{
    if q - from < back {
        return false;
    }
    span::same_spans(spans, kernel::get(work, q - back), kernel::get(work, q))
}

// It has no spans, or those of one of the two darts before it.
fn is_known(spans: &[i32], work: &[u16], from: usize, q: usize) -> bool
    requires { Listed spans.now work.now from q }
    ensures { result ≡ known spans.now work.now from q }
{
    if span::row_length(spans, kernel::get(work, q)) == 0 {
        return true;
    }
    if is_known_by(spans, work, from, q, 1) {
        return true;
    }
    is_known_by(spans, work, from, q, 2)
}

// In which half of the work they stand, and how many they are.
#[derive(Clone, Copy)]
pub struct Gathered {
    pub half: usize,
    pub ends: usize,
}

// The darts stand at the places from .. to of the other work. None where their ends are more than room.
pub fn gather(
    v: &mut [u16],
    room: usize,
    spans: &[i32],
    work: &[u16],
    from: usize,
    to: usize,
) -> Option<Gathered>
    requires { Gatherable v.old room spans.now work.now from to }
    ensures { Held (row_ends spans.now (darts work.now from to)) v.new (half_of result) room (or_past room (ends_in result)) × InRoom room (ends_in result) }
{
    let mut half: usize = 0;
    let mut ends: usize = 0;
    for q in from..to {
        if is_known(spans, work, from, q) {
            continue;
        }
        let e = kernel::get(work, q);
        ends = join::join(v, half, ends, room, spans, e)?;
        half = 1 - half;
    }
    Some(Gathered { half, ends })
}
