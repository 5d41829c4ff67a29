// The pieces of a cell's darts, each added to the dart's base.
#![tactic(auto)]

ghost use Rattle.std.specs.Prelude.{◌≡◌, slice_index};
ghost use Rattle.kernel.specs.Room.{or_past, InRoom};
ghost use Rattle.ends.specs.Key.{ends_at};
ghost use Rattle.census.specs.Cell.{pieces_of, Nextable, Countable, Counted};

// How many pieces the dart at q has: none where it has no spans, and as many as the one before it in the cell where the two have the same spans, since those are known.
fn count_next(
    v: &[u16],
    half: usize,
    ends: usize,
    spans: &[i32],
    w: &[u16],
    from: usize,
    q: usize,
    last: usize,
) -> usize
    requires { Nextable v.now half ends spans.now w.now from q last }
    ensures { result ≡ pieces_of spans.now (ends_at v.now half ends) (slice_index w.now q) }
{
    let e = kernel::get(w, q);
    if span::row_length(spans, e) == 0 {
        return 0;
    }
    if from < q {
        if span::same_spans(spans, kernel::get(w, q - 1), e) {
            return last;
        }
    }
    walk::count::count_pieces(v, half, ends, spans, e)
}

// The darts stand at the places from .. to of w, and the ends of their cell in a half of v. What is counted then; None where that is more than room.
pub fn count_cell(
    v: &[u16],
    half: usize,
    ends: usize,
    spans: &[i32],
    w: &mut [u16],
    n: usize,
    from: usize,
    to: usize,
    total: usize,
    room: usize,
) -> Option<usize>
    requires { Countable v.now half ends spans.now w.old n from to total room }
    ensures { Counted (pieces_of spans.now (ends_at v.now half ends)) n w.old from to total room w.new (or_past room result) × InRoom room result }
{
    let mut sum = total;
    let mut last = 0;
    for q in from..to {
        let e = kernel::get(w, q);
        let c = count_next(v, half, ends, spans, w, from, q, last);
        sum += 2 * c;
        if room < sum {
            return None;
        }
        base::add_base(w, n, e, c);
        last = c;
    }
    Some(sum)
}
