// The objects that lifted darts carry: dart by dart of the plan, the rows of its lifted darts get the object of the span that covers their side.
// That span is one which the recursive search of `span` found: of several spans for the row itself or for one before it (`several`), of a single one for the dart's first row.
#![tactic(auto)]

mod several;

ghost use Rattle.std.specs.Prelude.{◌≡◌, ℕ, ◌+◌, ◌*◌, ◌<◌, ◌≤◌, length, slice_index_or, unsigned_abs};
ghost use Rattle.paper.specs.Width.{word_limit};
ghost use Rattle.paper.specs.Map.{no_span};
ghost use Rattle.paper.specs.Table.{owned_at, row_at};
ghost use Rattle.carry.specs.Carried.{carried_at, carried_rows, carried_all, settled, DueIn, Own, Within, Met, Carriable};

use kernel::width;

// Rows that are due: those from one up to another get one object. Darts of a parcel mostly follow each other and have one span, of one object, so that their rows are written at once.
#[derive(Clone, Copy)]
pub struct Due {
    pub from: usize,
    pub to: usize,
    pub object: usize,
}

// The object of span j of d's row.
fn object_at(spans: &[i32], d: usize, j: usize) -> usize
    requires { Own spans.now d × (j < length (row_at spans.now d)) }
    ensures { (result ≡ unsigned_abs (slice_index_or (owned_at spans.now d) j no_span).object) × (result < word_limit) }
{
    let object = kernel::at(spans, d * width::SPANS + (3 + width::PER_SPAN * j));
    object as usize
}

// The rows that are due get their object.
fn settle(oo: &mut [u16], due: Due)
    requires { DueIn due (length oo.old) }
    ensures { oo.new ≡ settled due oo.old }
{
    let Due { from, to, object } = due;
    for q in from..to {
        kernel::put(oo, q, object);
    }
}

// The rows behind those that are due, up to one, get an object: they are due with them where it is the same, else those are settled first.
fn put_off(oo: &mut [u16], due: Due, to: usize, object: usize) -> Due
    requires { DueIn due (length oo.old) × ((due.to ≤ to) × ((to ≤ length oo.old) × ((to < word_limit) × (object < word_limit)))) }
    ensures due_in { DueIn result (length oo.new) × (result.to ≡ to) }
    ensures oo_after { settled result oo.new ≡ carried_rows (λ (q : ℕ). object) due.to to (settled due oo.old) }
{
    if object == due.object {
        return Due {
            from: due.from,
            to,
            object,
        };
    }
    settle(oo, due);
    Due {
        from: due.to,
        to,
        object,
    }
}

// The rows of a dart with several spans, behind those that are due.
fn carry_several(
    oo: &mut [u16],
    spans: &[i32],
    op: &[i32],
    m: usize,
    d: usize,
    all: usize,
    to: usize,
    due: Due,
) -> Due
    requires own { Own spans.now d × (all ≡ length (row_at spans.now d)) }
    requires within { Within m to op.now (length oo.old) × (Met spans.now op.now m d due.to to × DueIn due (length oo.old)) }
    ensures due_in { DueIn result (length oo.new) × (result.to ≡ to) }
    ensures oo_after { settled result oo.new ≡ carried_rows (carried_at spans.now op.now m d) due.to to (settled due oo.old) }
{
    settle(oo, due);
    several::carry_rows(oo, spans, op, m, d, all, due.to, to);
    Due {
        from: to,
        to,
        object: 0,
    }
}

// The rows of a dart with one span, behind those that are due: the span that the search finds for the first of them covers the sides of all.
fn carry_one(
    oo: &mut [u16],
    spans: &[i32],
    op: &[i32],
    m: usize,
    d: usize,
    to: usize,
    due: Due,
) -> Due
    requires own { Own spans.now d × ((length (row_at spans.now d) ≡ 1) × (due.to < to)) }
    requires within { Within m to op.now (length oo.old) × (Met spans.now op.now m d due.to to × DueIn due (length oo.old)) }
    ensures due_in { DueIn result (length oo.new) × (result.to ≡ to) }
    ensures oo_after { settled result oo.new ≡ carried_rows (carried_at spans.now op.now m d) due.to to (settled due oo.old) }
{
    let q = due.to;
    let t = kernel::at(op, q * width::PLACES + m);
    let left = span::search(spans, d * width::SPANS + 1, 1, t, q % 2 == 0);
    put_off(oo, due, to, object_at(spans, d, 1 - left))
}

// The same where it has one span or more.
fn carry_spans(
    oo: &mut [u16],
    spans: &[i32],
    op: &[i32],
    m: usize,
    d: usize,
    all: usize,
    to: usize,
    due: Due,
) -> Due
    requires own { Own spans.now d × ((all ≡ length (row_at spans.now d)) × (due.to < to)) }
    requires within { Within m to op.now (length oo.old) × (Met spans.now op.now m d due.to to × DueIn due (length oo.old)) }
    ensures due_in { DueIn result (length oo.new) × (result.to ≡ to) }
    ensures oo_after { settled result oo.new ≡ carried_rows (carried_at spans.now op.now m d) due.to to (settled due oo.old) }
{
    if all == 1 {
        return carry_one(oo, spans, op, m, d, to, due);
    }
    carry_several(oo, spans, op, m, d, all, to, due)
}

// The rows of plan dart d, behind those that are due; its last ones, two for each of its spans, begin at row top. What is due then.
// A dart that has no rows below those has none, and its row of spans is not looked at.
fn carry_dart(
    oo: &mut [u16],
    spans: &[i32],
    op: &[i32],
    m: usize,
    d: usize,
    top: usize,
    due: Due,
) -> Due
    requires own { Own spans.now d × (Within m (top + length (row_at spans.now d) * 2) op.now (length oo.old) × Met spans.now op.now m d due.to (top + length (row_at spans.now d) * 2)) }
    requires due_in { DueIn due (length oo.old) × ((due.to ≤ top) × (top ≡ due.to → length (row_at spans.now d) ≡ 0)) }
    ensures due_in_2 { DueIn result (length oo.new) × (result.to ≡ top + length (row_at spans.now d) * 2) }
    ensures oo_after { settled result oo.new ≡ carried_rows (carried_at spans.now op.now m d) due.to result.to (settled due oo.old) }
{
    if top == due.to {
        return due;
    }
    let all = span::row_length(spans, d);
    carry_spans(oo, spans, op, m, d, all, top + all * 2, due)
}

// The rows of every plan dart. Half m mod 2 of the bases in w has the number of each dart's first lifted dart at the top level.
pub fn carry(oo: &mut [u16], spans: &[i32], op: &[i32], w: &[u16], m: usize, n: usize)
    requires { Carriable spans.now op.now w.now m n (length oo.old) }
    ensures { oo.new ≡ carried_all spans.now op.now w.now m n n oo.old }
{
    let mut due = Due {
        from: 0,
        to: 0,
        object: 0,
    };
    for d in 0..n {
        due = carry_dart(oo, spans, op, m, d, base::base(w, n, m % 2, d), due);
    }
    settle(oo, due);
}
