// The calls that Rust and C link, under plain names. Each has the contract of the call that it passes on.
#![tactic(auto)]

ghost use Rattle.std.specs.Prelude.{◌≡◌, ◌≤◌, length};
ghost use Rattle.paper.specs.Below.{onto};
ghost use Rattle.paper.specs.Table.{lent, lent_lifted, lifted_lengths, lifted_capacity};
ghost use Rattle.paper.specs.Call.{check, lift_call, lift_leaves, pieces_call, pieces_memory, row_call, looseness};
ghost use Rattle.cells.specs.Call.{cells_call};
ghost use Rattle.counts.specs.Call.{counts_call, counts_memory};
ghost use Rattle.checker.specs.Exactly.{Exactly};
ghost use Rattle.lift.specs.Holding.{LeavesLift};
ghost use Rattle.table.specs.Copy.{written};
ghost use Rattle.paper.specs.Command.{read_at};
ghost use Rattle.command.specs.Flat.{flat_of, noted};
ghost use Rattle.run.specs.Ran.{lent_to_run, Ran};
ghost use Rattle.program.specs.Printed.{text_room, printed};
ghost use Rattle.laremban.specs.Version.{version};

use paper::{Answer, Ended, Looseness, Pairs};

// The version of this interface, which `include/laremban.h` and `rust/laremban` have too; `specs/Version.antt` tells what raises it. A caller that was made for another one
// must not go on: its tables may have other widths, its arguments another order.
const VERSION: u32 = 3;

#[unsafe(no_mangle)]
pub extern "C" fn laremban_version() -> u32
    ensures { result ≡ version }
{
    VERSION
}

// The row call: a function that is exported can't return a part of a table, so the row is copied.
#[unsafe(no_mangle)]
pub extern "C" fn laremban_row<'a>(
    plan: &'a [u16],
    lifted: &'a [u16],
    side: u8,
    dart: usize,
    out: &mut [u16],
) -> usize
    ensures value { result ≡ length (written (row_call plan.now lifted.now side dart) out.old) }
    ensures out_after { out.new ≡ onto (written (row_call plan.now lifted.now side dart) out.old) out.old }
{
    table::links::copy_row(plan, lifted, side, dart, out)
}

#[unsafe(no_mangle)]
pub extern "C" fn laremban_looseness(links: &[u16], dimension: u8, dart: usize) -> Looseness
    ensures { result ≡ looseness links.now dimension dart }
{
    table::free::looseness(links, dimension, dart)
}

// The number of cells of an axis, of raw tables.
#[unsafe(no_mangle)]
pub extern "C" fn laremban_cells<'a>(
    links: &'a [u16],
    places: &'a [i32],
    spans: &'a [i32],
    work: &mut [u16],
    dimension: u8,
    count: usize,
    axis: u8,
) -> Answer
    ensures { result ≡ cells_call (lent links.now places.now spans.now (length work.old)) dimension count axis }
{
    Answer::from(cells::count(links, places, spans, work, dimension, count, axis))
}

// The numbers of cells of all axes, of raw tables: they go to the start of the memory.
#[unsafe(no_mangle)]
pub extern "C" fn laremban_counts<'a>(
    links: &'a [u16],
    places: &'a [i32],
    spans: &'a [i32],
    work: &mut [u16],
    dimension: u8,
    count: usize,
    memory: &mut [u16],
) -> Answer
    ensures value { result ≡ counts_call (lent links.now places.now spans.now (length work.old)) dimension count (length memory.old) }
    ensures memory_after { memory.new ≡ counts_memory (lent links.now places.now spans.now (length work.old)) dimension count memory.old }
{
    Answer::from(counts::counts(links, places, spans, work, dimension, count, memory))
}

// The check of raw tables.
#[unsafe(no_mangle)]
pub extern "C" fn laremban_check<'a>(
    links: &'a [u16],
    places: &'a [i32],
    spans: &'a [i32],
    work: &'a [u16],
    dimension: u8,
    count: usize,
) -> Answer
    ensures told { result ≡ check (lent links.now places.now spans.now (length work.now)) dimension count }
    ensures accepted { Exactly (lent links.now places.now spans.now (length work.now)) dimension count result.number }
{
    Answer::from(checker::check(links, places, spans, work, dimension, count))
}

// The command at a place, as five numbers that are written to the start of out.
#[unsafe(no_mangle)]
pub extern "C" fn laremban_decode(bytes: &[u8], at: usize, out: &mut [i32]) -> usize
    ensures value { result ≡ (read_at bytes.now at).next }
    ensures out_after { out.new ≡ noted (flat_of (read_at bytes.now at).command) out.old }
{
    command::flat::decode_into(bytes, at, out)
}

// The pieces call: the pairs of ends go to the start of the memory.
#[unsafe(no_mangle)]
pub extern "C" fn laremban_pieces<'a>(
    links: &'a [u16],
    places: &'a [i32],
    spans: &'a [i32],
    work: &mut [u16],
    dimension: u8,
    count: usize,
    dart: usize,
    axis: u8,
    memory: &mut [i32],
) -> Pairs
    ensures value { result ≡ pieces_call (lent links.now places.now spans.now (length work.old)) dimension count dart axis (length memory.old) }
    ensures memory_after { memory.new ≡ pieces_memory (lent links.now places.now spans.now (length work.old)) dimension count dart axis memory.old }
{
    Pairs::from(pieces::pieces(
        links, places, spans, work, dimension, count, dart, axis, memory,
    ))
}

// The lift call: the lifted map goes to the lifted side's links ol and places op, and the objects that its darts carry to oo; v is its work.
#[unsafe(no_mangle)]
pub extern "C" fn laremban_lift<'a>(
    links: &'a [u16],
    places: &'a [i32],
    spans: &'a [i32],
    work: &mut [u16],
    dimension: u8,
    count: usize,
    ol: &mut [u16],
    op: &mut [i32],
    oo: &mut [u16],
    v: &mut [u16],
) -> Answer
    ensures told { result ≡ lift_call (lent links.now places.now spans.now (length work.old)) dimension count
        (lifted_capacity (lifted_lengths (lent_lifted ol.old op.old oo.old (length v.old)))) }
    ensures tables { lent_lifted ol.new op.new oo.new (length v.new)
        ≡ lift_leaves (lent links.now places.now spans.now (length work.old)) dimension count
        (lifted_capacity (lifted_lengths (lent_lifted ol.old op.old oo.old (length v.old))))
        (lent_lifted ol.old op.old oo.old (length v.old)) }
    ensures left { LeavesLift (lent links.now places.now spans.now (length work.old)) dimension count
        result.number result.value (lent_lifted ol.new op.new oo.new (length v.new)) }
{
    Answer::from(lift::lift(links, places, spans, work, dimension, count, ol, op, oo, v))
}

// The run: commands from bytes on both sides' tables, whatever they held, and a reply to each in the reply memory. The lifted side has links ol,
// places op and objects oo; w and v are the two works.
#[unsafe(no_mangle)]
pub extern "C" fn laremban_run(
    bytes: &[u8],
    links: &mut [u16],
    places: &mut [i32],
    spans: &mut [i32],
    w: &mut [u16],
    ol: &mut [u16],
    op: &mut [i32],
    oo: &mut [u16],
    v: &mut [u16],
    replies: &mut [u8],
) -> Ended
    ensures { Ran bytes.now (lent_to_run (lent links.old places.old spans.old (length w.old))
        (lent_lifted ol.old op.old oo.old (length v.old)) replies.old)
        result (lent links.new places.new spans.new (length w.new))
        (lent_lifted ol.new op.new oo.new (length v.new)) replies.new }
{
    run::run(bytes, links, places, spans, w, ol, op, oo, v, replies)
}

// What `liftrun` prints for an input: the text goes to the start of out, and the result is its length.
#[unsafe(no_mangle)]
pub extern "C" fn laremban_liftrun(bytes: &[u8], out: &mut [u8]) -> usize
    ensures told { result ≡ length (printed bytes.now out.old) }
    ensures memory { out.new ≡ onto (printed bytes.now out.old) out.old }
    ensures within { result ≤ text_room }
{
    program::text(bytes, out)
}
