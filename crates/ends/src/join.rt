// A row's ends joined to the ends gathered, in one pass over both.
ghost use Rattle.std.specs.Prelude.{◌≡◌, ◌+◌, ◌-◌, ◌*◌, ◌≤◌, length};
ghost use Rattle.paper.specs.Width.{work_width};
ghost use Rattle.paper.specs.Span.{ends_of};
ghost use Rattle.paper.specs.Table.{row_at};
ghost use Rattle.kernel.specs.Room.{or_past, InRoom};
ghost use Rattle.span.specs.Row.{RowIn};
ghost use Rattle.ends.specs.Join.{ends_with, NextEnd, NextOfRow, Passed, Copyable, Copied, Stopped, Held, Joinable};

use crate::key;

// The end at i of half p, or the limit past the last. A number and no Option: the limit lies above every key, so that one comparison serves.
fn end_or(v: &[u16], p: usize, i: usize, n: usize) -> usize
    requires { (p ≤ 1) × (n * work_width ≤ length v.now) }
    ensures { NextEnd v.now p i n result }
{
    if i < n {
        return key::get_end(v, p, i);
    }
    key::LIMIT
}

// The key of end j of e's row, or the limit past the last of its c ends, which lies above every key, so that one comparison serves.
fn row_end_or(spans: &[i32], e: usize, j: usize, c: usize) -> usize
    requires { RowIn spans.now e × (c ≡ length (ends_of (row_at spans.now e))) }
    ensures { NextOfRow (ends_of (row_at spans.now e)) j result }
{
    if j < c {
        return key::key(span::end_at(spans, e, j));
    }
    key::LIMIT
}

// How many a step passes of the ends gathered and of the row, and how many it keeps. Numbers and no flags: places go on by them.
#[derive(Clone, Copy)]
pub struct Step {
    pub gathered: usize,
    pub row: usize,
    pub kept: usize,
}

// The row's next end y is passed and kept. x is the next end gathered, not below y, and is passed with it where they are equal. z is the row's end after y:
// an end that stands twice in the row, where two spans touch, is kept the second time.
fn pass(x: usize, y: usize, z: usize) -> Step
    ensures { Passed x y z result.gathered result.row result.kept }
{
    if y == z {
        return Step {
            gathered: 0,
            row: 1, // its second time comes next
            kept: 0,
        };
    }
    if x == y {
        return Step {
            gathered: 1,
            row: 1,
            kept: 1,
        };
    }
    Step {
        gathered: 0,
        row: 1,
        kept: 1,
    }
}

// The ends of half p from place i on that lie below y go to the other half, from place m on, as long as there is room: how many.
fn copy_below(v: &mut [u16], p: usize, n: usize, room: usize, i: usize, m: usize, y: usize) -> usize
    requires { Copyable v.old p n room i m }
    ensures { Copied v.old p n room i m y v.new result × Stopped v.new p n room (i + result) (m + result) y }
{
    for k in 0..n - i {
        if m + k == room {
            return k;
        }
        let x = key::get_end(v, p, i + k);
        if y <= x {
            return k;
        }
        key::put_end(v, 1 - p, m + k, x);
    }
    n - i
}

// The ends of e's row go to the other half than p, each once, where none are gathered: then nothing has to be compared but an end and the next, as `merge` goes on. How many they are, where there is room for them.
fn copy_row(v: &mut [u16], p: usize, room: usize, spans: &[i32], e: usize) -> Option<usize>
    requires { Joinable v.old p 0 room spans.now e }
    ensures { Held (ends_with v.old p 0 spans.now e) v.new (1 - p) room (or_past room result) × InRoom room result }
{
    let c = span::end_count(spans, e);
    let mut j = 0;
    let mut ends = 0;
    while j < c {
        if ends == room {
            return None;
        }
        let y = row_end_or(spans, e, j, c);
        let z = row_end_or(spans, e, j + 1, c);
        key::put_end(v, 1 - p, ends, y); // the next goes over it where they are equal
        let s = pass(key::LIMIT, y, z);
        j += s.row;
        ends += s.kept;
    }
    Some(ends)
}

// The ends of e's row and the n ends of half p go to the other half, ascending and each once. How many they are, where there is room for them.
// Before each end of the row the gathered ends below it are copied in one run, and behind its last those that are left: a turn is made for each end of the row, and none for those gathered.
// Where no room is left for an end of the row they are more than room, since all that were kept lie below it.
fn merge(v: &mut [u16], p: usize, n: usize, room: usize, spans: &[i32], e: usize) -> Option<usize>
    requires { Joinable v.old p n room spans.now e }
    ensures { Held (ends_with v.old p n spans.now e) v.new (1 - p) room (or_past room result) × InRoom room result }
{
    let c = span::end_count(spans, e);
    let mut i: usize = 0;
    let mut j: usize = 0;
    let mut ends: usize = 0;
    let mut y = row_end_or(spans, e, 0, c);
    while j < c {
        let k = copy_below(v, p, n, room, i, ends, y);
        i += k;
        ends += k;
        if ends == room {
            return None;
        }
        let x = end_or(v, p, i, n);
        let z = row_end_or(spans, e, j + 1, c);
        key::put_end(v, 1 - p, ends, y);
        let s = pass(x, y, z);
        i += s.gathered;
        j += s.row;
        ends += s.kept;
        y = z;
    }
    let k = copy_below(v, p, n, room, i, ends, key::LIMIT);
    if i + k < n {
        return None;
    }
    Some(ends + k)
}

// The same, whether some are gathered or none.
pub fn join(
    v: &mut [u16],
    p: usize,
    n: usize,
    room: usize,
    spans: &[i32],
    e: usize,
) -> Option<usize>
    requires { Joinable v.old p n room spans.now e }
    ensures { Held (ends_with v.old p n spans.now e) v.new (1 - p) room (or_past room result) × InRoom room result }
{
    if n == 0 {
        return copy_row(v, p, room, spans, e);
    }
    merge(v, p, n, room, spans, e)
}
