// Links by equal heights: between the blocks of two levels, over a boundary, and between pieces of a block that touch.
#![tactic(auto)]

ghost use Rattle.std.specs.Prelude.{◌≡◌, ◌+◌, ◌*◌, ◌<◌, ◌≤◌, length, if◌then◌else◌};
ghost use Rattle.paper.specs.Width.{link_width, dart_limit};
ghost use Rattle.over.specs.Over.{feet_from, walk_all, rows, Overable};
ghost use Rattle.over.specs.Block.{Crossable, Crossed, Alike, Stacked, Joinable, Joined, Facing, Same};

use kernel::width;
use std::cmp::Ordering;

// Rows x and y lead to each other along axis a; with heads, so do the rows after them.
fn put_rows(ol: &mut [u16], a: usize, x: usize, y: usize, heads: bool)
    requires a_lt_link_width { (a < link_width) × ((y ≤ dart_limit + 1) × (x ≤ dart_limit + 1)) }
    requires link_width_in_bounds { ((x + (if heads then 1 else 0)) * link_width + link_width ≤ length ol.old) × ((y + (if heads then 1 else 0)) * link_width + link_width ≤ length ol.old) }
    ensures { ol.new ≡ rows heads a x y ol.old }
{
    kernel::put(ol, x * width::LINKS + a, y);
    kernel::put(ol, y * width::LINKS + a, x);
    if !heads {
        return;
    }
    kernel::put(ol, (x + 1) * width::LINKS + a, y + 1);
    kernel::put(ol, (y + 1) * width::LINKS + a, x + 1);
}

// One walk over every second row, c of them from x on and e from y on; heights stand in column m. It goes on in the stretch whose height is lower.
// Rows of equal heights are linked as `put_rows` does it, and it goes on in both; else in the one that lies lower: no count of an index.
fn match_rows(
    op: &[i32],
    m: usize,
    ol: &mut [u16],
    a: usize,
    x: usize,
    c: usize,
    y: usize,
    e: usize,
    heads: bool,
)
    requires overable { Overable op.now m ol.old a x c y e }
    requires link_width_in_bounds { ((x + (if heads then 1 else 0) + c * 2) * link_width ≤ length ol.old + link_width) × ((y + (if heads then 1 else 0) + e * 2) * link_width ≤ length ol.old + link_width) }
    ensures { ol.new ≡ walk_all (rows heads a) (feet_from op.now m x c) (feet_from op.now m y e) x y ol.old }
{
    let mut i: usize = 0;
    let mut j: usize = 0;
    while i < c {
        if j == e {
            return;
        }
        let own = x + i * 2;
        let other = y + j * 2;
        match op[own * width::PLACES + m].cmp(&op[other * width::PLACES + m]) {
            Ordering::Less => i += 1,
            Ordering::Greater => j += 1,
            Ordering::Equal => {
                put_rows(ol, a, own, other, heads);
                i += 1;
                j += 1;
            }
        }
    }
}

// Two blocks that share no row and whose pieces are alike, c from row x on and e from row y on: equal pieces lead to each other. One walk over the feet links both rows of a piece.
pub fn match_alike(
    op: &[i32],
    m: usize,
    ol: &mut [u16],
    a: usize,
    x: usize,
    c: usize,
    y: usize,
    e: usize,
)
    requires joinable { Joinable op.now m ol.old a x c y e }
    requires alike { Alike op.now m x c y e }
    ensures { Joined op.now m a x c y e ol.old ol.new }
{
    match_rows(op, m, ol, a, x, c, y, e, true);
}

// Two blocks that share no row, whatever their pieces: feet of equal heights lead to each other, and so do heads.
pub fn match_levels(
    op: &[i32],
    m: usize,
    ol: &mut [u16],
    a: usize,
    x: usize,
    c: usize,
    y: usize,
    e: usize,
)
    requires { Joinable op.now m ol.old a x c y e }
    ensures { Joined op.now m a x c y e ol.old ol.new }
{
    match_rows(op, m, ol, a, x, c, y, e, false);
    match_rows(op, m, ol, a, x + 1, c, y + 1, e, false);
}

// Pieces of one block that touch: the head of one and the foot of the next lead to each other where their heights are equal.
pub fn match_touching(op: &[i32], m: usize, ol: &mut [u16], a: usize, x: usize, c: usize)
    requires crossable { Crossable op.now m ol.old a x c (x + 1) x c }
    requires stacked { Stacked op.now m x c }
    ensures { Crossed op.now m a x c (x + 1) x c ol.old ol.new }
{
    for i in 0..c.saturating_sub(1) {
        let head = x + i * 2 + 1;
        let next = head + 1;
        if op[head * width::PLACES + m] == op[next * width::PLACES + m] {
            put_rows(ol, a, head, next, false);
        }
    }
}

// Two blocks of the same pieces, c from row x on and from row y on: each row of the one and that of the other lead to each other, without a look at their heights.
pub fn match_same(ol: &mut [u16], a: usize, x: usize, c: usize, y: usize)
    requires { Facing a x c y (length ol.old) }
    ensures { Same a x c y ol.old ol.new }
{
    for r in 0..c * 2 {
        kernel::put(ol, (x + r) * width::LINKS + a, y + r);
        kernel::put(ol, (y + r) * width::LINKS + a, x + r);
    }
}
