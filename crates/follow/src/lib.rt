// Links that follow the plan's links: each row of a block leads to the row as far into another block as it is into its own.
#![tactic(auto)]

ghost use Rattle.std.specs.Prelude.{◌≡◌, ◌+◌, ◌*◌, ◌<◌, ◌≤◌, length};
ghost use Rattle.paper.specs.Width.{link_width, dart_limit};
ghost use Rattle.follow.specs.Fill.{start_of, firsts, seconds, put_links, Pairs, Paired, Startable, Fillable, Filled};

use kernel::width;

// Row x: its axes lead to y0 .. y5, each s rows further.
fn put_row(
    ol: &mut [u16],
    x: usize,
    s: usize,
    y0: usize,
    y1: usize,
    y2: usize,
    y3: usize,
    y4: usize,
    y5: usize,
)
    requires link_width_in_bounds { (x * link_width + link_width ≤ length ol.old) × (x ≤ dart_limit) }
    requires s_bound { (y0 + s ≤ dart_limit) × ((y1 + s ≤ dart_limit) × ((y2 + s ≤ dart_limit) × ((y3 + s ≤ dart_limit) × ((y4 + s ≤ dart_limit) × (y5 + s ≤ dart_limit))))) }
    ensures { ol.new ≡ put_links link_width (firsts y0 y1 y2 y3 y4 y5) s x ol.old }
{
    kernel::put(ol, x * width::LINKS + 0, y0 + s);
    kernel::put(ol, x * width::LINKS + 1, y1 + s);
    kernel::put(ol, x * width::LINKS + 2, y2 + s);
    kernel::put(ol, x * width::LINKS + 3, y3 + s);
    kernel::put(ol, x * width::LINKS + 4, y4 + s);
    kernel::put(ol, x * width::LINKS + 5, y5 + s);
}

// c pairs of rows from x on: the first row leads to y0 .. y5, the second to z and to the rows after y1 .. y5; each pair after it two rows further.
fn put_pairs(
    ol: &mut [u16],
    x: usize,
    c: usize,
    z: usize,
    y0: usize,
    y1: usize,
    y2: usize,
    y3: usize,
    y4: usize,
    y5: usize,
)
    requires { Paired ol.old x c z y0 y1 y2 y3 y4 y5 }
    ensures { Pairs x c (firsts y0 y1 y2 y3 y4 y5) (seconds z y1 y2 y3 y4 y5) ol.old ol.new }
{
    for j in 0..c {
        let s = j * 2;
        put_row(ol, x + s, s, y0, y1, y2, y3, y4, y5);
        put_row(ol, x + s + 1, s, z, y1 + 1, y2 + 1, y3 + 1, y4 + 1, y5 + 1);
    }
}

// The first row of the block that axis i leads to from the block of d, which starts at row x.
fn start(
    links: &[u16],
    w: &[u16],
    m: usize,
    n: usize,
    k: usize,
    h: usize,
    d: usize,
    x: usize,
    i: usize,
) -> usize
    requires startable { Startable links.now w.now m n k h d }
    requires i_lt_link_width { i < link_width }
    ensures { result ≡ start_of links.now w.now m n k h d x i }
{
    if i < k {
        let e = kernel::get(links, d * width::LINKS + i);
        return base::base(w, n, h, e);
    }
    if k + 2 <= i {
        if i <= m {
            let e = kernel::get(links, d * width::LINKS + (i - 1));
            return base::base(w, n, h, e);
        }
    }
    x
}

// Every axis of the block of d, c pairs of rows from x on, counts up from its start; at level 0 axis 0 joins the two rows of each pair.
pub fn fill(
    ol: &mut [u16],
    links: &[u16],
    w: &[u16],
    m: usize,
    n: usize,
    k: usize,
    h: usize,
    d: usize,
    x: usize,
    c: usize,
)
    requires { Fillable links.now w.now m n k h d ol.old x c }
    ensures { Filled links.now w.now m n k h d x c ol.old ol.new }
{
    let y1 = start(links, w, m, n, k, h, d, x, 1);
    let y2 = start(links, w, m, n, k, h, d, x, 2);
    let y3 = start(links, w, m, n, k, h, d, x, 3);
    let y4 = start(links, w, m, n, k, h, d, x, 4);
    let y5 = start(links, w, m, n, k, h, d, x, 5);
    if k == 0 {
        put_pairs(ol, x, c, x, x + 1, y1, y2, y3, y4, y5);
        return;
    }
    let y0 = start(links, w, m, n, k, h, d, x, 0);
    put_pairs(ol, x, c, y0 + 1, y0, y1, y2, y3, y4, y5);
}
