// The first pass of the check: one look at each dart, which tells no more than whether all is well.
#![tactic(auto)]

ghost use Rattle.std.specs.Prelude.{◌≡◌, suc, ◌-◌, ◌<◌, ◌≤◌, true};
ghost use Rattle.paper.specs.Below.{all_below};
ghost use Rattle.paper.specs.Table.{count_fits};
ghost use Rattle.kernel.specs.Link.{alpha};
ghost use Rattle.fault.specs.Fault.{count_in, LinksFit, SpansFit, Fits};
ghost use Rattle.well.specs.Well.{LinksBefore, commutes, rows_agree, linked_along, agrees_along, has_lower, good_row, well_at};

use fault::links::link;
use fault::{places, spans};

// Axes j and i lead to the same dart, whichever is taken first.
fn is_commuting(links: &[u16], m: usize, n: usize, d: usize, j: usize, i: usize) -> bool
    requires links_fit { LinksFit links.now m n × ((d < n) × ((j ≤ m) × (i ≤ m))) }
    requires d_bound { (alpha links.now j d < n) × (alpha links.now i d < n) }
    ensures { result ≡ commutes links.now d j i }
{
    let there = link(links, m, n, link(links, m, n, d, i), j);
    there == link(links, m, n, link(links, m, n, d, j), i)
}

// So does axis j with each axis two or more below it. A `for`, here, at `is_linked`, `agrees` and `all_well`: with `all`, or over `0..=m`, the check of darts with few spans took up to a half longer.
fn is_paired(links: &[u16], m: usize, n: usize, d: usize, j: usize) -> bool
    requires links_fit { LinksFit links.now m n × ((d < n) × (j ≤ m)) }
    requires links_before { LinksBefore links.now n d (suc j) }
    ensures { result ≡ all_below (j - 1) (commutes links.now d j) }
{
    for i in 0..j.saturating_sub(1) {
        if !is_commuting(links, m, n, d, j, i) {
            return false;
        }
    }
    true
}

// Two darts that axis j links have the same row, unless it is m. The row of e may not be one: with the count of d's it is.
fn rows_agree(spans: &[i32], m: usize, n: usize, j: usize, d: usize, e: usize) -> bool
    requires spans_fit { SpansFit spans.now n × ((d < n) × (e < n)) }
    requires d_value { count_fits (count_in spans.now d) ≡ true }
    ensures { result ≡ rows_agree spans.now m j d e }
{
    m <= j || (spans::same_count(spans, n, d, e) && span::same_row(spans, d, e))
}

// The link along axis j is a dart, leads back, and commutes. Those before it are darts.
// A lower dart was asked whether it commutes, and it does at both or at neither.
fn is_linked_along(links: &[u16], m: usize, n: usize, d: usize, j: usize) -> bool
    requires links_fit { LinksFit links.now m n × ((d < n) × (j ≤ m)) }
    requires links_before { LinksBefore links.now n d j }
    ensures { result ≡ linked_along links.now n d j }
{
    let e = link(links, m, n, d, j);
    e < n && link(links, m, n, e, j) == d && (e < d || is_paired(links, m, n, d, j))
}

// So it is along every axis.
fn is_linked(links: &[u16], m: usize, n: usize, d: usize) -> bool
    requires { LinksFit links.now m n × (d < n) }
    ensures { result ≡ all_below (suc m) (linked_along links.now n d) }
{
    for j in 0..m + 1 {
        if !is_linked_along(links, m, n, d, j) {
            return false;
        }
    }
    true
}

// The dart agrees with its link along axis j, or is the higher of the two.
fn agrees_along(
    links: &[u16],
    places: &[i32],
    spans: &[i32],
    m: usize,
    n: usize,
    d: usize,
    j: usize,
) -> bool
    requires fits { Fits links.now places.now spans.now m n × ((d < n) × (j ≤ m)) }
    requires d_value { (count_fits (count_in spans.now d) ≡ true) × (alpha links.now j d < n) }
    ensures { result ≡ agrees_along links.now places.now spans.now m d j }
{
    let e = link(links, m, n, d, j);
    e <= d || (places::agree(places, m, n, j, d, e) && rows_agree(spans, m, n, j, d, e))
}

fn agrees(links: &[u16], places: &[i32], spans: &[i32], m: usize, n: usize, d: usize) -> bool
    requires fits { Fits links.now places.now spans.now m n × (d < n) }
    requires d_value { (count_fits (count_in spans.now d) ≡ true) × LinksBefore links.now n d (suc m) }
    ensures { result ≡ all_below (suc m) (agrees_along links.now places.now spans.now m d) }
{
    for j in 0..m + 1 {
        if !agrees_along(links, places, spans, m, n, d, j) {
            return false;
        }
    }
    true
}

// Axis 0 or 1 leads to a lower dart, and is one along which rows are the same.
fn has_lower(links: &[u16], m: usize, n: usize, d: usize) -> bool
    requires { LinksFit links.now m n × (d < n) }
    ensures { result ≡ has_lower links.now m d }
{
    link(links, m, n, d, 0) < d || (2 <= m && link(links, m, n, d, 1) < d)
}

// The row is one, or a lower dart was asked that has to have the same: so few rows are looked through.
fn has_good_row(links: &[u16], spans: &[i32], m: usize, n: usize, d: usize) -> bool
    requires { LinksFit links.now m n × (SpansFit spans.now n × (d < n)) }
    ensures { result ≡ good_row links.now spans.now m d }
{
    has_lower(links, m, n, d) || !spans::is_bad_row(spans, n, d)
}

// All is well at a dart. Its links have a loop of their own: two short loops take less time than a long one.
fn is_well(links: &[u16], places: &[i32], spans: &[i32], m: usize, n: usize, d: usize) -> bool
    requires { Fits links.now places.now spans.now m n × (d < n) }
    ensures { result ≡ well_at links.now places.now spans.now m n d }
{
    spans::has_count(spans, n, d)
        && has_good_row(links, spans, m, n, d)
        && is_linked(links, m, n, d)
        && agrees(links, places, spans, m, n, d)
}

// All is well at every dart. Not written out in the check, whose answer takes a register that this loop needs.
#[inline(never)]
pub fn all_well(links: &[u16], places: &[i32], spans: &[i32], m: usize, n: usize) -> bool
    requires { Fits links.now places.now spans.now m n }
    ensures { result ≡ all_below n (well_at links.now places.now spans.now m n) }
{
    for d in 0..n {
        if !is_well(links, places, spans, m, n, d) {
            return false;
        }
    }
    true
}
