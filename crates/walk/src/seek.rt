// The first end that reaches a height, found by halving: the ends ascend.
ghost use Rattle.walk.specs.Seek.{Seekable, Sought};

use ends::key;

// What `seek` finds, by halving. The ends are pairs of numbers in work, and no slice of them is there for `partition_point`.
fn halve(v: &[u16], p: usize, n: usize, i: usize, lo: usize) -> usize
    requires { Seekable v.now p n i }
    ensures { Sought v.now p n i lo result }
{
    let mut from = i;
    let mut to = n - 1;
    while from < to {
        let middle = (from + to) / 2;
        if key::get_end(v, p, middle) < lo {
            from = middle + 1;
        } else {
            to = middle;
        }
    }
    from
}

// The first of the n ends of half p, from end i on, whose key is lo or more; the last end where all lie below. End i itself is looked at first: mostly it is the one.
pub fn seek(v: &[u16], p: usize, n: usize, i: usize, lo: usize) -> usize
    requires { Seekable v.now p n i }
    ensures { Sought v.now p n i lo result }
{
    if lo <= key::get_end(v, p, i) {
        return i;
    }
    halve(v, p, n, i, lo)
}
