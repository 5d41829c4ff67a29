// The rows of a table that were in use and are no more: what stands in them becomes one value, which is 0 in every table of ours.
// The table had rows in use up to row old, and has k. Where nothing is known of it, old is as large as a number can be, and all past row k goes.
ghost use Rattle.std.specs.Prelude.{◌≡◌, ◌*◌, ◌<◌, ◌≤◌, length};
ghost use Rattle.kernel.specs.Tail.{tail_end, tail_cleared};

fn tail_end(len: usize, width: usize, k: usize, old: usize) -> usize
    requires { (0 < width) × (k * width ≤ len) }
    ensures { result ≡ tail_end len width k old }
{
    if len / width <= old {
        return len;
    }
    if old < k {
        return k * width;
    }
    old * width
}

pub fn clear<T: Copy>(s: &mut [T], width: usize, k: usize, old: usize, value: T)
    requires { (0 < width) × (k * width ≤ length s.old) }
    ensures { s.new ≡ tail_cleared value width k old s.old }
{
    let end = tail_end(s.len(), width, k, old);
    crate::clear(s, k * width, end, value);
}
