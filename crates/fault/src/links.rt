// Faults of a dart's links, along one axis: 6, 7 and 8.
ghost use Rattle.std.specs.Prelude.{◌≡◌, ◌+◌, ◌<◌, ◌≤◌};
ghost use Rattle.kernel.specs.Link.{alpha};
ghost use Rattle.fault.specs.Fault.{beyond, unlinked, unpaired_by, unpaired, LinksFit, LinksWithin};

// The link of a dart along an axis.
pub fn link(links: &[u16], m: usize, n: usize, d: usize, i: usize) -> usize
    requires { LinksFit links.now m n × ((d < n) × (i ≤ m)) }
    ensures { result ≡ alpha links.now i d }
{
    kernel::get(links, d * kernel::width::LINKS + i)
}

// The same where every link is a dart: so is this one.
pub fn neighbour(links: &[u16], m: usize, n: usize, d: usize, i: usize) -> usize
    requires { LinksWithin links.now m n × ((d < n) × (i ≤ m)) }
    ensures { (result ≡ alpha links.now i d) × (result < n) }
{
    link(links, m, n, d, i)
}

// The link is no dart.
pub fn is_beyond(links: &[u16], m: usize, n: usize, d: usize, i: usize) -> bool
    requires { LinksFit links.now m n × ((d < n) × (i ≤ m)) }
    ensures { result ≡ beyond links.now n d i }
{
    n <= link(links, m, n, d, i)
}

// The link does not undo itself.
pub fn is_unlinked(links: &[u16], m: usize, n: usize, d: usize, i: usize) -> bool
    requires { LinksWithin links.now m n × ((d < n) × (i ≤ m)) }
    ensures { result ≡ unlinked links.now d i }
{
    neighbour(links, m, n, neighbour(links, m, n, d, i), i) != d
}

// Links j and i, taken together twice, do not lead back.
fn is_unpaired_by(links: &[u16], m: usize, n: usize, d: usize, j: usize, i: usize) -> bool
    requires { LinksWithin links.now m n × ((d < n) × ((j ≤ m) × (i ≤ m))) }
    ensures { result ≡ unpaired_by links.now d j i }
{
    let once = neighbour(links, m, n, neighbour(links, m, n, d, j), i);
    neighbour(links, m, n, neighbour(links, m, n, once, j), i) != d
}

// Some pair, of axis j and one two or more below it, does not lead back.
pub fn is_unpaired(links: &[u16], m: usize, n: usize, d: usize, j: usize) -> bool
    requires { LinksWithin links.now m n × ((d < n) × (j ≤ m)) }
    ensures { result ≡ unpaired links.now m d j }
{
    (0..j.saturating_sub(1)).any(|i| is_unpaired_by(links, m, n, d, j, i))
}
