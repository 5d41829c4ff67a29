// The two upper levels, dart by dart and in one pass. At the top a dart's pieces are the spans of its row. Below it a cell has two rows, that of a dart and that of its neighbour over the boundary: there they are the dart's spans, cut at the neighbour's ends, and no cell is looked for.
ghost use Rattle.std.specs.Prelude.{◌≡◌, ◌<◌, ◌≤◌};
ghost use Rattle.paper.specs.Width.{dart_limit};
ghost use Rattle.kernel.specs.Room.{or_past, InRoom};
ghost use Rattle.base.specs.Base.{Bases};
ghost use Rattle.tally.specs.Upper.{upper_count, UpperIn, UpperCounted};

// How many pieces d has at both.
fn count_dart(links: &[u16], spans: &[i32], m: usize, n: usize, d: usize) -> usize
    requires { UpperIn m n links.now spans.now × (d < n) }
    ensures { result ≡ upper_count links.now spans.now m d }
{
    let c = span::row_length(spans, d);
    if c == 0 {
        return 0;
    }
    let e = orbit::link_at(links, d, m);
    c + beside::count_row(spans, d, e)
}

// The base of each dart is how many pieces it has at both. What is counted, or None where that is more than room.
pub fn count_upper(
    links: &[u16],
    spans: &[i32],
    w: &mut [u16],
    m: usize,
    n: usize,
    room: usize,
) -> Option<usize>
    requires { UpperIn m n links.now spans.now × (Bases w.old n × (room ≤ dart_limit)) }
    ensures { UpperCounted m n links.now spans.now room w.new (or_past room result) × InRoom room result }
{
    let mut sum = 0;
    for d in 0..n {
        let c = count_dart(links, spans, m, n, d);
        sum += 2 * c;
        if room < sum {
            return None;
        }
        base::put_base(w, n, 0, d, c);
    }
    Some(sum)
}
