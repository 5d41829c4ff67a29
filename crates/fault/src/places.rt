// A dart's place beside a neighbour's: 9.
ghost use Rattle.std.specs.Prelude.{◌≡◌, ◌<◌, ◌≤◌};
ghost use Rattle.paper.specs.Map.{eq_z, eq_place};
ghost use Rattle.fault.specs.Fault.{coordinate_in, place_in, PlacesFit, LinksWithin, displaced, places_agree};

// A coordinate of a dart.
fn coordinate(places: &[i32], m: usize, n: usize, d: usize, x: usize) -> i32
    requires { PlacesFit places.now m n × ((d < n) × (x < m)) }
    ensures { result ≡ coordinate_in places.now d x }
{
    kernel::at(places, d * kernel::width::PLACES + x)
}

// Two darts have the same coordinate.
fn same_coordinate(places: &[i32], m: usize, n: usize, d: usize, e: usize, x: usize) -> bool
    requires { PlacesFit places.now m n × ((d < n) × ((e < n) × (x < m))) }
    ensures { result ≡ eq_z (coordinate_in places.now d x) (coordinate_in places.now e x) }
{
    coordinate(places, m, n, d, x) == coordinate(places, m, n, e, x)
}

// Two darts have equal coordinates, m of them.
fn same_place(places: &[i32], m: usize, n: usize, d: usize, e: usize) -> bool
    requires { PlacesFit places.now m n × ((d < n) × (e < n)) }
    ensures { result ≡ eq_place (place_in places.now m d) (place_in places.now m e) }
{
    // A `for`: `all` is not written out for each dimension.
    for x in 0..m {
        if !same_coordinate(places, m, n, d, e, x) {
            return false;
        }
    }
    true
}

// Two darts that an axis links have the same place, unless the axis is 0.
pub fn agree(places: &[i32], m: usize, n: usize, axis: usize, d: usize, e: usize) -> bool
    requires { PlacesFit places.now m n × ((d < n) × (e < n)) }
    ensures { result ≡ places_agree places.now m axis d e }
{
    axis < 1 || same_place(places, m, n, d, e)
}

// The link along axis j, from 1 up, leads to another place.
pub fn is_displaced(links: &[u16], places: &[i32], m: usize, n: usize, d: usize, j: usize) -> bool
    requires { LinksWithin links.now m n × (PlacesFit places.now m n × ((d < n) × (j ≤ m))) }
    ensures { result ≡ displaced links.now places.now m d j }
{
    1 <= j && !same_place(places, m, n, d, crate::links::neighbour(links, m, n, d, j))
}
