// The looseness call: the axes along which a dart is free, as a byte with a bit for each, and how many there are.
ghost use Rattle.std.specs.Prelude.{◌≡◌, ◌/◌, ◌^◌, ◌<◌, ◌≤◌, length, if◌then◌else◌};
ghost use Rattle.paper.specs.Width.{link_width};
ghost use Rattle.paper.specs.Below.{sum_below};
ghost use Rattle.paper.specs.Refusal.{loose_of};
ghost use Rattle.paper.specs.Call.{free_in, looseness};

use kernel::width;
use paper::Looseness;
use paper::refusal::Refusal;

// Refused, the call answers zeros beside the number.
pub fn looseness(links: &[u16], dimension: u8, dart: usize) -> Looseness
    ensures { result ≡ looseness links.now dimension dart }
{
    Looseness::from(free_byte(links, dimension, dart))
}

// Refused by 3 where the dimension is out of range, then by 4 where the dart is beyond the whole rows.
fn free_byte(links: &[u16], dimension: u8, dart: usize) -> Result<u8, Refusal>
    ensures { loose_of result ≡ looseness links.now dimension dart }
{
    if dimension < 1 || width::DIMENSION < dimension {
        return Err(Refusal::OutOfRange);
    }
    if links.len() / width::LINKS <= dart {
        return Err(Refusal::NoSuchDart);
    }
    let axes = dimension as usize + 1;
    Ok(free_axes(links, dart, axes))
}

// The byte with bit i set for each axis i below `axes` along which the dart is free.
fn free_axes(links: &[u16], dart: usize, axes: usize) -> u8
    requires { (dart < length links.now / link_width) × (axes ≤ link_width) }
    ensures { result ≡ sum_below axes (λ i. (if free_in links.now dart i then 2 ^ i else 0)) }
{
    let mut bits: u8 = 0;
    for i in 0..axes {
        if kernel::get(links, dart * width::LINKS + i) == dart {
            bits += 1 << i;
        }
    }
    bits
}
