// Heights as keys in a lent table of work. A key is a height plus 2^31, so that keys compare as the heights do.
// The table has two halves, side by side: a row of work has room for one key of each, and a key takes two numbers.
ghost use Rattle.std.specs.Prelude.{◌≡◌, ◌+◌, ◌*◌, ◌<◌, ◌≤◌, length, pos, slice_index_or};
ghost use Rattle.paper.specs.Width.{work_width};
ghost use Rattle.ends.specs.Key.{key_limit, height_of, key_at, put_key};

use kernel::width;

// The key of height 0, and the first number that is no key.
const ZERO: i64 = 2147483648;

pub const LIMIT: usize = 4294967296;

// Numbers that a key takes in work, and how many values each has.
const PARTS: usize = 2;

const BASE: usize = 65536;

pub fn key(z: i32) -> usize
    ensures { (height_of result ≡ z) × (result < key_limit) }
{
    (z as i64 + ZERO) as usize
}

pub fn height(u: usize) -> i32
    requires { u < key_limit }
    ensures { result ≡ height_of u }
{
    let wide = u as i64;
    (wide - ZERO) as i32
}

// Key i of half p.
pub fn get_end(v: &[u16], p: usize, i: usize) -> usize
    requires { (p ≤ 1) × (i * work_width + work_width ≤ length v.now) }
    ensures { (result ≡ key_at v.now p i) × (result < key_limit) }
{
    let at = i * width::WORK + p * PARTS;
    kernel::get(v, at) * BASE + kernel::get(v, at + 1)
}

pub fn put_end(v: &mut [u16], p: usize, i: usize, u: usize)
    requires { (p ≤ 1) × ((i * work_width + work_width ≤ length v.old) × (u < key_limit)) }
    ensures { v.new ≡ put_key v.old p i u }
{
    let at = i * width::WORK + p * PARTS;
    kernel::put(v, at, u / BASE);
    kernel::put(v, at + 1, u % BASE);
}

// The key of the number at a place of a table of spans.
pub fn key_at(spans: &[i32], i: usize) -> usize
    requires { i < length spans.now }
    ensures { (height_of result ≡ slice_index_or spans.now i (pos 0)) × (result < key_limit) }
{
    let z = kernel::at(spans, i);
    key(z)
}
