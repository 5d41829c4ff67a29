// Reading and writing lent tables, and numbers of two and of four bytes.
#![tactic(auto)]

pub mod tail;
pub mod width;

ghost use Rattle.std.specs.Prelude.{◌≡◌, ◌+◌, ◌<◌, ◌≤◌, length, pos, slice_index, slice_index_or, slice_set};
ghost use Rattle.paper.specs.Command.{word, signed};
ghost use Rattle.kernel.specs.Blank.{filled, blanked};
ghost use Rattle.kernel.specs.Copy.{copied};

// A number of a table of links, objects or work, as the index that it mostly is, where `at` makes none.
pub fn get(s: &[u16], i: usize) -> usize
    requires { i < length s.now }
    ensures { (result ≡ slice_index s.now i) × (result < 65536) }
{
    usize::from(s[i])
}

// Writes a number to such a table. The contract has that it fits, so that a cast loses nothing and `try_from` would make an error that can't be.
pub fn put(s: &mut [u16], i: usize, v: usize)
    requires { (i < length s.old) × (v < 65536) }
    ensures { s.new ≡ slice_set s.old i v }
{
    s[i] = v as u16;
}

// A number of a table of places or spans.
pub fn at(s: &[i32], index: usize) -> i32
    requires { index < length s.now }
    ensures { result ≡ slice_index_or s.now index (pos 0) }
{
    s[index]
}

// Two bytes, big-endian.
pub fn word_at(s: &[u8], p: usize) -> u16
    requires { p + 2 ≤ length s.now }
    ensures { result ≡ word s.now p }
{
    u16::from_be_bytes([s[p], s[p + 1]])
}

// Four bytes, big-endian, two's complement.
pub fn signed_at(s: &[u8], p: usize) -> i32
    requires { p + 4 ≤ length s.now }
    ensures { result ≡ signed s.now p }
{
    i32::from_be_bytes([s[p], s[p + 1], s[p + 2], s[p + 3]])
}

// One value from a place up to another: what is cleared costs its own length, however long the table is.
pub fn clear<T: Copy>(s: &mut [T], from: usize, to: usize, value: T)
    requires { (from ≤ to) × (to ≤ length s.old) }
    ensures { s.new ≡ filled value from to s.old }
{
    for i in from..to {
        s[i] = value;
    }
}

// One value in the whole table.
pub fn blank<T: Copy>(s: &mut [T], value: T)
    ensures { s.new ≡ blanked value 0 s.old }
{
    clear(s, 0, s.len(), value);
}

// The first numbers of a table become those of another. One by one, and not by `copy_from_slice`: the static library would ask its caller's program for `memcpy` and `memmove`.
pub fn copy<T: Copy>(from: &[T], count: usize, to: &mut [T])
    requires { (count ≤ length from.now) × (count ≤ length to.old) }
    ensures { to.new ≡ copied count from.now to.old }
{
    for i in 0..count {
        to[i] = from[i];
    }
}
