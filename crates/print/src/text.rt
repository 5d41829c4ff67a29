// A text that is written to lent memory from its start on.
ghost use Rattle.std.specs.Prelude.{◌≡◌, ◌+◌, ◌≤◌, length};
ghost use Rattle.paper.specs.Print.{decimal, spaced};
ghost use Rattle.print.specs.Laid.{Lays};

// The memory, and how many bytes the text has so far.
#[derive(Drop)]
pub struct Text<'a> {
    pub memory: &'a mut [u8],
    pub len: usize,
}

impl<'a> Text<'a> {
    // The text goes on by bytes.
    pub fn push(&mut self, bytes: &[u8])
        requires { self.old.len + length bytes.now ≤ length self.old.memory.now }
        ensures same_reference { self.new.memory.ghost_name ≡ self.old.memory.ghost_name }
        ensures kept { length self.new.memory.now ≡ length self.old.memory.now }
        ensures lays { Lays self.old.len bytes.now self.old.memory.now self.new.len self.new.memory.now }
    {
        let end = self.len + bytes.len();
        self.memory[self.len..end].copy_from_slice(bytes);
        self.len = end;
    }

    // It goes on by a number in decimal digits: those of its tenth, then its last.
    // By hand, since the library's `write!` tells what was written only where it gives Ok, and its `to_string` needs a heap.
    pub fn number(&mut self, x: usize)
        requires { self.old.len + length (decimal x) ≤ length self.old.memory.now }
        ensures same_reference { self.new.memory.ghost_name ≡ self.old.memory.ghost_name }
        ensures kept { length self.new.memory.now ≡ length self.old.memory.now }
        ensures lays { Lays self.old.len (decimal x) self.old.memory.now self.new.len self.new.memory.now }
    {
        if 10 <= x {
            self.number(x / 10);
        }
        self.push(&[b'0' + (x % 10) as u8]);
    }

    // It goes on by a blank and a number.
    pub fn spaced(&mut self, x: usize)
        requires { self.old.len + length (spaced x) ≤ length self.old.memory.now }
        ensures same_reference { self.new.memory.ghost_name ≡ self.old.memory.ghost_name }
        ensures kept { length self.new.memory.now ≡ length self.old.memory.now }
        ensures lays { Lays self.old.len (spaced x) self.old.memory.now self.new.len self.new.memory.now }
    {
        self.push(b" ");
        self.number(x);
    }
}
