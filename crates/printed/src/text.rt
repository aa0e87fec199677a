// A text that is written piece by piece, in fixed memory.
ghost use Rattle.std.specs.Prelude.{◌≡◌, ℕ, List, [], ◌++◌, ◌+◌, ◌≤◌, length, take};
ghost use Rattle.rules.specs.Lists.{decimal};
ghost use Rattle.printed.specs.Printed.{line_text};

use std::marker::Model;

// A text of at most N bytes. It takes piece by piece, and not by `write!`, whose answer may be a failure: with room for a piece none can come.
#[derive(Drop)]
pub struct Text<const N: usize> {
    room: [u8; N],
    len: usize,
}

impl<const N: usize> Model for Text<N> {
    ghost Value = { List ℕ };

    ghost view = { λ t. take t.len t.room };

    ghost invariant = { λ t. t.len ≤ N };
}

impl<const N: usize> Text<N> {
    pub fn new() -> Self
        ensures { result ≡ [] }
    {
        Text {
            room: [0; N],
            len: 0,
        }
    }

    pub fn as_bytes(&self) -> &[u8]
        ensures { result.now ≡ self.now }
    {
        &self.room[..self.len]
    }

    #[tactic(auto, using(crate::proofs::Laws::behind))]
    pub fn push(&mut self, bytes: &[u8])
        requires { length self.old + length bytes.now ≤ N }
        ensures { self.new ≡ self.old ++ bytes.now }
    {
        self.len = writer::put_at(&mut self.room, self.len, bytes);
    }

    // A number in decimal: one of 64 bits has 20 digits at most.
    #[tactic(auto, using(crate::proofs::Laws::behind))]
    pub fn push_number(&mut self, n: usize)
        requires { length self.old + 20 ≤ N }
        ensures is { self.new ≡ self.old ++ decimal n }
        ensures within { length self.new ≤ length self.old + 20 }
    {
        self.len = writer::put_number_at(&mut self.room, self.len, n);
    }

    // A key, a number, and 0A.
    #[tactic(auto, unfolding(crate::specs::Printed::line_text))]
    pub fn push_line(&mut self, key: &[u8], n: usize)
        requires { length self.old + length key.now + 21 ≤ N }
        ensures is { self.new ≡ self.old ++ line_text key.now n }
        ensures within { length self.new ≤ length self.old + length key.now + 21 }
    {
        self.push(key);
        self.push_number(n);
        self.push(b"\n");
    }
}
