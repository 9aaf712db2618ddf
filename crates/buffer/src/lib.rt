// A byte buffer of fixed size in its own record: the line that a discipline holds, the body of a frame.
// In a contract a buffer is the list of the bytes that it holds. Every value of the type is a buffer, so it asks for no invariant: a
// length past the end counts as the end.
// Promises: each call does to that list what its name says, and a refused one changes nothing. A call on a buffer takes the same few
// steps, however many bytes are held.
#![tactic(auto)]

ghost use Rattle.std.specs.Prelude.{◌≡◌, ℕ, ◌-◌, ◌<◌, ◌≤◌, ◌↔◌, List, [], length, take, IsOk};
ghost use Rattle.buffer.specs.Pushed.{Pushes};

use item::Refusal;
use std::marker::Model;

#[derive(Drop)]
pub struct Buffer<const N: usize> {
    // An array and how many of its bytes are held: the library's vector of fixed capacity writes over all of them where it is cleared.
    bytes: [u8; N],
    len: usize,
}

impl<const N: usize> Model for Buffer<N> {
    ghost Value = { List ℕ };

    ghost view = { λ b. take b.len b.bytes };
}

impl<const N: usize> Buffer<N> {
    pub fn new() -> Buffer<N>
        ensures empty { result ≡ [] }
    {
        Buffer {
            bytes: [0; N],
            len: 0,
        }
    }

    pub fn len(&self) -> usize
        ensures value { result ≡ length self.now }
        ensures within { result ≤ N }
    {
        self.len.min(self.bytes.len())
    }

    pub fn as_slice(&self) -> &[u8]
        ensures value { result.now ≡ self.now }
    {
        &self.bytes[..self.len()]
    }

    /// Adds a byte behind the others. Refused 8 exactly where N are held.
    pub fn push(&mut self, b: u8) -> Result<(), Refusal>
        ensures room { IsOk result ↔ (length self.old < N) }
        ensures pushes { Pushes N self.old b result self.new }
    {
        let len = self.len();
        if len == N {
            return Err(Refusal::NoSpace);
        }
        self.bytes[len] = b;
        self.len = len + 1;
        Ok(())
    }

    /// Drops the last byte, if there is one.
    pub fn pop(&mut self)
        ensures pops { self.new ≡ take (length self.old - 1) self.old }
    {
        self.len = self.len().saturating_sub(1);
    }

    pub fn clear(&mut self)
        ensures empty { self.new ≡ [] }
    {
        self.len = 0;
    }
}
