// The bytes that a lane gathers in its own record, and what it gives out: a few items or, before them, all that was gathered.
// In a contract a spool is the list of bytes that it holds and the list of items that are ready.
// Promises: each call does to the two lists what its name says, and a refused one changes nothing.
#![tactic(auto)]

ghost use Rattle.std.specs.Prelude.{◌≡◌, ◌+◌, ◌-◌, ◌<◌, [], ◌∷◌, ◌++◌, map, length, take, drop, None, Some, OnOk, OnErr, MatchOption};
ghost use Rattle.item.specs.declared.Item.TheVariants.{Byte};
ghost use Rattle.item.specs.First.{Leads};
ghost use Rattle.buffer.specs.Pushed.{Pushes};
ghost use Rattle.lane.specs.declared.few.Few.TheVariants.{Zero};
ghost use Rattle.lane.specs.Few.{items};
ghost use Rattle.spool.specs.Spooled.{Spooled, spooled, holding, left};

use buffer::Buffer;
use item::{Item, Refusal};
use lane::few::Few;
use std::marker::Model;

/// The bytes are held or, from the place `given` on, given out in front of the few items.
#[derive(Drop)]
pub struct Spool<const N: usize> {
    bytes: Buffer<N>,
    given: Option<usize>,
    few: Few,
}

impl<const N: usize> Model for Spool<N> {
    ghost Value = { Spooled };

    ghost view = { λ s. spooled s.bytes s.given s.few };
}

/// The byte that is given out next, and its place, if one is left.
fn next_byte(bytes: &[u8], given: Option<usize>) -> Option<(usize, u8)>
    ensures leads { MatchOption result (left bytes.now given ≡ []) (λ r. (given ≡ Some r.0) × (drop r.0 bytes.now ≡ r.1 ∷ drop (r.0 + 1) bytes.now) × (r.0 < length bytes.now)) }
{
    let at = given?;
    let b = bytes.get(at)?;
    Some((at, *b))
}

/// Bytes that are given out are dropped, and bytes that are held stay.
fn drop_given<const N: usize>(bytes: &mut Buffer<N>, given: &mut Option<usize>)
    ensures held { bytes.new ≡ (spooled bytes.old given.old Zero).held }
    ensures none { given.new ≡ None }
{
    if given.take().is_some() {
        bytes.clear();
    }
}

// A call that changes what is held or ready drops what was ready: a lane asks `first` before it makes one. A take drops only what it gives.
impl<const N: usize> Spool<N> {
    pub fn new() -> Spool<N>
        ensures empty { result ≡ holding [] [] }
    {
        Spool {
            bytes: Buffer::new(),
            given: None,
            few: Few::Zero,
        }
    }

    /// The bytes held: none while they are given out.
    pub fn held(&self) -> &[u8]
        ensures value { result.now ≡ self.now.held }
    {
        match self.given {
            None => self.bytes.as_slice(),
            Some(_) => &[],
        }
    }

    /// Holds one more byte. Refused 8 exactly where N are held.
    pub fn push(&mut self, b: u8) -> Result<(), Refusal>
        ensures pushes { Pushes N self.old.held b result self.new.held }
        ensures none_ready { OnOk result (self.new.ready ≡ []) }
        ensures same { OnErr result (self.new ≡ self.old) }
    {
        if self.held().len() == N {
            return Err(Refusal::NoSpace);
        }
        drop_given(&mut self.bytes, &mut self.given);
        self.few = Few::Zero;
        self.bytes.push(b)
    }

    /// Drops the last byte held, if there is one.
    pub fn pop(&mut self)
        ensures pops { self.new ≡ holding (take (length self.old.held - 1) self.old.held) [] }
    {
        drop_given(&mut self.bytes, &mut self.given);
        self.few = Few::Zero;
        self.bytes.pop();
    }

    /// Drops all that is held.
    pub fn clear(&mut self)
        ensures clears { self.new ≡ holding [] [] }
    {
        self.few = Few::Zero;
        self.bytes.clear();
    }

    /// Makes a few items ready; what is held stays.
    pub fn say(&mut self, few: Few)
        ensures says { self.new ≡ holding self.old.held (items few) }
    {
        drop_given(&mut self.bytes, &mut self.given);
        self.few = few;
    }

    /// Gives out all that is held, and a few items behind it.
    pub fn give(&mut self, tail: Few)
        ensures gives { self.new ≡ holding [] (map Byte self.old.held ++ items tail) }
    {
        drop_given(&mut self.bytes, &mut self.given);
        self.given = Some(0);
        self.few = tail;
    }

    /// The first item that is ready; it stays.
    pub fn first(&self) -> Option<Item>
        ensures leads { Leads self.now.ready result }
    {
        match next_byte(self.bytes.as_slice(), self.given) {
            Some((_, b)) => Some(Item::Byte(b)),
            None => self.few.first(),
        }
    }

    /// The first item that is ready leaves, if there is one.
    pub fn take(&mut self) -> Option<Item>
        ensures takes { MatchOption result ((self.old.ready ≡ []) × (self.new ≡ self.old)) (λ x. self.old ≡ holding self.new.held (x ∷ self.new.ready)) }
    {
        match next_byte(self.bytes.as_slice(), self.given) {
            Some((at, b)) => {
                self.given = Some(at + 1);
                Some(Item::Byte(b))
            }
            None => self.few.take(),
        }
    }
}
