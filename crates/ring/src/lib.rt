// A ring over memory handed over, for elements of any kind that can be copied.
// Every value of the type is a ring, so no call asks anything: a first place or a length past the end counts as within it.
// Promises: each call does to the list of elements what its name says; put is refused 8 exactly when the ring is full, take 9
// exactly when it is empty, and a refused call changes nothing, in the ring or in its memory.
#![tactic(auto)]

pub mod span;

ghost use Rattle.std.specs.Prelude.{◌≡◌, ◌≤◌, true, false, [], length, ◌==◌};
ghost use Rattle.ring.specs.Elements.{elements, capacity_of, SameMemory, Fits, LaysOut, Puts, Takes};
ghost use Rattle.item.specs.First.{Leads};

use crate::span::Span;
use item::Refusal;

/// The most places of a ring.
pub const MOST: usize = 1024;

// The places lie in memory handed over, as the line software has no heap. Each call promises that it is the same memory after it: a
// fact about two values, which no invariant of one can hold.
#[derive(Drop)]
pub struct Ring<'a, T> {
    cells: &'a mut [T],
    // Are the cells laid out? A flag stands beside the span, as each put and take would write an Option of it whole, and a loop over a
    // ring would ask at each turn whether it is there: up to 1.4 times the instructions.
    laid: bool,
    span: Span,
}

impl<'a, T: Copy> Ring<'a, T> {
    /// A ring of no places, which keeps the memory handed over until it is laid out.
    pub fn over(cells: &'a mut [T]) -> Ring<'a, T>
        ensures places { capacity_of result ≡ 0 }
        ensures empty { elements result ≡ [] }
        ensures memory { result.cells.now ≡ cells.old }
        ensures lent { result.cells.ghost_name ≡ cells.entry.ghost_name }
    {
        Ring {
            cells,
            laid: false,
            span: Span::new(),
        }
    }

    /// Is the memory enough for a ring, and not too much: 1 to 1,024 places?
    pub fn fits(&self) -> bool
        ensures yes { result ≡ true → Fits self.now }
        ensures no { result ≡ false → Fits self.now → ⊥ }
    {
        (1..=MOST).contains(&self.cells.len())
    }

    /// Takes all the memory for places, and empties the ring. Refused 12 where that is none or more than 1,024.
    pub fn lay_out(&mut self) -> Result<(), Refusal>
        ensures lays { LaysOut self.old result self.new }
        ensures lent { SameMemory self.old self.new }
    {
        if !self.fits() {
            return Err(Refusal::OutOfBounds);
        }
        self.laid = true;
        self.span = Span::new();
        Ok(())
    }

    // The memory handed over.
    fn cells(&self) -> &[T]
        ensures value { result.now ≡ self.now.cells.now }
    {
        &self.cells[..]
    }

    pub fn capacity(&self) -> usize
        ensures value { result ≡ capacity_of self.now }
        ensures within { result ≤ length self.now.cells.now }
    {
        if self.laid { self.cells.len() } else { 0 }
    }

    pub fn len(&self) -> usize
        ensures value { result ≡ length (elements self.now) }
        ensures within { result ≤ capacity_of self.now }
    {
        if !self.laid {
            return 0;
        }
        self.span.len(self.cells())
    }

    pub fn is_empty(&self) -> bool
        ensures value { result ≡ (length (elements self.now) == 0) }
    {
        self.len() == 0
    }

    /// One more at the end. Refused 8 exactly when the ring is full.
    pub fn put(&mut self, x: T) -> Result<(), Refusal>
        ensures puts { Puts self.old x result self.new }
        ensures lent { SameMemory self.old self.new }
    {
        if !self.laid {
            return Err(Refusal::NoSpace);
        }
        self.span.put(&mut self.cells[..], x)
    }

    /// The first, which stays, or none exactly when the ring is empty.
    pub fn first(&self) -> Option<T>
        ensures leads { Leads (elements self.now) result }
    {
        if !self.laid {
            return None;
        }
        self.span.first(self.cells())
    }

    /// The first leaves. Refused 9 exactly when the ring is empty.
    pub fn take(&mut self) -> Result<T, Refusal>
        ensures takes { Takes self.old result self.new }
        ensures lent { SameMemory self.old self.new }
    {
        if !self.laid {
            return Err(Refusal::Nothing);
        }
        // A copy: the check has no rule yet for a span that is lent for a change beside cells that are only read.
        let mut span = self.span;
        let x = span.take(self.cells()).ok_or(Refusal::Nothing)?;
        self.span = span;
        Ok(x)
    }

    /// Gives every place back; the memory is not touched.
    pub fn clear(&mut self)
        ensures empty { elements self.new ≡ [] }
        ensures memory { self.new.cells.now ≡ self.old.cells.now }
        ensures places { capacity_of self.new ≡ capacity_of self.old }
        ensures lent { SameMemory self.old self.new }
    {
        self.span.clear();
    }
}
