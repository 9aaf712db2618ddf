// A list of at most N items in its own record. Every value of the type is such a list: a first place or a length past the end
// counts as within it.
ghost use Rattle.std.specs.Prelude.{◌≡◌, []};
ghost use Rattle.fifo.specs.Inline.{places, places_in, items_in, room_in};

use driver::fifo::Fifo;
use item::{Item, Refusal};
use ring::span::Span;

/// The most places of a list.
pub const MOST: usize = 4096;

// An array, since nothing here may be allocated: the library's ring is, and its vector of fixed capacity moves every item where the
// first is taken. A `Ring` does the same calls on memory handed over; one record over either would need a trait for where the
// places lie, of as many lines.
#[derive(Drop)]
pub struct Inline<const N: usize> {
    cells: [Item; N],
    span: Span,
}

impl<const N: usize> Inline<N> {
    pub fn new() -> Inline<N>
        ensures empty { items_in result ≡ [] }
        ensures room { room_in result ≡ places 4096 N }
    {
        Inline {
            cells: [Item::End; N],
            span: Span::new(),
        }
    }

    // The cells that are places: all of them, if they are not too many.
    fn places(&self) -> &[Item]
        ensures value { result.now ≡ places_in self.now }
    {
        &self.cells[..self.capacity()]
    }
}

impl<const N: usize> Fifo for Inline<N> {
    ghost items = { items_in };

    ghost room = { room_in };

    fn put(&mut self, x: Item) -> Result<(), Refusal> {
        let places = self.capacity();
        self.span.put(&mut self.cells[..places], x)
    }

    fn take(&mut self) -> Option<Item> {
        let places = self.capacity();
        self.span.take(&self.cells[..places])
    }

    fn first(&self) -> Option<Item> {
        self.span.first(self.places())
    }

    fn clear(&mut self) {
        self.span.clear();
    }

    fn count(&self) -> usize {
        self.span.len(self.places())
    }

    fn capacity(&self) -> usize {
        if N <= MOST { N } else { 0 }
    }
}
