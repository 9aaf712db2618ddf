// A ring of items is such a list.
ghost use Rattle.std.specs.Prelude.{◌≡◌};
ghost use Rattle.ring.specs.Elements.{elements, capacity_of};

use crate::fifo::Fifo;
use item::{Item, Refusal};
use ring::Ring;

impl<'a> Fifo for Ring<'a, Item> {
    ghost items = { elements };

    ghost room = { capacity_of };

    fn put(&mut self, x: Item) -> Result<(), Refusal> {
        Ring::put(self, x)
    }

    fn take(&mut self) -> Option<Item> {
        Ring::take(self).ok()
    }

    fn first(&self) -> Option<Item> {
        Ring::first(self)
    }

    fn clear(&mut self) {
        Ring::clear(self);
    }

    fn count(&self) -> usize {
        self.len()
    }

    fn capacity(&self) -> usize {
        Ring::capacity(self)
    }
}
