// A list of items with a fixed capacity: what a driver keeps its items in.
ghost use Rattle.std.specs.Prelude.{◌≡◌, ℕ, List, [], length};
ghost use Rattle.item.specs.declared.Item.{Item};
ghost use Rattle.item.specs.First.{Leads};
ghost use Rattle.driver.specs.Fifo.{Puts, Takes};

use item::{Item, Refusal};

pub trait Fifo {
    ghost items: { Self → List Item };

    ghost room: { Self → ℕ };

    fn put(&mut self, x: Item) -> Result<(), Refusal>
        ensures puts { Puts items room self.old x result self.new };

    fn take(&mut self) -> Option<Item>
        ensures takes { Takes items room self.old result self.new };

    /// The first item; it stays.
    fn first(&self) -> Option<Item>
        ensures leads { Leads (items self.now) result };

    fn clear(&mut self)
        ensures empty { items self.new ≡ [] }
        ensures room { room self.new ≡ room self.old };

    fn count(&self) -> usize
        ensures value { result ≡ length (items self.now) };

    fn capacity(&self) -> usize
        ensures value { result ≡ room self.now };
}
