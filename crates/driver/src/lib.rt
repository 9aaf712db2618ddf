// A driver of a serial line: a waiting list of what arrived, and an outgoing list for each band.
// Promises: every driver does what specs/Calls.antt says of its line, and a refused call changes nothing.
#![tactic(auto)]

pub mod fifo;
pub mod rings;
pub mod serial;

ghost use Rattle.std.specs.Prelude.{◌≡◌, length};
ghost use Rattle.driver.specs.Line.{Line, band, band_room, emptied};
ghost use Rattle.driver.specs.Calls.{Arrives, Fetches, Offers, Sends};

use item::{Band, Item, Refusal};

pub trait Driver {
    ghost line: { Self → Line };

    /// Empties all lists; no record is begun.
    fn start(&mut self)
        ensures starts { line self.new ≡ emptied (line self.old) };

    /// Items come from the line, all or none.
    fn arrive(&mut self, items: &[Item]) -> Result<(), Refusal>
        ensures arrives { Arrives line self.old items.now result self.new };

    /// The first waiting item leaves.
    fn fetch(&mut self) -> Option<Item>
        ensures fetches { Fetches line self.old result self.new };

    /// One more item for a band.
    fn offer(&mut self, to: Band, x: Item) -> Result<(), Refusal>
        ensures offers { Offers line self.old to x result self.new };

    /// One item goes out on the line.
    fn send(&mut self) -> Result<(Band, Item), Refusal>
        ensures sends { Sends line self.old result self.new };

    fn waiting(&self) -> usize
        ensures value { result ≡ length (line self.now).waiting };

    fn waiting_room(&self) -> usize
        ensures value { result ≡ (line self.now).waiting_room };

    fn offered(&self, to: Band) -> usize
        ensures value { result ≡ length (band (line self.now) to) };

    fn offered_room(&self, to: Band) -> usize
        ensures value { result ≡ band_room (line self.now) to };

    fn begun(&self) -> Option<Band>
        ensures value { result ≡ (line self.now).begun };

    fn loops(&self) -> bool
        ensures value { result ≡ (line self.now).loops };
}
