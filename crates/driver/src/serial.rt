// The driver that keeps its three lists in such lists of items; it loops or not.
ghost use Rattle.std.specs.Prelude.{◌≡◌, ◌+◌, ◌≤◌, ◌++◌, length};
ghost use Rattle.item.specs.First.{Leads};
ghost use Rattle.driver.specs.Line.{band, chosen_from, begun_after};
ghost use Rattle.driver.specs.Lists.{list_of};
ghost use Rattle.driver.specs.Serial.{serial_line, ComesBack};

use crate::Driver;
use crate::fifo::Fifo;
use item::{Band, Item, Refusal};

#[derive(Drop)]
pub struct Serial<Q, const LOOPS: bool> {
    pub waiting: Q,
    pub records: Q,
    pub echo: Q,
    pub begun: Option<Band>,
}

/// A byte begins a record, END ends it, NOTE does neither.
fn next_begun(was: Option<Band>, from: Band, x: Item) -> Option<Band>
    ensures value { result ≡ begun_after was from x }
{
    match x {
        Item::Byte(_) => Some(from),
        Item::End => None,
        Item::Note(_) => was,
    }
}

/// The band that is sent from.
fn choose<Q: Fifo>(begun: Option<Band>, echo: &Q) -> Band
    ensures value { result ≡ chosen_from begun (Q.Fifo.items echo.now) }
{
    begun.unwrap_or_else(|| echo.first().map_or(Band::Records, |_| Band::Echo))
}

/// Puts items behind others, where there is room for all.
fn put_all<Q: Fifo>(list: &mut Q, items: &[Item])
    requires { length (Q.Fifo.items list.old) + length items.now ≤ Q.Fifo.room list.old }
    ensures puts { Q.Fifo.items list.new ≡ Q.Fifo.items list.old ++ items.now }
    ensures room { Q.Fifo.room list.new ≡ Q.Fifo.room list.old }
{
    for x in items {
        list.put(*x).unwrap();
    }
}

impl<Q: Fifo, const LOOPS: bool> Serial<Q, LOOPS> {
    /// A driver over three lists, as they are; no record is begun.
    pub fn new(waiting: Q, records: Q, echo: Q) -> Serial<Q, LOOPS>
        ensures lists { (result.waiting ≡ waiting) × (result.records ≡ records) × (result.echo ≡ echo) }
        ensures begun { result.begun ≡ None }
    {
        Serial {
            waiting,
            records,
            echo,
            begun: None,
        }
    }

    // The list of a band, for its count and its capacity alone. first_of, offer and send tell the band apart themselves: where the first
    // item, a put or a take goes by a list that is handed out, the driver lies in memory, and any of its calls takes up to three
    // times the instructions.
    fn list(&self, band: Band) -> &Q
        ensures value { result.now ≡ list_of self.now band }
    {
        match band {
            Band::Records => &self.records,
            Band::Echo => &self.echo,
        }
    }

    /// The first item of a band.
    fn first_of(&self, from: Band) -> Option<Item>
        ensures leads { Leads (band (serial_line Q.Fifo.items Q.Fifo.room LOOPS self.now) from) result }
    {
        // Not by list, for the reason that stands there.
        match from {
            Band::Records => self.records.first(),
            Band::Echo => self.echo.first(),
        }
    }

    /// On a loop a byte or a NOTE that is sent also waits.
    fn bring_back(&mut self, x: Item) -> Result<(), Refusal>
        ensures comes { ComesBack (serial_line Q.Fifo.items Q.Fifo.room LOOPS) self.old x result self.new }
    {
        if !LOOPS {
            return Ok(());
        }
        match x {
            Item::End => Ok(()),
            _ => self.waiting.put(x),
        }
    }
}

impl<Q: Fifo, const LOOPS: bool> Driver for Serial<Q, LOOPS> {
    ghost line = { serial_line Q.Fifo.items Q.Fifo.room LOOPS };

    fn start(&mut self) {
        self.waiting.clear();
        self.records.clear();
        self.echo.clear();
        self.begun = None;
    }

    fn arrive(&mut self, items: &[Item]) -> Result<(), Refusal> {
        let taken = self.waiting.count();
        let room = self.waiting.capacity();
        if taken > room || items.len() > room - taken {
            return Err(Refusal::NoSpace);
        }
        put_all(&mut self.waiting, items);
        Ok(())
    }

    fn fetch(&mut self) -> Option<Item> {
        self.waiting.take()
    }

    fn offer(&mut self, to: Band, x: Item) -> Result<(), Refusal> {
        // Not by a list that is handed out: see list.
        match to {
            Band::Records => self.records.put(x),
            Band::Echo => self.echo.put(x),
        }
    }

    fn send(&mut self) -> Result<(Band, Item), Refusal> {
        let from = choose(self.begun, &self.echo);
        let x = self.first_of(from).ok_or(Refusal::Nothing)?;
        self.bring_back(x)?;
        // Not by a list that is handed out: see list.
        let _ = match from {
            Band::Records => self.records.take(),
            Band::Echo => self.echo.take(),
        };
        self.begun = next_begun(self.begun, from, x);
        Ok((from, x))
    }

    fn waiting(&self) -> usize {
        self.waiting.count()
    }

    fn waiting_room(&self) -> usize {
        self.waiting.capacity()
    }

    fn offered(&self, to: Band) -> usize {
        self.list(to).count()
    }

    fn offered_room(&self, to: Band) -> usize {
        self.list(to).capacity()
    }

    fn begun(&self) -> Option<Band> {
        self.begun
    }

    fn loops(&self) -> bool {
        LOOPS
    }
}
