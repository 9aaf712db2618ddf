// The terminal at its line.
ghost use Rattle.std.specs.Prelude.{◌≡◌, ◌≤◌, [], length, IfOk};
ghost use Rattle.bench.specs.Desk.{Started};

use crate::order::print_order;
use bench::desk::Desk;
use driver::Driver;
use input::line_items;
use item::{Band, Item};
use report::{print_heading, print_reader};
use std::alloc::Global;
use wire::{arrive_some, fetch_all, offer_all, send_all};

/// The record that answers a line.
const ANSWER: [Item; 4] = [
    Item::Byte(b'o'),
    Item::Byte(b'k'),
    Item::Byte(b'\n'),
    Item::End,
];

/// A terminal, and the driver of its line.
#[derive(Drop)]
pub struct Terminal<'a, R, D> {
    rt: &'a R,
    line: D,
    desk: Desk,
}

/// What came of a typed line: what the reader gets, and what was sent.
#[derive(Drop)]
struct Report {
    reader: Vec<Item>,
    sent: Vec<(Band, Item)>,
}

impl Report {
    fn new(heap: Global) -> Report
        ensures empty { (result.reader.items ≡ []) × (result.sent.items ≡ []) }
    {
        Report {
            reader: Vec::new(heap),
            sent: Vec::new(heap),
        }
    }
}

impl<'a, R: Print + AllocGlobal, D: Driver + Drop> Terminal<'a, R, D> {
    pub fn new(rt: &'a R, line: D) -> Self
        ensures line { result.line ≡ line }
        ensures desk { Started result.desk }
    {
        Terminal {
            rt,
            line,
            desk: Desk::new(),
        }
    }

    /// Types one line, and prints what comes of it. Where it is too long a burst for the driver, that is printed, and it is
    /// typed again in bursts that fit.
    pub fn type_line(&mut self, number: u64, typed: &[u8]) -> anyhow::Result<()> {
        let items = line_items(self.rt.alloc(), typed)?;
        print_heading(self.rt, number, typed)?;
        let report = self.type_items(items.as_slice())?;
        print_order(self.rt, report.sent.as_slice())?;
        print_reader(self.rt, report.reader.as_slice())
    }

    /// Types some items, in as many bursts as it takes.
    fn type_items(&mut self, items: &[Item]) -> anyhow::Result<Report> {
        let mut report = Report::new(self.rt.alloc());
        // How long the next burst is shows only when it arrives, so this is no `for`.
        let mut rest = items;
        while !rest.is_empty() {
            let taken = self.arrive(rest)?;
            if taken == 0 {
                break;
            }
            self.take_burst(&mut report)?;
            (_, rest) = rest.split_at(taken);
        }
        Ok(report)
    }

    /// Some items arrive: all of them or, where that is refused, as many as there is room for. Answers how many.
    fn arrive(&mut self, items: &[Item]) -> anyhow::Result<usize>
        ensures within { IfOk result (λ n. n ≤ length items.now) }
    {
        let Err(refusal) = self.line.arrive(items) else {
            return Ok(items.len());
        };
        let taken = arrive_some(&mut self.line, items);
        println!(self.rt;
            "  a burst of {} items is refused {}; {taken} of them are typed again",
            items.len(),
            refusal.number()
        )?;
        Ok(taken)
    }

    /// What has arrived is fetched, and goes through the terminal; what goes out is offered and sent.
    fn take_burst(&mut self, report: &mut Report) -> anyhow::Result<()> {
        let heap = self.rt.alloc();
        let mut fetched = Vec::new(heap);
        fetch_all(&mut self.line, &mut fetched)?;
        let mut echo = Vec::new(heap);
        let before = report.reader.len();
        self.desk
            .typed(heap, fetched.as_slice(), &mut report.reader, &mut echo)?;
        if report.reader.len() > before {
            let mut answer = Vec::new(heap);
            self.desk.posted(heap, &ANSWER, &mut answer)?;
            self.offer(Band::Records, answer.as_slice())?;
        }
        self.offer(Band::Echo, echo.as_slice())?;
        send_all(&mut self.line, &mut report.sent)?;
        Ok(())
    }

    /// Offers some items, and tells if there is not room for all.
    fn offer(&mut self, to: Band, items: &[Item]) -> anyhow::Result<()> {
        let taken = offer_all(&mut self.line, to, items);
        if taken < items.len() {
            println!(self.rt;
                "  band {} is full: {} items are refused 8",
                to.number(),
                items.len() - taken
            )?;
        }
        Ok(())
    }

    /// Shows that a record begun is not interrupted: the echo waits for its END.
    pub fn print_begun(&mut self) -> anyhow::Result<()> {
        let heap = self.rt.alloc();
        let record = line_items(heap, b"BYE")?;
        let bell = [Item::Byte(7), Item::End];
        let _ = offer_all(&mut self.line, Band::Records, record.as_slice());
        let mut sent = Vec::new(heap);
        if let Ok(first) = self.line.send() {
            sent.push(first)?;
        }
        let _ = offer_all(&mut self.line, Band::Echo, &bell);
        send_all(&mut self.line, &mut sent)?;
        println!(self.rt; "A bell is offered when one byte of a record is out:")?;
        print_order(self.rt, sent.as_slice())
    }
}
