// The lanes of the canonical discipline: a line is edited and echoed on the way up, and its end is spelled out on the
// way down.
ghost use Rattle.std.specs.Prelude.{◌≡◌, ℕ, List, []};
ghost use Rattle.lane.specs.Few.{items};
ghost use Rattle.lane.specs.Reply.{both};
ghost use Rattle.disciplines.specs.Canonical.{echo_of, erased, added, spelled, up_rule, LineBounded};
ghost use Rattle.disciplines.specs.Views.{up_held};

use item::{Item, Refusal};
use lane::few::Few;
use lane::machine::Mapping;
use lane::reply::ReplyLane;
use spool::Spool;

const BELL: u8 = 7;

const ERASE: u8 = 8;

const LINE_FEED: u8 = 10;

const RETURN: u8 = 13;

const SPACE: u8 = 32;

const LONGEST: usize = 255;

/// The up lane. A line that is done is given out from where it was held.
#[derive(Drop)]
pub struct CanonicalUp {
    line: Spool<LONGEST>,
    echo: Few,
}

/// The most bytes that a line can have.
pub fn longest_line() -> usize
    ensures value { result ≡ 255 }
    ensures bounded { LineBounded }
{
    stays_bounded();
    LONGEST
}

/// Only says that a line stays within its bound.
#[tactic(auto, using(crate::proofs::Bounds::line_bounded))]
fn stays_bounded()
    ensures bounded { LineBounded }
{}

/// The echo of a byte that is held: where some bytes are to have another, it goes here.
fn echo_of(b: u8) -> Few
    ensures value { items result ≡ echo_of b }
{
    Few::Two(Item::Byte(b), Item::End)
}

/// Drops the last byte held, and tells the echo.
fn erase(line: &mut Spool<LONGEST>) -> Few
    ensures erases { both line.new.held [] (items result) ≡ erased line.old.held }
    ensures none_ready { line.old.ready ≡ [] → line.new.ready ≡ [] }
{
    if line.held().is_empty() {
        return Few::Zero;
    }
    line.pop();
    Few::Four(
        Item::Byte(ERASE),
        Item::Byte(SPACE),
        Item::Byte(ERASE),
        Item::End,
    )
}

/// Holds one more byte, if there is room, and tells the echo.
fn hold(line: &mut Spool<LONGEST>, b: u8) -> Few
    ensures adds { both line.new.held [] (items result) ≡ added line.old.held b }
    ensures none_ready { line.old.ready ≡ [] → line.new.ready ≡ [] }
{
    match line.push(b) {
        Ok(()) => echo_of(b),
        Err(_) => Few::Two(Item::Byte(BELL), Item::End),
    }
}

impl ReplyLane for CanonicalUp {
    ghost State = { List ℕ };

    ghost rule = { up_rule };

    ghost holds = { up_held };

    fn new() -> CanonicalUp {
        CanonicalUp {
            line: Spool::new(),
            echo: Few::Zero,
        }
    }

    fn step(&mut self, x: Item) -> Result<(), Refusal> {
        if self.first().is_some() || self.first_reply().is_some() {
            return Err(Refusal::NoSpace);
        }
        match x {
            Item::Byte(LINE_FEED | RETURN) => {
                self.line.give(Few::Two(Item::Byte(LINE_FEED), Item::End));
                self.echo = Few::Three(Item::Byte(RETURN), Item::Byte(LINE_FEED), Item::End);
            }
            Item::Byte(ERASE) => self.echo = erase(&mut self.line),
            Item::Byte(b) => self.echo = hold(&mut self.line, b),
            Item::End => {
                if !self.line.held().is_empty() {
                    self.line.give(Few::One(Item::End));
                }
            }
            Item::Note(_) => self.line.say(Few::One(x)),
        }
        Ok(())
    }

    fn first(&self) -> Option<Item> {
        self.line.first()
    }

    fn take(&mut self) -> Option<Item> {
        self.line.take()
    }

    fn first_reply(&self) -> Option<Item> {
        self.echo.first()
    }

    fn take_reply(&mut self) -> Option<Item> {
        self.echo.take()
    }
}

/// The down lane. It spells out the end of a line, and has no state.
#[derive(Clone, Copy, Default)]
pub struct CanonicalDown;

impl Mapping for CanonicalDown {
    ghost gives = { spelled };

    fn give(x: Item) -> Few {
        match x {
            Item::Byte(LINE_FEED) => Few::Two(Item::Byte(RETURN), x),
            _ => Few::One(x),
        }
    }
}
