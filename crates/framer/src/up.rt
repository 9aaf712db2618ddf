// The lane up: frames are read, and what is no whole frame is told by a NOTE.
ghost use Rattle.std.specs.Prelude.{◌≡◌, []};
ghost use Rattle.lane.specs.Few.{items};
ghost use Rattle.lane.specs.Rule.{holding};
ghost use Rattle.framer.specs.Frame.{xor_of, Place, hunting, body, joined, ending, up_rule};
ghost use Rattle.framer.specs.Views.{up_held};

use crate::{ESCAPE, FLIP, LONGEST, START, STOP};
use item::{Item, Refusal};
use lane::Lane;
use lane::few::Few;
use spool::Spool;

// START, STOP and ESCAPE, as they stand behind ESCAPE.
const START_FLIPPED: u8 = START ^ FLIP;

const STOP_FLIPPED: u8 = STOP ^ FLIP;

const ESCAPE_FLIPPED: u8 = ESCAPE ^ FLIP;

// The NOTE for a body that fails its check. A NOTE travels as its number: an enum of the three would be turned into one where it is
// made, and back where it is shown.
const FAILED: u8 = 11;

// The NOTE for a body that breaks off.
const BROKEN: u8 = 12;

// The NOTE for a body that is too long.
const TOO_LONG: u8 = 13;

// Where the reader is.
#[derive(Clone, Copy)]
enum At {
    Hunting,
    Inside,
    Escaped,
}

/// Where the reader is, and the body so far; a whole one is given out from where it was gathered.
#[derive(Drop)]
pub struct FrameUp {
    at: At,
    body: Spool<LONGEST>,
}

// The exclusive or of some bytes: 0 for a body with its check byte. The loop is a form that is set (docs/DECISIONS.md,
// Forms).
fn check(s: &[u8]) -> u8
    ensures value { result ≡ xor_of s.now }
{
    let mut sum = 0;
    for b in s {
        sum ^= *b;
    }
    sum
}

impl FrameUp {
    // Begins an empty body.
    fn begin(&mut self)
        ensures begins { up_held self.new ≡ holding (body []) [] }
    {
        self.at = At::Inside;
        self.body.clear();
    }

    // Drops the body, and tells why.
    fn give_up(&mut self, why: Few)
        ensures tells { up_held self.new ≡ holding hunting (items why) }
    {
        self.at = At::Hunting;
        self.body.say(why);
    }

    // STOP ends the body.
    fn end(&mut self)
        ensures gives { up_held self.new ≡ holding hunting (ending self.old.body.held) }
    {
        let body = self.body.held();
        if body.is_empty() || check(body) != 0 {
            return self.give_up(Few::One(Item::Note(FAILED)));
        }
        self.at = At::Hunting;
        self.body.pop();
        self.body.give(Few::One(Item::End));
    }

    // Adds a byte to the body.
    fn join(&mut self, b: u8)
        ensures joins { up_held self.new ≡ joined self.old.body.held b }
    {
        match self.body.push(b) {
            Ok(()) => self.at = At::Inside,
            Err(_) => self.give_up(Few::One(Item::Note(TOO_LONG))),
        }
    }
}

impl Lane for FrameUp {
    ghost State = { Place };

    ghost rule = { up_rule };

    ghost holds = { up_held };

    fn new() -> FrameUp {
        FrameUp {
            at: At::Hunting,
            body: Spool::new(),
        }
    }

    fn step(&mut self, x: Item) -> Result<(), Refusal> {
        if self.first().is_some() {
            return Err(Refusal::NoSpace);
        }
        match (self.at, x) {
            (At::Hunting, Item::Byte(START)) => self.begin(),
            (At::Hunting, Item::Byte(_)) | (_, Item::End) => {}
            (_, Item::Byte(START)) => {
                self.begin();
                self.body.say(Few::One(Item::Note(BROKEN)));
            }
            (At::Inside, Item::Byte(STOP)) => self.end(),
            (At::Inside, Item::Byte(ESCAPE)) => self.at = At::Escaped,
            (At::Inside, Item::Byte(b)) => self.join(b),
            (At::Escaped, Item::Byte(START_FLIPPED)) => self.join(START),
            (At::Escaped, Item::Byte(STOP_FLIPPED)) => self.join(STOP),
            (At::Escaped, Item::Byte(ESCAPE_FLIPPED)) => self.join(ESCAPE),
            (At::Escaped, Item::Byte(_)) => self.give_up(Few::One(Item::Note(BROKEN))),
            (At::Hunting, Item::Note(_)) => self.body.say(Few::One(x)),
            (_, Item::Note(_)) => self.give_up(Few::Two(Item::Note(BROKEN), x)),
        }
        Ok(())
    }

    fn first(&self) -> Option<Item> {
        self.body.first()
    }

    fn take(&mut self) -> Option<Item> {
        self.body.take()
    }
}
