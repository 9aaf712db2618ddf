// A case's list through a lane, by the calls of modules and disciplines.
ghost use Rattle.std.specs.Prelude.{◌≡◌};

use crate::case::Case;
use crate::failure::Failure;
use crate::steps::{OfDiscipline, OfModule, Steps};
use case_mapper::CaseMapper;
use disciplines::{Canonical, Raw};
use framer::Framer;
use item::{Band, Item, Refusal, Way};
use level::discipline::Discipline;
use level::module::Module;
use std::alloc::Global;

/// A way that is known when the code is built, so that what is done for each item asks for no way.
trait Toward {
    const WAY: Way;
}

struct Up;

struct Records;

struct Echo;

impl Toward for Up {
    const WAY: Way = Way::Up;
}

impl Toward for Records {
    const WAY: Way = Way::Down(Band::Records);
}

impl Toward for Echo {
    const WAY: Way = Way::Down(Band::Echo);
}

/// Runs a case through the lane that it names, just started.
pub fn run_case(heap: Global, case: &Case) -> Result<(), Failure> {
    let (level, way) = case.lane.split_once(' ').ok_or(Failure::NoSuchLane)?;
    let way = parse_way(way)?;
    // The names pick types: a table of functions would hold the same run at each of them, and be no plainer.
    match level {
        "mapper" => Run::new(heap, OfModule(CaseMapper::new()), way).check(case),
        "framer" => Run::new(heap, OfModule(Framer::new()), way).check(case),
        "canonical" => Run::new(heap, OfDiscipline(Canonical::new()), way).check(case),
        "raw" => Run::new(heap, OfDiscipline(Raw::new()), way).check(case),
        _ => Err(Failure::NoSuchLane),
    }
}

/// The way that a word names; ways too are another crate's.
fn parse_way(word: &str) -> Result<Way, Failure> {
    match word {
        "up" => Ok(Way::Up),
        "down" => Ok(Way::Down(Band::Records)),
        "echo" => Ok(Way::Down(Band::Echo)),
        _ => Err(Failure::NoSuchLane),
    }
}

/// A run of a list through a lane: the lanes, and the way that the list goes.
#[derive(Drop)]
struct Run<S> {
    heap: Global,
    lanes: S,
    way: Way,
}

impl<S: Steps + Drop> Run<S> {
    fn new(heap: Global, lanes: S, way: Way) -> Self
        ensures lanes { result.lanes ≡ lanes }
        ensures way { result.way ≡ way }
    {
        Run { heap, lanes, way }
    }

    /// What the case gives must come out as it expects.
    fn check(&mut self, case: &Case) -> Result<(), Failure> {
        let out = self.through(case.given.as_slice())?;
        if out.as_slice() != case.expected.as_slice() {
            return Err(Failure::SomethingElse);
        }
        Ok(())
    }

    /// Steps a list through the lane, and gives what comes out.
    fn through(&mut self, given: &[Item]) -> Result<Vec<Item>, Failure> {
        let mut out = Vec::new(self.heap);
        let mut aside = Vec::new(self.heap);
        match self.way {
            Way::Up => self.up_and_echo::<Up>(given, &mut out, &mut aside)?,
            Way::Down(Band::Echo) => self.up_and_echo::<Echo>(given, &mut aside, &mut out)?,
            Way::Down(Band::Records) => {
                for item in given {
                    self.lanes.step(Records::WAY, *item)?;
                    self.drain::<Records, Records>(*item, &mut out)?;
                }
            }
        }
        Ok(out)
    }

    /// Steps a list up or as an echo. A step up may also echo, so both ways are emptied after each.
    fn up_and_echo<At: Toward>(
        &mut self,
        given: &[Item],
        up: &mut Vec<Item>,
        echo: &mut Vec<Item>,
    ) -> Result<(), Failure> {
        for item in given {
            self.lanes.step(At::WAY, *item)?;
            self.drain::<At, Up>(*item, up)?;
            self.drain::<At, Echo>(*item, echo)?;
        }
        Ok(())
    }

    /// Takes all that a step with an item left ready to go a way, and puts it behind `out`. As long as that is anything, a further step is
    /// refused for want of space, and takes nothing away: each take gives what the question before it told.
    fn drain<At: Toward, To: Toward>(
        &mut self,
        stepped: Item,
        out: &mut Vec<Item>,
    ) -> Result<(), Failure> {
        let way = To::WAY;
        let mut told = self.lanes.first(way);
        if told.is_some() {
            must(self.lanes.step(At::WAY, stepped) == Err(Refusal::NoSpace))?;
        }
        while let Some(item) = self.lanes.take(way) {
            must(told == Some(item))?;
            out.push(item)?;
            told = self.lanes.first(way);
        }
        must(told.is_none())
    }
}

/// A call did what it must, or the case fails.
fn must(did: bool) -> Result<(), Failure> {
    if did {
        Ok(())
    } else {
        Err(Failure::OutOfOrder)
    }
}
