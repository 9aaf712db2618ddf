// The terminal: the canonical discipline over the case mapper.
ghost use Rattle.std.specs.Prelude.{◌≡◌, OnOk};
ghost use Rattle.bench.specs.Desk.{Started, reader_has, screen_shows, Typed, goes_out, Posted};

use case_mapper::CaseMapper;
use disciplines::Canonical;
use drive::{plain, replying};
use item::Item;
use level::discipline::Discipline;
use level::module::Module;
use std::alloc::{AllocError, Global};

#[derive(Drop)]
pub struct Desk {
    mapper: CaseMapper,
    discipline: Canonical,
}

impl Desk {
    pub fn new() -> Desk
        ensures starts { Started result }
    {
        Desk {
            mapper: CaseMapper::new(),
            discipline: Canonical::new(),
        }
    }

    /// Some items are typed. What the reader gets goes behind `reader`, and what the screen shows behind `screen`.
    pub fn typed(
        &mut self,
        heap: Global,
        given: &[Item],
        reader: &mut Vec<Item>,
        screen: &mut Vec<Item>,
    ) -> Result<(), AllocError>
        ensures reads { OnOk result (reader.new.items ≡ reader_has self.old given.now reader.old.items) }
        ensures shows { OnOk result (screen.new.items ≡ screen_shows self.old given.now screen.old.items) }
        ensures leaves { OnOk result (Typed self.old given.now self.new) }
    {
        let mut line = Vec::new(heap);
        plain::pass(&mut self.mapper.up, given, &mut line)?;
        let mut echo = Vec::new(heap);
        replying::pass(&mut self.discipline.up, line.as_slice(), reader, &mut echo)?;
        plain::pass(&mut self.mapper.echo, echo.as_slice(), screen)
    }

    /// A record is posted to the terminal. What goes out for it goes behind `out`.
    pub fn posted(
        &mut self,
        heap: Global,
        given: &[Item],
        out: &mut Vec<Item>,
    ) -> Result<(), AllocError>
        ensures goes { OnOk result (out.new.items ≡ goes_out self.old given.now out.old.items) }
        ensures leaves { OnOk result (Posted self.old given.now self.new) }
    {
        let mut passed = Vec::new(heap);
        plain::pass(&mut self.discipline.down, given, &mut passed)?;
        plain::pass(&mut self.mapper.down, passed.as_slice(), out)
    }
}
