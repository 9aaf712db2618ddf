// The calls of modules and of disciplines, as one trait: what a list is passed through.
ghost use Rattle.std.specs.Prelude.{◌≡◌, List, [], ◌∷◌, IfSome, IfNone};
ghost use Rattle.item.specs.First.{Leads};
ghost use Rattle.item.specs.declared.Item.{Item};
ghost use Rattle.item.specs.declared.Way.{Way};
ghost use Rattle.level.specs.Module.{ready};
ghost use Rattle.level.specs.Discipline.{top_ready};

use item::{Band, Item, Refusal, Way};
use level::discipline::Discipline;
use level::module::Module;

pub trait Steps {
    ghost waits: { Way → Self → List Item };

    fn step(&mut self, way: Way, item: Item) -> Result<(), Refusal>;

    /// The first item that is ready to go a way; it stays.
    fn first(&self, way: Way) -> Option<Item>
        ensures leads { Leads (waits way self.now) result };

    fn take(&mut self, way: Way) -> Option<Item>
        ensures gives { IfSome result (λ x. waits way self.old ≡ x ∷ waits way self.new) }
        ensures none { IfNone result (waits way self.old ≡ []) };
}

/// Each lane of a module is stepped for itself.
#[derive(Drop)]
pub struct OfModule<M>(pub M);

impl<M: Module> Steps for OfModule<M> {
    ghost waits = { λ way s. ready way (M.Module.level s.0) };

    fn step(&mut self, way: Way, item: Item) -> Result<(), Refusal> {
        self.0.step(way, item)
    }

    fn first(&self, way: Way) -> Option<Item> {
        self.0.first(way)
    }

    fn take(&mut self, way: Way) -> Option<Item> {
        self.0.take(way)
    }
}

/// A step up through a discipline also echoes.
#[derive(Drop)]
pub struct OfDiscipline<D>(pub D);

impl<D: Discipline> Steps for OfDiscipline<D> {
    ghost waits = { λ way s. top_ready way (D.Discipline.top s.0) };

    fn step(&mut self, way: Way, item: Item) -> Result<(), Refusal> {
        // A discipline has a call of its own for each kind of step.
        match way {
            Way::Up | Way::Down(Band::Echo) => self.0.step_up(item),
            Way::Down(Band::Records) => self.0.step_down(item),
        }
    }

    fn first(&self, way: Way) -> Option<Item> {
        self.0.first(way)
    }

    fn take(&mut self, way: Way) -> Option<Item> {
        self.0.take(way)
    }
}
