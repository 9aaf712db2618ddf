// Up to four items: the ready list of most steps.
// It stays an enum: it can be copied, which the library's vectors of fixed capacity cannot.
ghost use Rattle.std.specs.Prelude.{◌≡◌, [], ◌∷◌, MatchOption};
ghost use Rattle.lane.specs.Few.{items};
ghost use Rattle.item.specs.First.{Leads};

use item::Item;

#[derive(Clone, Copy)]
pub enum Few {
    Zero,
    One(Item),
    Two(Item, Item),
    Three(Item, Item, Item),
    Four(Item, Item, Item, Item),
}

impl Few {
    pub fn first(self) -> Option<Item>
        ensures leads { Leads (items self) result }
    {
        match self {
            Few::Zero => None,
            Few::One(a) | Few::Two(a, _) | Few::Three(a, _, _) | Few::Four(a, _, _, _) => Some(a),
        }
    }

    /// Takes the first item, if there is one.
    pub fn take(&mut self) -> Option<Item>
        ensures takes { MatchOption result ((items self.old ≡ []) × (self.new ≡ self.old)) (λ x. items self.old ≡ x ∷ items self.new) }
    {
        let (first, left) = match *self {
            Few::Zero => return None,
            Few::One(a) => (a, Few::Zero),
            Few::Two(a, b) => (a, Few::One(b)),
            Few::Three(a, b, c) => (a, Few::Two(b, c)),
            Few::Four(a, b, c, d) => (a, Few::Three(b, c, d)),
        };
        *self = left;
        Some(first)
    }
}
