// The lane that goes up: back to small letters, capitals and the six characters.
ghost use Rattle.std.specs.Prelude.{◌≡◌, Bool};
ghost use Rattle.lane.specs.Few.{items};
ghost use Rattle.case_mapper.specs.Case.{byte_after, gives_up, holds_after, up_rule};

use crate::partner::meant_by;
use item::Item;
use lane::few::Few;
use lane::machine::Machine;

/// What a byte becomes after a backslash.
fn after_backslash(c: u8) -> Few
    ensures value { items result ≡ byte_after c }
{
    match c {
        b'a'..=b'z' | b'A'..=b'Z' => Few::One(Item::Byte(c.to_ascii_uppercase())),
        _ => match meant_by(char::from(c)) {
            Some(p) => Few::One(Item::Byte(p as u8)),
            None => Few::Two(Item::Byte(b'\\'), Item::Byte(c)),
        },
    }
}

/// What an item becomes, after a held backslash or not.
fn read(held: bool, x: Item) -> Few
    ensures value { items result ≡ gives_up held x }
{
    match (held, x) {
        (false, Item::Byte(b'\\')) => Few::Zero,
        (false, Item::Byte(c)) => Few::One(Item::Byte(c.to_ascii_lowercase())),
        (false, _) => Few::One(x),
        (true, Item::Byte(c)) => after_backslash(c),
        (true, _) => Few::Two(Item::Byte(b'\\'), x),
    }
}

/// Whether a backslash is held then.
fn holds_backslash(held: bool, x: Item) -> bool
    ensures value { result ≡ holds_after held x }
{
    matches!((held, x), (false, Item::Byte(b'\\')))
}

#[derive(Clone, Copy)]
pub struct CaseUp {
    held: bool,
}

impl Machine for CaseUp {
    ghost State = { Bool };

    ghost rule = { up_rule };

    ghost state = { λ m. m.held };

    fn new() -> CaseUp {
        CaseUp { held: false }
    }

    fn does(&mut self, x: Item) -> Few {
        let held = self.held;
        self.held = holds_backslash(held, x);
        read(held, x)
    }
}
