// The lanes that go down: to capitals, and a backslash before what would be lost.
ghost use Rattle.std.specs.Prelude.{◌≡◌};
ghost use Rattle.lane.specs.Few.{items};
ghost use Rattle.case_mapper.specs.Case.{byte_down, gives_down};

use crate::partner::sign_of;
use item::Item;
use lane::few::Few;
use lane::machine::Mapping;

/// What a byte becomes.
fn sent(c: u8) -> Few
    ensures value { items result ≡ byte_down c }
{
    match c {
        b'a'..=b'z' => Few::One(Item::Byte(c.to_ascii_uppercase())),
        b'A'..=b'Z' => Few::Two(Item::Byte(b'\\'), Item::Byte(c)),
        _ => match sign_of(char::from(c)) {
            Some(s) => Few::Two(Item::Byte(b'\\'), Item::Byte(s as u8)),
            None => Few::One(Item::Byte(c)),
        },
    }
}

/// It has no state.
#[derive(Clone, Copy, Default)]
pub struct CaseDown;

impl Mapping for CaseDown {
    ghost gives = { gives_down };

    fn give(x: Item) -> Few {
        match x {
            Item::Byte(c) => sent(c),
            _ => Few::One(x),
        }
    }
}
