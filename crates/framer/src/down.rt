// The lane down: a record goes as a frame.
ghost use Rattle.std.specs.Prelude.{◌≡◌, ℕ, ◌++◌, Option};
ghost use Rattle.lane.specs.Few.{items};
ghost use Rattle.framer.specs.Frame.{opening, sent, gives_down, down_rule};

use crate::{ESCAPE, FLIP, START, STOP};
use item::Item;
use lane::few::Few;
use lane::machine::Machine;

/// The exclusive or of the bytes of a record begun, or none.
#[derive(Clone, Copy)]
pub struct FrameDown {
    sum: Option<u8>,
}

// A payload byte as it is sent, behind START if the record is not begun.
fn opened(sum: Option<u8>, b: u8) -> Few
    ensures gives { items result ≡ opening sum ++ sent b }
{
    match (sum, b) {
        (None, START | STOP | ESCAPE) => Few::Three(
            Item::Byte(START),
            Item::Byte(ESCAPE),
            Item::Byte(b ^ FLIP),
        ),
        (None, _) => Few::Two(Item::Byte(START), Item::Byte(b)),
        (Some(_), START | STOP | ESCAPE) => Few::Two(Item::Byte(ESCAPE), Item::Byte(b ^ FLIP)),
        (Some(_), _) => Few::One(Item::Byte(b)),
    }
}

// END behind the check byte and STOP.
fn closed(sum: Option<u8>) -> Few
    ensures gives { items result ≡ gives_down sum Item.End }
{
    match sum {
        None => Few::Four(
            Item::Byte(START),
            Item::Byte(0),
            Item::Byte(STOP),
            Item::End,
        ),
        Some(c @ (START | STOP | ESCAPE)) => Few::Four(
            Item::Byte(ESCAPE),
            Item::Byte(c ^ FLIP),
            Item::Byte(STOP),
            Item::End,
        ),
        Some(c) => Few::Three(Item::Byte(c), Item::Byte(STOP), Item::End),
    }
}

impl Machine for FrameDown {
    ghost State = { Option ℕ };

    ghost rule = { down_rule };

    ghost state = { λ m. m.sum };

    fn new() -> FrameDown {
        FrameDown { sum: None }
    }

    fn does(&mut self, x: Item) -> Few {
        let sum = self.sum;
        match x {
            Item::Byte(b) => {
                self.sum = Some(sum.unwrap_or(0) ^ b);
                opened(sum, b)
            }
            Item::End => {
                self.sum = None;
                closed(sum)
            }
            Item::Note(_) => Few::One(x),
        }
    }
}
