// Items as text that a person can read.
// Promises: the text is just what specs/Shown.antt says of each item, in order.
#![tactic(auto)]

ghost use Rattle.std.specs.Prelude.{◌≡◌, ℕ, List, Some, IfOk, string_bytes};
ghost use Rattle.item.specs.declared.Item.{Item};
ghost use Rattle.std.proofs.Common.{ap};
ghost use Rattle.show.specs.Shown.{byte_text, meaning_of, item_text, screen_text, number_text, spelled, items_of};

use item::Item;
use std::alloc::{AllocError, Global};
use std::fmt::{self, Display, Formatter};
use std::marker::PhantomData;

/// What a NOTE tells.
// A NOTE travels as its number: an enum of the three would be turned into it where it is made and back here, and be no plainer.
fn meaning(note: u8) -> &'static str
    ensures value { result.now ≡ meaning_of note }
{
    match note {
        11 => "the check byte does not fit",
        12 => "a frame was broken off",
        13 => "a frame was too long",
        _ => "from the line",
    }
}

/// A byte as itself, or by its number where it cannot be printed.
#[derive(Clone, Copy)]
struct Printable(u8);

impl Display for Printable {
    ghost output = { λ s. Some (byte_text s.0) };

    fn fmt<W: fmt::Write>(&self, f: &mut Formatter<W>) -> fmt::Result {
        let b = self.0;
        match b {
            b' '..=b'~' => write!(f, "{}", char::from(b)),
            _ => write!(f, "<{b}>"),
        }
    }
}

/// A way to show items.
pub trait Style {
    ghost shows: { Item → List ℕ };

    fn show(heap: Global, item: Item) -> Result<String, AllocError>
        ensures value { IfOk result (λ s. string_bytes s ≡ shows item) };
}

/// A way to show items by values that are made of an item and write it.
pub trait DisplayStyle: Display + From<Item> + Drop + Sized {
    ghost writes: { Item → List ℕ };

    /// A value made of an item writes that item.
    ghost written: { (item : Item) (s : Self) → Self.From.from_gives item s → Self.Display.output s ≡ Some (writes item) };
}

/// It shows what such a value writes.
impl<S: DisplayStyle> Style for S {
    ghost shows = { S.DisplayStyle.writes };

    fn show(heap: Global, item: Item) -> Result<String, AllocError> {
        S::from(item).to_string(heap)
    }
}

/// Everything shows.
#[derive(Clone, Copy)]
pub struct AsText(pub Item);

impl Display for AsText {
    ghost output = { λ s. Some (item_text s.0) };

    fn fmt<W: fmt::Write>(&self, f: &mut Formatter<W>) -> fmt::Result {
        match self.0 {
            Item::Byte(b) => write!(f, "{}", Printable(b)),
            Item::End => write!(f, "<END>"),
            Item::Note(k) => write!(f, "<NOTE {k}: {}>", meaning(k)),
        }
    }
}

impl From<Item> for AsText {
    ghost from_gives = { λ item s. s.0 ≡ item };

    fn from(item: Item) -> AsText {
        AsText(item)
    }
}

impl DisplayStyle for AsText {
    ghost writes = { item_text };

    ghost written = { λ item s held. ap (λ (x : Item). Some (item_text x)) held };
}

/// The ends of records do not show.
#[derive(Clone, Copy)]
pub struct OnScreen(pub Item);

impl Display for OnScreen {
    ghost output = { λ s. Some (screen_text s.0) };

    fn fmt<W: fmt::Write>(&self, f: &mut Formatter<W>) -> fmt::Result {
        match self.0 {
            Item::End => Ok(()),
            item => write!(f, "{}", AsText(item)),
        }
    }
}

impl From<Item> for OnScreen {
    ghost from_gives = { λ item s. s.0 ≡ item };

    fn from(item: Item) -> OnScreen {
        OnScreen(item)
    }
}

impl DisplayStyle for OnScreen {
    ghost writes = { screen_text };

    ghost written = { λ item s held. ap (λ (x : Item). Some (screen_text x)) held };
}

/// Bytes show as numbers, and nothing else shows.
#[derive(Clone, Copy)]
pub struct AsNumbers(pub Item);

impl Display for AsNumbers {
    ghost output = { λ s. Some (number_text s.0) };

    fn fmt<W: fmt::Write>(&self, f: &mut Formatter<W>) -> fmt::Result {
        match self.0 {
            Item::Byte(b) => write!(f, " {b}"),
            _ => Ok(()),
        }
    }
}

impl From<Item> for AsNumbers {
    ghost from_gives = { λ item s. s.0 ≡ item };

    fn from(item: Item) -> AsNumbers {
        AsNumbers(item)
    }
}

impl DisplayStyle for AsNumbers {
    ghost writes = { number_text };

    ghost written = { λ item s held. ap (λ (x : Item). Some (number_text x)) held };
}

/// Some items in a style, one after the other.
#[derive(Drop)]
pub struct Spelled<'a, S> {
    items: &'a [Item],
    style: PhantomData<S>,
}

impl<'a, S: DisplayStyle> Spelled<'a, S> {
    pub fn new(items: &'a [Item]) -> Self
        ensures items { items_of result ≡ items.now }
    {
        Spelled {
            items,
            style: PhantomData,
        }
    }
}

impl<S: DisplayStyle> Display for Spelled<'_, S> {
    ghost output = { λ s. Some (spelled S.DisplayStyle.writes (items_of s)) };

    fn fmt<W: fmt::Write>(&self, f: &mut Formatter<W>) -> fmt::Result {
        for item in self.items {
            write!(f, "{}", S::from(*item))?;
        }
        Ok(())
    }
}

/// The text of some items, one after the other. A `Spelled` writes it with no text for each item.
#[tactic(auto, using(crate::proofs::Spelling::spelled_more))]
pub fn spell<S: Style>(heap: Global, items: &[Item]) -> Result<String, AllocError>
    ensures value { IfOk result (λ s. string_bytes s ≡ spelled S.Style.shows items.now) }
{
    let mut text = String::new(heap);
    for item in items {
        text.push_str(S::show(heap, *item)?.as_str())?;
    }
    Ok(text)
}

#[cfg(test)]
mod tests {
    use super::*;
    use std::test::Fail;

    // A style of one's own, with no value that writes.
    struct Plain;

    impl Style for Plain {
        ghost shows = { item_text };

        fn show(heap: Global, item: Item) -> Result<String, AllocError> {
            <AsText as Style>::show(heap, item)
        }
    }

    #[test]
    fn spells_in_a_style_of_ones_own(rt: HostRuntime) -> Result<(), Fail> {
        let text = spell::<Plain>(rt.alloc(), &[Item::Byte(b'K'), Item::End])?;
        assert_eq!(rt; text.as_str(), "K<END>");
        Ok(())
    }

    #[test]
    fn spells_in_each_style(rt: HostRuntime) -> Result<(), Fail> {
        let heap = rt.alloc();
        let items = [
            Item::Byte(b'K'),
            Item::Byte(b'\n'),
            Item::Note(12),
            Item::End,
        ];
        let text = spell::<AsText>(heap, &items)?;
        assert_eq!(rt;
            text.as_str(),
            "K<10><NOTE 12: a frame was broken off><END>"
        );
        let screen = spell::<OnScreen>(heap, &items)?;
        assert_eq!(rt; screen.as_str(), "K<10><NOTE 12: a frame was broken off>");
        let numbers = spell::<AsNumbers>(heap, &items)?;
        assert_eq!(rt; numbers.as_str(), " 75 10");
        let end = <AsText as Style>::show(heap, Item::End)?;
        assert_eq!(rt; end.as_str(), "<END>");
        Ok(())
    }
}
