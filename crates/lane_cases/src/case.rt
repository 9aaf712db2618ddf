// A case, and how its line is read.
ghost use Rattle.std.specs.Prelude.{◌≤◌, OnOk, vec_len};

use crate::failure::Failure;
use item::Item;
use std::alloc::Global;

#[derive(Drop)]
pub struct Case<'a> {
    pub lane: &'a str,
    pub given: Vec<Item>,
    pub expected: Vec<Item>,
}

impl<'a> Case<'a> {
    /// The case that stands on a line.
    pub fn parse(heap: Global, line: &'a str) -> Result<Self, Failure> {
        let (lane, lists) = line.split_once(':').ok_or(Failure::NotACase)?;
        let (given, expected) = lists.split_once('=').ok_or(Failure::NotACase)?;
        let given = parse_items(heap, given)?;
        let expected = parse_items(heap, expected)?;
        Ok(Case {
            lane,
            given,
            expected,
        })
    }
}

/// The items of a list of words.
fn parse_items(heap: Global, words: &str) -> Result<Vec<Item>, Failure> {
    let mut items = Vec::new(heap);
    for word in words.split_whitespace() {
        let (group, times) = parse_times(word)?;
        if times == 0 {
            continue;
        }
        let first = items.len();
        push_group(group, &mut items)?;
        let behind = items.len();
        for _ in 1..times {
            items.extend_from_within(first..behind)?;
        }
    }
    Ok(items)
}

/// The items of a word, and how often they stand there.
fn parse_times(word: &str) -> Result<(&str, u16), Failure> {
    match word.split_once('*') {
        Some((group, times)) => Ok((group, times.parse()?)),
        None => Ok((word, 1)),
    }
}

/// The items of a group go behind others.
fn push_group(group: &str, items: &mut Vec<Item>) -> Result<(), Failure>
    ensures longer { OnOk result (vec_len items.old ≤ vec_len items.new) }
{
    for word in group.split('+') {
        items.push(parse_item(word)?)?;
    }
    Ok(())
}

/// A byte, END or NOTEk.
// Items are another crate's, and this is how the table spells them: so it is no `FromStr`.
fn parse_item(word: &str) -> Result<Item, Failure> {
    if word == "END" {
        return Ok(Item::End);
    }
    match word.strip_prefix("NOTE") {
        Some(k) => Ok(Item::Note(k.parse()?)),
        None => Ok(Item::Byte(word.parse()?)),
    }
}
