// The bytes that were typed, cut into lines.
// Promises: a line ends behind the first byte that ends one, and is typed as its bytes, with END where nothing ends it; the lines
// of some bytes, one behind the other, are just these bytes.
#![tactic(auto)]

ghost use Rattle.std.specs.Prelude.{◌≡◌, ℕ, ◌+◌, ◌-◌, ◌<◌, ◌≤◌, true, false, map, length, IfOk, slice_index};
ghost use Rattle.std.specs.Iterator.{at_most};
ghost use Rattle.item.specs.declared.Item.TheVariants.{Byte};
ghost use Rattle.input.specs.Lines.{ends, ended, line_of, left, GivesLine};

use item::Item;
use std::alloc::{AllocError, Global};

/// Whether a byte ends a line.
fn ends_line(b: u8) -> bool
    ensures value { result ≡ ends b }
{
    matches!(b, b'\n' | b'\r')
}

/// How long the first line is, with the byte that ends it: up to the first such byte, or all where there is none.
pub fn first_line(bytes: &[u8]) -> usize
    ensures within { result ≤ length bytes.now }
    ensures some { 0 < length bytes.now → 0 < result }
    ensures before { (k : ℕ) → k + 1 < result → ends (slice_index bytes.now k) ≡ false }
    ensures last { result < length bytes.now → ends (slice_index bytes.now (result - 1)) ≡ true }
{
    let end = bytes.iter().position(|b| ends_line(*b));
    end.map_or(bytes.len(), |i| i + 1)
}

/// The lines of some bytes, each with the byte that ends it.
#[derive(Drop)]
pub struct Lines<'a> {
    rest: &'a [u8],
}

impl<'a> Lines<'a> {
    pub fn new(bytes: &'a [u8]) -> Self
        ensures all { left result ≡ bytes.now }
    {
        Lines { rest: bytes }
    }
}

impl<'a> Iterator for Lines<'a> {
    type Item = &'a [u8];

    ghost next_gives = { GivesLine };

    ghost remaining = { λ s. at_most (length (left s)) };

    fn next(&mut self) -> Option<&'a [u8]> {
        if self.rest.is_empty() {
            return None;
        }
        let (line, rest) = self.rest.split_at(first_line(self.rest));
        self.rest = rest;
        Some(line)
    }
}

/// Whether the last byte ends a line.
fn is_ended(line: &[u8]) -> bool
    ensures value { result ≡ ended line.now }
{
    line.last().is_some_and(|b| ends_line(*b))
}

/// Bytes as items.
fn byte_items(heap: Global, bytes: &[u8]) -> Result<Vec<Item>, AllocError>
    ensures value { IfOk result (λ v. v.items ≡ map Byte bytes.now) }
{
    bytes.iter().map(|b| Item::Byte(*b)).collect(heap)
}

/// What is typed with a line: its bytes, and END where no byte ends it.
pub fn line_items(heap: Global, line: &[u8]) -> Result<Vec<Item>, AllocError>
    ensures value { IfOk result (λ v. v.items ≡ line_of line.now) }
{
    let mut items = byte_items(heap, line)?;
    if !is_ended(line) {
        items.reserve_exact(1)?;
        items.push(Item::End)?;
    }
    Ok(items)
}
