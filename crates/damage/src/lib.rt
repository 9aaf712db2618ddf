// What can happen to a frame on its way.
// Promises: just the damage that is named, and no other.
#![tactic(auto)]

ghost use Rattle.std.specs.Prelude.{◌≡◌, ◌<◌, ◌≤◌, min, ◌++◌, length, take, IfOk};
ghost use Rattle.damage.specs.Damage.{flip, flipped_at};

use item::Item;
use std::alloc::{AllocError, Global};

/// The lowest bit of a byte turned over.
fn flip_bit(x: Item) -> Item
    ensures value { result ≡ flip x }
{
    match x {
        Item::Byte(b) => Item::Byte(b ^ 1),
        _ => x,
    }
}

/// A frame in which the lowest bit of the byte at a place came over wrong; a frame with no such place as it is.
#[tactic(auto, using(crate::proofs::Flipped::set_flipped))]
pub fn bit_wrong(heap: Global, frame: &[Item], place: usize) -> Result<Vec<Item>, AllocError>
    ensures flips { IfOk result (λ v. place < length frame.now → v.items ≡ flipped_at place frame.now) }
    ensures same { IfOk result (λ v. length frame.now ≤ place → v.items ≡ frame.now) }
{
    let mut damaged = Vec::from_slice(heap, frame)?;
    if let Some(x) = damaged.get_mut(place) {
        *x = flip_bit(*x);
    }
    Ok(damaged)
}

/// The beginning of a frame, and then all of it.
pub fn cut_and_sent_again(
    heap: Global,
    frame: &[Item],
    place: usize,
) -> Result<Vec<Item>, AllocError>
    ensures value { IfOk result (λ v. v.items ≡ take (min place (length frame.now)) frame.now ++ frame.now) }
{
    let kept = place.min(frame.len());
    let mut damaged = Vec::from_slice(heap, &frame[..kept])?;
    damaged.extend_from_slice(frame)?;
    Ok(damaged)
}
