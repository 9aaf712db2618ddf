// The line to the scaler: at both ends the raw discipline over the framer.
ghost use Rattle.std.specs.Prelude.{◌≡◌, IfOk};
ghost use Rattle.bench.specs.Scaler.{sent, read, ComesBack};

use disciplines::Raw;
use drive::{plain, replying};
use framer::Framer;
use item::Item;
use level::discipline::Discipline;
use level::module::Module;
use std::alloc::{AllocError, Global};

/// What goes out on a fresh line for some items.
pub fn sent_to_scaler(heap: Global, given: &[Item]) -> Result<Vec<Item>, AllocError>
    ensures value { IfOk result (λ v. v.items ≡ sent given.now) }
{
    let mut top = Raw::new();
    let mut framer = Framer::new();
    let mut passed = Vec::new(heap);
    plain::pass(&mut top.down, given, &mut passed)?;
    let mut line = Vec::new(heap);
    plain::pass(&mut framer.down, passed.as_slice(), &mut line)?;
    Ok(line)
}

/// What the scaler reads from what comes on a fresh line.
pub fn read_by_scaler(heap: Global, line: &[Item]) -> Result<Vec<Item>, AllocError>
    ensures value { IfOk result (λ v. v.items ≡ read line.now) }
{
    let mut top = Raw::new();
    let mut framer = Framer::new();
    let mut passed = Vec::new(heap);
    plain::pass(&mut framer.up, line, &mut passed)?;
    let mut reader = Vec::new(heap);
    let mut echo = Vec::new(heap);
    replying::pass(&mut top.up, passed.as_slice(), &mut reader, &mut echo)?;
    Ok(reader)
}

/// A record on its way to the scaler: the frame, and what is read from it.
#[derive(Drop)]
pub struct Exchange {
    pub frame: Vec<Item>,
    pub back: Vec<Item>,
}

// The law: a record of up to 1,024 bytes that is sent is read as it was.
#[tactic(auto, using(crate::proofs::Back::comes_back))]
fn comes_back()
    ensures law { ComesBack }
{}

/// Sends some items to the scaler, and reads them there. A record of up to 1,024 bytes is read as it was.
pub fn send_and_read_back(heap: Global, given: &[Item]) -> Result<Exchange, AllocError>
    ensures frame { IfOk result (λ e. e.frame.items ≡ sent given.now) }
    ensures back { IfOk result (λ e. e.back.items ≡ read (sent given.now)) }
    ensures law { ComesBack }
{
    comes_back();
    let frame = sent_to_scaler(heap, given)?;
    let back = read_by_scaler(heap, frame.as_slice())?;
    Ok(Exchange { frame, back })
}
