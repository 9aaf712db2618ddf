// What the two bench terminals have alike: where the typed bytes come from, and what is printed of what the reader gets.
#![tactic(auto)]

ghost use Rattle.std.specs.Prelude.{◌<◌, vec_len, IfOk};

use bench::scaler::{read_by_scaler, send_and_read_back};
use damage::{bit_wrong, cut_and_sent_again};
use item::Item;
use show::{AsNumbers, AsText, Spelled};
use std::fmt::Display;
use std::io::Read;

/// What a terminal says at first.
pub const TITLE: &str = "A bench terminal. What cannot be printed is shown as <10>, by its number.";

const SAMPLE: &[u8] = b"LOT 4711: \\BUTTER, 25 KG \\(UNSALTED\\)\r";

/// The typed bytes: standard input or, where that is empty, a sample line about a lot of butter.
pub fn typed_bytes(rt: &(impl Input + AllocGlobal)) -> anyhow::Result<Vec<u8>>
    ensures some { IfOk result (λ v. 0 < vec_len v) }
{
    let mut bytes = Vec::new(rt.alloc());
    rt.reader().read_to_end(&mut bytes)?;
    if bytes.is_empty() {
        bytes.extend_from_slice(SAMPLE)?;
    }
    Ok(bytes)
}

/// Prints the heading of a typed line: its number, and how long it is.
pub fn print_heading(rt: &impl Print, number: u64, typed: &[u8]) -> anyhow::Result<()> {
    println!(rt; "Line {number}, of {} typed bytes:", typed.len())?;
    Ok(())
}

/// Prints what the reader gets and, if that is anything, how it comes to the scaler.
pub fn print_reader(rt: &(impl Print + AllocGlobal), reader: &[Item]) -> anyhow::Result<()> {
    if reader.is_empty() {
        println!(rt; "  the reader gets   nothing")?;
        return Ok(());
    }
    println!(rt; "  the reader gets   {}", Spelled::<AsText>::new(reader))?;
    print_frame(rt, reader)
}

/// Prints the frame for the scaler, and what is read from it, whole and damaged.
fn print_frame(rt: &(impl Print + AllocGlobal), record: &[Item]) -> anyhow::Result<()> {
    let heap = rt.alloc();
    let sent = send_and_read_back(heap, record)?;
    let frame = sent.frame.as_slice();
    println!(rt; "  to the scaler    {}", Spelled::<AsNumbers>::new(frame))?;
    println!(rt;
        "  the scaler reads  {}",
        Spelled::<AsText>::new(sent.back.as_slice())
    )?;
    let place = frame.len() / 2;
    let wrong = bit_wrong(heap, frame, place)?;
    print_read(
        rt,
        format_args!("with a bit wrong in byte {place}"),
        wrong.as_slice(),
    )?;
    let twice = cut_and_sent_again(heap, frame, place)?;
    print_read(
        rt,
        format_args!("cut off after {place} bytes and sent again"),
        twice.as_slice(),
    )
}

/// Prints how a frame was damaged, and what the scaler reads of it.
fn print_read(
    rt: &(impl Print + AllocGlobal),
    damage: impl Display + Drop,
    line: &[Item],
) -> anyhow::Result<()> {
    let read = read_by_scaler(rt.alloc(), line)?;
    println!(rt;
        "  {damage}, it reads  {}",
        Spelled::<AsText>::new(read.as_slice())
    )?;
    Ok(())
}
