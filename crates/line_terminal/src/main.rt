// The bench terminal at a serial line. What is typed comes as standard input, or is a sample line about a lot of butter. It arrives
// at the UART, and what goes out is sent there: the echo, and an answer to each line. For each line it prints the order on the
// line, what the reader gets, the frame that goes to the scaler and what the scaler reads from it, also where the frame is damaged
// on the way. What becomes of the items is worked out, and proved, in the crates below; this one cuts a line into bursts that the
// UART has room for, answers it, and prints.
#![tactic(auto)]

mod order;
mod terminal;

use drivers::{looping, uart};
use input::{Lines, line_items};
use item::{Band, Item};
use report::{TITLE, typed_bytes};
use terminal::Terminal;
use wire::{fetch_all, offer_all, send_all};

/// Sends a record over a loop plug, and prints what comes back.
fn print_loop(rt: &(impl Print + AllocGlobal)) -> anyhow::Result<()> {
    let heap = rt.alloc();
    let mut plug = looping::new();
    let record = line_items(heap, b"TEST")?;
    let _ = offer_all(&mut plug, Band::Records, record.as_slice());
    let mut sent = Vec::new(heap);
    send_all(&mut plug, &mut sent)?;
    let mut back = Vec::new(heap);
    fetch_all(&mut plug, &mut back)?;
    println!(rt;
        "With a loop plug, of {} items sent {} come back",
        sent.len(),
        back.len()
    )?;
    Ok(())
}

fn run<R: Input + Print + AllocGlobal>(rt: &R) -> anyhow::Result<()> {
    let typed = typed_bytes(rt)?;
    println!(rt; "{TITLE}")?;
    let (mut waiting, mut records, mut echo) = (
        [Item::End; 24],
        [Item::End; 256],
        [Item::End; 256],
    );
    let mut line = uart::over(&mut waiting, &mut records, &mut echo);
    if let Err(refusal) = uart::lay_out(&mut line) {
        println!(rt; "The UART's lay out is refused {}", refusal.number())?;
        return Ok(());
    }
    let mut terminal = Terminal::new(rt, line);
    let mut lines = 0;
    for (number, line) in (1u64..).zip(Lines::new(typed.as_slice())) {
        terminal.type_line(number, line)?;
        lines = number;
    }
    terminal.print_begun()?;
    print_loop(rt)?;
    println!(rt; "Lines typed: {lines}")?;
    Ok(())
}

fn main(rt: HostRuntime) -> anyhow::Result<()> {
    run(&rt)
}
