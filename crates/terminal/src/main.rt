// The bench terminal. What is typed at it comes as standard input, or is a sample line about a lot of butter. For each line
// it prints what the reader gets, what the screen shows, the frame that goes to the scaler and what the scaler reads from
// it, also where the frame is damaged on the way. The work is done, and proved, in the crates below; this one prints.
#![tactic(auto)]

ghost use Rattle.std.specs.Prelude.{◌≡◌, []};

use bench::desk::Desk;
use input::{Lines, line_items};
use item::Item;
use report::{TITLE, print_heading, print_reader, typed_bytes};
use show::{OnScreen, Spelled};
use std::alloc::Global;

/// What came of a typed line: what the reader gets, and what the screen shows.
#[derive(Drop)]
struct Report {
    reader: Vec<Item>,
    screen: Vec<Item>,
}

impl Report {
    fn new(heap: Global) -> Report
        ensures empty { (result.reader.items ≡ []) × (result.screen.items ≡ []) }
    {
        Report {
            reader: Vec::new(heap),
            screen: Vec::new(heap),
        }
    }
}

/// Types one line, and prints what comes of it.
fn type_line(
    rt: &(impl Print + AllocGlobal),
    desk: &mut Desk,
    number: u64,
    line: &[u8],
) -> anyhow::Result<()> {
    let heap = rt.alloc();
    let items = line_items(heap, line)?;
    let mut report = Report::new(heap);
    desk.typed(
        heap,
        items.as_slice(),
        &mut report.reader,
        &mut report.screen,
    )?;
    print_heading(rt, number, line)?;
    println!(rt;
        "  the screen shows  {}",
        Spelled::<OnScreen>::new(report.screen.as_slice())
    )?;
    print_reader(rt, report.reader.as_slice())
}

fn run(rt: &(impl Input + Print + AllocGlobal)) -> anyhow::Result<()> {
    let typed = typed_bytes(rt)?;
    println!(rt; "{TITLE}")?;
    let mut desk = Desk::new();
    let mut lines = 0;
    for (number, line) in (1u64..).zip(Lines::new(typed.as_slice())) {
        type_line(rt, &mut desk, number, line)?;
        lines = number;
    }
    println!(rt; "Lines typed: {lines}")?;
    Ok(())
}

fn main(rt: HostRuntime) -> anyhow::Result<()> {
    run(&rt)
}
