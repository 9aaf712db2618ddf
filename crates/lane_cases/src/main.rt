// Runs a table of cases through every lane of every module and discipline, by the calls that a stream makes. Each line of
// standard input is a case, as `framer up: 9 2 65 65 3 = 65 END`: a lane, what it is given, and what must come out.
// An item is a byte, END or NOTEk; 65*3 stands for 65 65 65, and 65+END*2 for 65 END 65 END. Lines that begin with # and
// empty lines are passed over.
#![tactic(auto)]

mod case;
mod failure;
mod steps;
mod through;

use case::Case;
use failure::Failure;
use std::alloc::Global;
use through::run_case;

/// Runs the case on a line of the table.
fn check_line(heap: Global, line: &str) -> Result<(), Failure> {
    run_case(heap, &Case::parse(heap, line)?)
}

fn run(rt: &(impl Input + Print + AllocGlobal)) -> anyhow::Result<()> {
    let heap = rt.alloc();
    // A line that fails is printed as it is met, so no iterator method gives both counts.
    let (mut right, mut wrong) = (0u64, 0u64);
    for (number, line) in (1u64..).zip(rt.lines(heap)) {
        let line = line?;
        if line.is_empty() || line.as_str().starts_with('#') {
            continue;
        }
        match check_line(heap, line.as_str()) {
            Ok(()) => right = right.saturating_add(1),
            Err(Failure::Memory(error)) => return Err(error.into()),
            Err(failure) => {
                println!(rt; "line {number}: {failure}")?;
                wrong = wrong.saturating_add(1);
            }
        }
    }
    println!(rt; "{right} cases come out as they must, {wrong} do not")?;
    Ok(())
}

fn main(rt: HostRuntime) -> anyhow::Result<()> {
    run(&rt)
}
