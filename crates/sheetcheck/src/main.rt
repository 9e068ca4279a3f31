// Reads a run sheet on standard input, and prints an account of it or its first fault.
#![tactic(auto)]

use account::tally::{KINDS, Tally};
use account::whole::{SheetFault, account};
use anyhow::anyhow;
use std::io::Read;

const NAMES: [&str; KINDS] = [
    "RST  run started",
    "RFN  run finished",
    "CAN  run cancelled",
    "PAU  run paused",
    "CON  run continued",
    "TST  test started",
    "RTR  test started again",
    "AFR  attempt failed, will retry",
    "TFN  test finished",
    "SST  setup script started",
    "SFN  setup script finished",
    "SUB  stress sub-run started",
    "SUF  stress sub-run finished",
    "SLW  test slow",
    "SSL  setup script slow",
    "SKP  test skipped",
];

fn print_tally(rt: &HostRuntime, tally: &Tally) -> anyhow::Result<()> {
    let lines = tally.lines;
    println!(rt; "The run sheet is whole. Lines: {lines}.")?;
    for (count, name) in tally.kinds.iter().zip(NAMES) {
        println!(rt; "{count:>8}  {name}")?;
    }
    if let Some(first) = tally.first {
        let micros = first.micros;
        println!(rt; "First time: {micros} microseconds.")?;
    }
    if let Some(last) = tally.last {
        let micros = last.micros;
        println!(rt; "Last time: {micros} microseconds.")?;
    }
    Ok(())
}

fn print_fault(rt: &HostRuntime, found: &SheetFault) -> anyhow::Result<()> {
    let SheetFault { line, fault } = found;
    let column = fault.column();
    let number = fault.refusal().number();
    let words = fault.sentence();
    println!(rt; "Line {line}, column {column}, refusal {number}: {words}.")?;
    Ok(())
}

fn main(rt: HostRuntime) -> anyhow::Result<()> {
    let mut sheet = Vec::new(rt.alloc());
    rt.stdin().read_to_end(&mut sheet)?;
    match account(sheet.as_slice()) {
        Ok(tally) => print_tally(&rt, &tally),
        Err(found) => {
            print_fault(&rt, &found)?;
            Err(anyhow!("the run sheet is refused"))
        }
    }
}
