// Holds the reader against run sheets, sound and damaged, whose answers were worked out without it.
#![tactic(auto)]

ghost use Rattle.std.specs.Prelude.{◌<◌, length, IfSome};

use account::whole::account;
use anyhow::Context;
use columns::read;
use std::fs;

// How many cases are read of a list.
const MOST: u64 = 1_000_000;

// What is wanted of a sheet, or what came of it.
#[derive(Clone, Copy, PartialEq, Eq)]
enum Answer {
    // so many lines, and no fault
    Whole(u64),
    Faulty { line: u64, column: u64, number: u64 },
}

impl Answer {
    // The number of the refusal, 0 where there is none.
    fn number(self) -> u64 {
        match self {
            Answer::Whole(_) => 0,
            Answer::Faulty { number, .. } => number,
        }
    }
}

#[derive(Clone, Copy)]
struct Case<'a> {
    wanted: Answer,
    sheet: &'a [u8],
    behind: &'a [u8],
}

// One of the four numbers before a sheet.
fn number_at(head: &[u8], place: usize) -> Option<u64> {
    let start = place.checked_mul(20)?;
    read(head.get(start..start.checked_add(20)?)?)
}

// The case that stands in front: the wanted line, column and number, the sheet's length, and the sheet.
fn case_at(bytes: &[u8]) -> Option<Case<'_>>
    ensures { IfSome result (λ c. length c.behind.now < length bytes.now) }
{
    let (head, rest) = bytes.split_at_checked(80)?;
    let length = usize::try_from(number_at(head, 3)?).ok()?;
    let (sheet, behind) = rest.split_at_checked(length)?;
    let wanted = match (
        number_at(head, 0)?,
        number_at(head, 1)?,
        number_at(head, 2)?,
    ) {
        (lines, 0, 0) => Answer::Whole(lines),
        (line, column, number) => Answer::Faulty {
            line,
            column,
            number,
        },
    };
    Some(Case {
        wanted,
        sheet,
        behind,
    })
}

fn read_whole(sheet: &[u8]) -> Answer {
    match account(sheet) {
        Ok(tally) => Answer::Whole(tally.lines),
        Err(found) => Answer::Faulty {
            line: found.line,
            column: found.fault.column() as u64,
            number: u64::from(found.fault.refusal().number()),
        },
    }
}

fn run(rt: &HostRuntime) -> anyhow::Result<()> {
    let data = fs::read(rt, "cases")?;
    let mut left = data.as_slice();
    let mut cases = 0u64;
    let mut differ = 0u64;
    while !left.is_empty() && cases < MOST {
        let case = case_at(left).context("the list of cases is damaged")?;
        let got = read_whole(case.sheet);
        cases = cases.saturating_add(1);
        if got != case.wanted {
            differ = differ.saturating_add(1);
            let wanted = case.wanted.number();
            let number = got.number();
            println!(rt; "case {cases}: number {number} where {wanted} is wanted")?;
        }
        left = case.behind;
    }
    println!(rt; "{cases} sheets, {differ} differences")?;
    Ok(())
}

fn main(rt: HostRuntime) -> anyhow::Result<()> {
    run(&rt)
}
