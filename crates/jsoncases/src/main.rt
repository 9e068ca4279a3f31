// Holds the JSON writer against texts that were made without it.
#![tactic(auto)]

ghost use Rattle.std.specs.Prelude.{◌≡◌, ◌+◌, ◌<◌, ◌≤◌, length, OnSome};

use anyhow::Context;
use columns::{Number, read};
use names::{Entry, NameBook};
use sinks::{RecordList, Sink};
use states::{Finished, Recording};
use std::fs;
use trace::{ARGUMENTS, TraceEvent};
use trace_json::write_json;

// How many cases are read of a list.
const MOST: u64 = 1_000_000;

// How long the output is, and what it is filled with before the writer gets it.
const LENGTH: usize = 16384;

const FILLED: u8 = 170;

static UNTOUCHED: [u8; LENGTH] = [FILLED; LENGTH];

// The bytes of a list of cases that are still to be read.
#[derive(Drop)]
struct Cursor<'a> {
    left: &'a [u8],
}

impl<'a> Cursor<'a> {
    fn part(&mut self, len: usize) -> Option<&'a [u8]>
        ensures { OnSome result (length self.new.left.now + len ≡ length self.old.left.now) }
    {
        let (part, left) = self.left.split_at_checked(len)?;
        self.left = left;
        Some(part)
    }

    fn byte(&mut self) -> Option<u8>
        ensures { OnSome result (length self.new.left.now + 1 ≡ length self.old.left.now) }
    {
        let (byte, left) = self.left.split_first()?;
        self.left = left;
        Some(*byte)
    }

    fn number<N: Number>(&mut self) -> Option<N>
        ensures { OnSome result (length self.new.left.now + 20 ≡ length self.old.left.now) }
    {
        read(self.part(20)?)
    }

    fn size(&mut self) -> Option<usize>
        ensures { OnSome result (length self.new.left.now + 20 ≡ length self.old.left.now) }
    {
        let n: u64 = self.number()?;
        usize::try_from(n).ok()
    }

    fn arguments(&mut self) -> Option<[u64; ARGUMENTS]>
        ensures { OnSome result (length self.new.left.now ≤ length self.old.left.now) }
    {
        let mut arguments = [0; ARGUMENTS];
        for n in &mut arguments {
            *n = self.number_or_0()?;
        }
        Some(arguments)
    }

    // A number of an event: a column that is no number counts as 0, as in a trace sheet.
    fn number_or_0<N: Number + Default>(&mut self) -> Option<N>
        ensures { OnSome result (length self.new.left.now + 20 ≡ length self.old.left.now) }
    {
        Some(read(self.part(20)?).unwrap_or_default())
    }

    // An event, and the line feed behind it: a line of a trace sheet, which the crate sinks reads for itself alone.
    fn event(&mut self) -> Option<TraceEvent>
        ensures { OnSome result (length self.new.left.now ≤ length self.old.left.now) }
    {
        let e = TraceEvent {
            phase: self.byte()?,
            category: self.number_or_0()?,
            label: self.number_or_0()?,
            first: self.number_or_0()?,
            second: self.number_or_0()?,
            time: self.number_or_0()?,
            process: self.number_or_0()?,
            lane: self.number_or_0()?,
            arrow: self.number_or_0()?,
            kind: self.number_or_0()?,
            arguments: self.arguments()?,
        };
        self.byte()?;
        Some(e)
    }
}

// Enters texts behind the version.
fn enter_texts(cursor: &mut Cursor, book: &mut NameBook, count: usize) -> Option<()>
    ensures { OnSome result (length cursor.new.left.now ≤ length cursor.old.left.now) }
{
    for _ in 0..count {
        let len = cursor.size()?;
        book.enter(cursor.part(len)?).ok()?;
    }
    Some(())
}

fn append_lines(cursor: &mut Cursor, sink: &mut RecordList, count: usize) -> Option<()>
    ensures { OnSome result (length cursor.new.left.now ≤ length cursor.old.left.now) }
{
    for _ in 0..count {
        sink.append(cursor.event()?).ok()?;
    }
    Some(())
}

// In a case 0 stands for no number.
fn some_number(n: u64) -> Option<u64> {
    if n == 0 { None } else { Some(n) }
}

fn book_number(n: u64) -> Option<u32> {
    let number = u16::try_from(some_number(n)?).ok()?;
    Some(u32::from(number))
}

// Whether every byte is the one that the output was filled with: compared as a whole, since byte by byte took most of the
// program's time.
fn untouched(bytes: &[u8]) -> bool {
    UNTOUCHED.get(..bytes.len()) == Some(bytes)
}

// What stands in front of a case.
#[derive(Clone, Copy)]
struct Header {
    texts: usize,
    events: usize,
    run_id: Option<u32>,
    profile: Option<u32>,
    size: usize,
    refusal: Option<u64>,
    length: usize,
}

fn read_header(cursor: &mut Cursor) -> Option<Header>
    ensures { OnSome result (length cursor.new.left.now < length cursor.old.left.now) }
{
    let header = Header {
        texts: cursor.size()?,
        events: cursor.size()?,
        run_id: book_number(cursor.number()?),
        profile: book_number(cursor.number()?),
        size: cursor.size()?,
        refusal: some_number(cursor.number()?),
        length: cursor.size()?,
    };
    cursor.size()?;
    Some(header)
}

// Whether the writer answers as it is wanted.
fn written_well(
    out: &mut [u8],
    finished: &Finished,
    sink: &RecordList,
    book: &NameBook,
    h: Header,
    wanted: &[u8],
) -> bool {
    if h.size > out.len() {
        return false;
    }
    let (room, behind) = out.split_at_mut(h.size);
    let answered = match (write_json(room, finished, sink, book), h.refusal) {
        (Ok(n), None) => n == room.len() && &*room == wanted,
        (Err(refusal), Some(number)) => u64::from(refusal.number()) == number && untouched(room),
        _ => false,
    };
    answered && untouched(behind)
}

// Whether the writer answers as it is wanted on what follows; none where the list is damaged.
fn rest_holds(
    cursor: &mut Cursor,
    h: Header,
    book: &mut NameBook,
    finished: &Finished,
) -> Option<bool>
    ensures { OnSome result (length cursor.new.left.now ≤ length cursor.old.left.now) }
{
    let mut places = [TraceEvent::BLANK; 16];
    let mut sink = RecordList::over(&mut places);
    enter_texts(cursor, book, h.texts.checked_sub(1)?)?;
    append_lines(cursor, &mut sink, h.events)?;
    let wanted = cursor.part(h.length)?;
    let mut out = [FILLED; LENGTH];
    Some(written_well(&mut out, finished, &sink, book, h, wanted))
}

// Whether the writer answers a case as it is wanted; none where the list is damaged.
fn case_holds(cursor: &mut Cursor) -> Option<bool>
    ensures { OnSome result (length cursor.new.left.now < length cursor.old.left.now) }
{
    let h = read_header(cursor)?;
    let mut entries = [Entry::BLANK; 16];
    let mut bytes = [0u8; 4096];
    let mut book = NameBook::over(&mut entries, &mut bytes);
    let version_len = cursor.size()?;
    let version = cursor.part(version_len)?;
    let mut recording = Recording::new(&mut book, version).ok()?;
    recording.other_data.run_id = h.run_id;
    recording.other_data.profile_name = h.profile;
    let finished = recording.finish();
    let holds = rest_holds(cursor, h, &mut book, &finished);
    let _told = finished.close();
    holds
}

fn run(rt: &HostRuntime) -> anyhow::Result<()> {
    let data = fs::read(rt, "cases")?;
    let mut cursor = Cursor {
        left: data.as_slice(),
    };
    let mut cases = 0u64;
    let mut differ = 0u64;
    while !cursor.left.is_empty() && cases < MOST {
        cases = cases.saturating_add(1);
        let holds = case_holds(&mut cursor).context("the list of cases is damaged")?;
        if !holds {
            differ = differ.saturating_add(1);
            println!(rt; "case {cases} differs")?;
        }
    }
    println!(rt; "{cases} traces, {differ} differences")?;
    Ok(())
}

fn main(rt: HostRuntime) -> anyhow::Result<()> {
    run(&rt)
}
