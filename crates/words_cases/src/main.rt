// Asks of each line of its input, and of some parts out of range, which word of each table it is, and writes one line a case.
#![tactic(auto)]

use std::io;
use std::io::Write;
use words::Table;

// Of longer input these bytes count.
const MOST_BYTES: usize = 65536;

// The part's text, then its place in each table in the order of `Table`, or - where it is none of its words.
fn write_case(out: &mut impl Write, draft: &[u8], start: usize, end: usize) -> io::Result<()> {
    out.write_all(text::part(draft, start, end))?;
    write!(out, ":")?;
    for table in [
        Table::FunctionReserved,
        Table::Keywords,
        Table::Macros,
        Table::ModuleReserved,
        Table::RuleWords,
    ] {
        match words::word(table, draft, start, end) {
            Some(place) => write!(out, " {place}")?,
            None => write!(out, " -")?,
        }
    }
    writeln!(out)
}

// Each line, and parts of `match` and of nothing.
fn write_cases(out: &mut impl Write, lines: &[u8]) -> io::Result<()> {
    for line in lines.split_inclusive(|byte| *byte == b'\n') {
        let line = line.strip_suffix(b"\n").unwrap_or(line);
        write_case(out, line, 0, line.len())?;
    }
    for (start, end) in [(0, 5), (0, 6), (3, 2), (5, 5), (6, 6)] {
        write_case(out, b"match", start, end)?;
    }
    write_case(out, b"", 0, 0)
}

// What cannot be written is lost: nothing is said of it, and the status is 0. No memory is asked for, so none can be missing.
fn main(rt: HostRuntime) {
    let mut buf = [0; MOST_BYTES];
    let _ = write_cases(&mut rt.stdout(), cases::input(&mut rt.stdin(), &mut buf));
}
