// Runs the functions of `num` on chosen runs and writes a line for each; tools/num_cases.py writes what is expected.
#![tactic(auto)]

ghost use Rattle.std.specs.Prelude.{suc, ◌-◌, length};
ghost use Rattle.std.specs.Iterator.{at_most};

use std::io;
use std::io::Write;

// A part of a list between two spaces, by its start and its end: `num` takes these, and `split` does not give them.
#[derive(Clone, Copy)]
struct Run<'a> {
    list: &'a [u8],
    start: usize,
    end: usize,
}

impl<'a> Run<'a> {
    fn text(self) -> &'a [u8] {
        text::part(self.list, self.start, self.end)
    }

    fn number(self) -> Option<u64> {
        num::number(self.list, self.start, self.end)
    }
}

// The runs of a list, one behind the other; `start` is where the next begins, and none is left where it is beyond the list's end: `get` gives `None` there by
// itself, where an `Option` of the rest would have to be set to `None`.
#[derive(Drop)]
struct Runs<'a> {
    list: &'a [u8],
    start: usize,
}

impl<'a> Iterator for Runs<'a> {
    type Item = Run<'a>;

    ghost remaining = { λ runs. at_most (suc (length runs.list.now) - runs.start) };

    fn next(&mut self) -> Option<Run<'a>> {
        let rest = self.list.get(self.start..)?;
        let length = rest
            .iter()
            .position(|byte| *byte == b' ')
            .unwrap_or(rest.len());
        let start = self.start;
        let end = start + length;
        self.start = end + 1;
        Some(Run {
            list: self.list,
            start,
            end,
        })
    }
}

impl<'a> Runs<'a> {
    fn of(list: &'a [u8]) -> Runs<'a> {
        Runs { list, start: 0 }
    }
}

fn write_value(out: &mut impl Write, value: Option<u64>) -> io::Result<()> {
    match value {
        Some(number) => writeln!(out, " -> {number}"),
        None => writeln!(out, " -> too large"),
    }
}

// How many digits were written, and the buffer, a dot for each 0.
fn write_digits(out: &mut impl Write, answer: Option<usize>, digits: &[u8]) -> io::Result<()> {
    match answer {
        Some(count) => write!(out, " -> {count}")?,
        None => write!(out, " -> short")?,
    }
    write!(out, " [")?;
    for digit in digits {
        out.write_all(&[if *digit == 0 { b'.' } else { *digit }])?;
    }
    writeln!(out, "]")
}

fn write_named(out: &mut impl Write, name: &str, run: Run<'_>) -> io::Result<()> {
    write!(out, "{name} ")?;
    out.write_all(run.text())
}

// The digit text of a run, into buffers that are too short, just long enough and longer, and hold something else before. What is lent is the front of an array,
// as everywhere here: no buffer grows.
fn write_digits_by_room(out: &mut impl Write, run: Run<'_>) -> io::Result<()> {
    for room in 0..10 {
        let mut space = [b'#'; 10];
        let digits = &mut space[..room];
        write_named(out, "digits", run)?;
        write!(out, " into {room}")?;
        let answer = num::digits(run.list, run.start, run.end, digits);
        write_digits(out, answer, digits)?;
    }
    Ok(())
}

// Whether the number of each run is a good bound, size or length, by `num`'s test for it.
fn write_good<F: Fn(Option<u64>) -> bool + Drop>(
    out: &mut impl Write,
    name: &str,
    list: &[u8],
    is_good: F,
) -> io::Result<()>
    requires { F.IsAlwaysCallable is_good }
{
    for run in Runs::of(list) {
        write_named(out, name, run)?;
        let said = if is_good(run.number()) { "good" } else { "bad" };
        writeln!(out, " -> {said}")?;
    }
    Ok(())
}

// The numbers of parts in range and out of range.
fn write_number_parts(out: &mut impl Write) -> io::Result<()> {
    let draft = "12_345";
    for (start, end) in [
        (0, 6),
        (1, 4),
        (6, 6),
        (4, 1),
        (0, 7),
        (7, 7),
        (usize::MAX, 0),
        (0, usize::MAX),
    ] {
        write!(out, "number {draft} from {start} to {end}")?;
        write_value(out, num::number(draft.as_bytes(), start, end))?;
    }
    Ok(())
}

// Their digit texts.
fn write_digit_parts(out: &mut impl Write) -> io::Result<()> {
    let draft = "a=0xF_0;";
    for (start, end) in [(2, 7), (4, 7), (0, 8), (7, 2), (2, 9)] {
        let mut digits = [b'#'; 4];
        write!(out, "digits {draft} from {start} to {end}")?;
        let answer = num::digits(draft.as_bytes(), start, end, &mut digits);
        write_digits(out, answer, &digits)?;
    }
    Ok(())
}

fn write_long_run(out: &mut impl Write, name: &str, run: &[u8]) -> io::Result<()> {
    write!(out, "number {name}")?;
    write_value(out, num::number(run, 0, run.len()))
}

// Each run is one array, of which some places are written anew.
fn write_long_runs(out: &mut impl Write) -> io::Result<()> {
    let mut run = [b'0'; 9000];
    write_long_run(out, "9000 zeros", &run)?;
    run[8998] = b'4';
    run[8999] = b'2';
    write_long_run(out, "8998 zeros, then 42", &run)?;
    run[0] = b'1';
    write_long_run(out, "1, 8997 zeros, then 42", &run)?;
    write_long_run(out, "9000 nines", &[b'9'; 9000])?;
    let mut apart = [b'_'; 9000];
    apart[0] = b'5';
    apart[8999] = b'3';
    write_long_run(out, "5, 8998 underscores, then 3", &apart)
}

fn write_numbers(out: &mut impl Write) -> io::Result<()> {
    let lists: [&[u8]; 6] = [
        b"0 7 007 1000 1_000_ 1__0_0___0 0_0_1_  00000000000000000000000000000042",
        b"18446744073709551614 18446744073709551615 18446744073709551616 18446744073709551619",
        b"18446744073709551620 00018_446_744_073_709_551_615_ 00018_446_744_073_709_551_616_",
        b"99999999999999999999 100000000000000000000",
        b"11529215046068469760 18000000000000000000 18446744073709551609 18446744073709551610",
        b"20000000000000000000 23058430092136939519 23058430092136939520 92233720368547758080",
    ];
    for list in lists {
        for run in Runs::of(list) {
            write_named(out, "number", run)?;
            write_value(out, run.number())?;
        }
    }
    write_long_runs(out)
}

fn write_digit_texts(out: &mut impl Write) -> io::Result<()> {
    let list = b"1000 1_000_ 0_0_7 5 5_  0xAB_cd 0x0_ 0x89_AB_CD_EF 0b1__0_1 0b0 00b 0_x1 0 1x2";
    for run in Runs::of(list) {
        write_digits_by_room(out, run)?;
    }
    Ok(())
}

// Which numbers are good bounds, sizes and lengths.
fn write_good_numbers(out: &mut impl Write) -> io::Result<()> {
    let bounds: [&[u8]; 2] = [
        b"0 1 2 3 4 5 6 1_024_ 1_025 9223372036854775807 9223372036854775808",
        b"9223372036854775809 18446744073709551615 18446744073709551616 36893488147419103232",
    ];
    let sizes = b"0 0_0 1 2 18446744073709551615 18446744073709551616";
    let lengths: [&[u8]; 2] = [
        b"0 0_0 1 18446744073709551615 0018_446_744_073_709_551_615_ 18446744073709551616",
        b"0018_446_744_073_709_551_616_ 18446744073709551620 100000000000000000000",
    ];
    for list in bounds {
        write_good(out, "bound", list, num::is_bound)?;
    }
    write_good(out, "size", sizes, num::is_size)?;
    for list in lengths {
        write_good(out, "length", list, num::is_length)?;
    }
    Ok(())
}

fn write_cases(out: &mut impl Write) -> io::Result<()> {
    write_numbers(out)?;
    write_digit_texts(out)?;
    write_number_parts(out)?;
    write_digit_parts(out)?;
    write_good_numbers(out)
}

// What cannot be written is lost: nothing is said of it, and the status is 0. No memory is asked for, so none can be missing.
fn main(rt: HostRuntime) {
    let _ = write_cases(&mut rt.stdout());
}
