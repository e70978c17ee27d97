// Lexes the drafts that its input lists and writes one line a case.
#![tactic(auto)]

use cases::{UNWRITTEN, front, is_zero, zeros};
use drafts::Case;
use std::alloc::Global;
use std::io;
use std::io::{BufWriter, Write};
use text::TOKEN_WORDS;

mod drafts;

// Of longer input these bytes count.
const MOST_BYTES: usize = 65536;

// The tokens are shown where there are no more.
const MOST_SHOWN: usize = 24;

// A token as kind:start-end, with its class behind the kind if the rules tell it apart.
fn write_token(
    out: &mut impl Write,
    draft: &[u8],
    [kind, start, end]: [u32; TOKEN_WORDS],
) -> io::Result<()> {
    write!(out, " {kind}")?;
    let class = lexer::class(draft, kind, start as usize, end as usize);
    if class != kind {
        write!(out, "/{class}")?;
    }
    write!(out, ":{start}-{end}")
}

// The tokens if they are few, and whether the words behind them are 0; a number that the buffer cannot hold is wrong at once.
fn write_tokens(out: &mut impl Write, draft: &[u8], words: &[u32], count: usize) -> io::Result<()> {
    let Some((tokens, behind)) = front::<TOKEN_WORDS>(words, count) else {
        return writeln!(out, " {}", zeros(false));
    };
    if count <= MOST_SHOWN {
        for token in tokens {
            write_token(out, draft, *token)?;
        }
    }
    writeln!(out, " {}", zeros(is_zero(behind)))
}

// The answer, and what is found of it.
fn write_case(out: &mut impl Write, alloc: Global, case: &Case) -> io::Result<()> {
    let mut words = vec![in alloc; UNWRITTEN.into(); case.words]?;
    match lexer::lex(&case.draft, &mut words, case.limits) {
        Ok(count) => {
            write!(out, ": tokens {count}")?;
            write_tokens(out, &case.draft, &words, count)
        }
        Err(refused) => writeln!(out, ": refused {refused} {}", zeros(is_zero(&words))),
    }
}

// Each line, and its answer where it is a case.
fn run(rt: &HostRuntime, lines: &[u8]) -> io::Result<()> {
    let alloc = rt.alloc();
    let mut out = BufWriter::new(alloc, io::writer(rt))?;
    for line in lines.split_inclusive(|byte| *byte == b'\n') {
        let line = line.strip_suffix(b"\n").unwrap_or(line);
        out.write_all(line)?;
        if let Some(case) = Case::parse(alloc, line)? {
            write_case(&mut out, alloc, &case)?;
        }
    }
    out.flush()
}

// What cannot be written is lost: nothing is said of it, and the status is 0.
fn main(rt: HostRuntime) {
    let mut buf = [0; MOST_BYTES];
    let _ = run(&rt, cases::input(&mut rt.stdin(), &mut buf));
}
