// Lexes the draft on its standard input a thousand times and writes the answer: for measuring, see bench/lexer.
#![tactic(auto)]

use lexer::{Limits, SMALL_TOKENS};
use std::io;
use std::io::Write;
use text::TOKEN_WORDS;
use text::refusal::Refused;

const TIMES: u32 = 1000;

// Of longer input these bytes count: a draft of so many is refused for its length.
const MOST_BYTES: usize = 65536;

fn write_answer(out: &mut impl Write, answer: Result<usize, Refused>) -> io::Result<()> {
    match answer {
        Ok(count) => writeln!(out, "{count} tokens"),
        Err(refused) => writeln!(out, "{refused}"),
    }
}

fn lex_often(out: &mut impl Write, draft: &[u8]) -> io::Result<()> {
    // An array, as in the reader, which lends one of its stack.
    let mut tokens = [0; TOKEN_WORDS * SMALL_TOKENS];
    for _ in 0..TIMES {
        write_answer(out, lexer::lex(draft, &mut tokens, Limits::Small))?;
    }
    // A look at the buffer for a word that no token has: without it the compiler would leave out the stores.
    if tokens.get(draft.len()) == Some(&u32::MAX) {
        writeln!(out, "odd")?;
    }
    Ok(())
}

// What cannot be written is lost: nothing is said of it, and the status is 0. No memory is asked for, so none can be missing.
fn main(rt: HostRuntime) {
    let mut buf = [0; MOST_BYTES];
    let _ = lex_often(&mut rt.stdout(), cases::input(&mut rt.stdin(), &mut buf));
}
