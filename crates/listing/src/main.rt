// The listing program: a draft from standard input, and its lines to standard output. What fails is said on standard error, and after a read that
// failed no line is written. A call that a signal interrupts counts as one that failed, so the loops of `read` and `write` are its own: those of std
// would try again.
#![tactic(auto)]

ghost use Rattle.std.specs.Prelude.{◌≡◌, ◌+◌, ◌≤◌, length, IfOk};
ghost use Rattle.lexer.specs.Limits.{small_limits};
ghost use Rattle.reader.specs.Fits.{enough};
ghost use Rattle.listing.specs.Within.{Within};

use lexer::SMALL_BYTES;
use reader::entry::LISTING_BYTES;
use std::io::{ErrorKind, Read, Write};
use std::{fmt, io};

// One byte more than a draft may have is kept: more need not be, since the length alone refuses it.
fn draft_buffer() -> [u8; SMALL_BYTES + 1]
    ensures { small_limits.bytes + 1 ≡ length result }
{
    [0; SMALL_BYTES + 1]
}

// Room for the lines of every draft within the small limits, which the program keeps. It is an array: memory that is asked for might not be there.
fn line_buffer() -> [u8; LISTING_BYTES]
    ensures { enough ≡ length result }
{
    [0; LISTING_BYTES]
}

// The system's text for an error, without the number that std puts behind it.
fn without_number(text: &str) -> &str {
    text.split_once(" (os error ")
        .map_or(text, |(before, _)| before)
}

// The step that failed, with the error of its call.
#[derive(Debug, Drop)]
enum Failed {
    Read(io::Error),
    Write(io::Error),
}

impl fmt::Display for Failed {
    fn fmt<W: fmt::Write>(&self, f: &mut fmt::Formatter<W>) -> fmt::Result {
        f.write_str(match self {
            Failed::Read(_) => "read",
            Failed::Write(_) => "write",
        })
    }
}

impl Failed {
    fn error(&self) -> &io::Error {
        match self {
            Failed::Read(error) | Failed::Write(error) => error,
        }
    }
}

// Writes a line to standard error: what failed, a colon and the system's text for the error, if there is memory for it.
fn report(rt: &HostRuntime, failed: &Failed) {
    let text = format!(in rt.alloc(); "{}", failed.error());
    let said = match &text {
        Ok(text) => without_number(text.as_str()),
        Err(_) => "",
    };
    let _ = eprintln!(rt; "listing: {failed}: {said}");
}

// Reads until the buffer is full or the input ends; the answer is how many bytes came in.
fn fill(input: &mut impl Read, buf: &mut [u8]) -> io::Result<usize>
    ensures { Within result (length buf.old) }
{
    let mut done = 0;
    while done < buf.len() {
        match input.read(&mut buf[done..])? {
            0 => break,
            more => done += more,
        }
    }
    Ok(done)
}

// Reads what is left, so that whoever writes a long draft can finish. A proved loop has to end, and nothing says that an input does: this one has more
// turns than a run takes.
fn drain(input: &mut impl Read, buf: &mut [u8]) -> io::Result<()> {
    for _ in 0..u64::MAX {
        if input.read(buf)? == 0 {
            break;
        }
    }
    Ok(())
}

// Reads the whole input, as far as the buffer keeps it.
fn read_draft<'a>(rt: &HostRuntime, buf: &'a mut [u8]) -> io::Result<&'a [u8]>
    ensures { IfOk result (λ draft. length draft.now ≤ length buf.old) }
{
    let mut input = rt.stdin();
    let bytes = fill(&mut input, buf)?;
    if bytes == buf.len() {
        drain(&mut input, buf)?;
    }
    Ok(&buf[..bytes])
}

// Writes bytes, and stops at the first write that takes none or fails.
fn put(out: &mut impl Write, bytes: &[u8]) -> io::Result<()> {
    let mut rest = bytes;
    while !rest.is_empty() {
        match out.write(rest)? {
            0 => return Err(io::Error::from(ErrorKind::WriteZero)),
            done => rest = &rest[done..],
        }
    }
    Ok(())
}

// Writes the lines of a draft.
fn list(rt: &HostRuntime, draft: &[u8]) -> io::Result<()> {
    let mut lines = line_buffer();
    let used = reader::entry::list_draft(draft, &mut lines);
    put(&mut rt.stdout(), &lines[..used])
}

fn run(rt: &HostRuntime) -> Result<(), Failed> {
    let mut buf = draft_buffer();
    let draft = read_draft(rt, &mut buf).map_err(Failed::Read)?;
    list(rt, draft).map_err(Failed::Write)
}

fn main(rt: HostRuntime) {
    if let Err(failed) = run(&rt) {
        report(&rt, &failed);
    }
}
