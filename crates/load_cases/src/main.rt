// Loads the listings that its input gives, with buffers of the lengths that each case asks.
// A case's numbers: the words of the buffer and the bytes of the listing. Written are the answer, whether all words are zero that must be, whether the
// records written again are the listing, whose lines are of 41 bytes or of 49, or where they are of 36 those lines with a way up behind each, and the records,
// a line each.
#![tactic(auto)]

use cases::{Cases, UNWRITTEN, front, is_zero, zeros};
use lines::{LINE_BYTES, LONG_BYTES, SIX_BYTES};
use std::alloc::Global;
use std::io;
use std::io::{BufWriter, Read, Write};
use text::RECORD_WORDS;
use text::refusal::Refused;

// The words of the longest buffer that a case may ask.
const MOST_WORDS: usize = 16384;

// The longest text that a case may give.
const MOST_TEXT: usize = 1_000_009;

// Of a longer stream these bytes count.
const MOST_INPUT: u64 = 2_097_152;

// Whether lines of 36 bytes are those of 41 without the way up and the space before it.
fn is_wider(listing: &[u8], lines: &[u8]) -> bool {
    let (short, left) = listing.as_chunks::<SIX_BYTES>();
    let (long, over) = lines.as_chunks::<LINE_BYTES>();
    let end = SIX_BYTES - 1;
    left.is_empty()
        && over.is_empty()
        && short.len() == long.len()
        && short.iter().zip(long).all(|(short, long)| short[..end] == long[..end]
            && long[end] == b' ')
}

// What the records written again are of the listing.
fn likeness(listing: &[u8], lines: &[u8]) -> &'static str {
    if listing == lines {
        "same"
    } else if is_wider(listing, lines) {
        "wider"
    } else {
        "NOT THE SAME"
    }
}

// The lines of records, for which there is room in either form.
fn list(alloc: Global, records: &[[u32; RECORD_WORDS]]) -> io::Result<Vec<u8>> {
    let count = records.len();
    let mut lines = vec![in alloc; 0; count.saturating_mul(LONG_BYTES)]?;
    let used = lines::list(records.as_flattened(), count, &mut lines);
    lines.truncate(used);
    Ok(lines)
}

// What is found of a listing that is taken; a number that the buffer cannot hold is wrong at once.
fn write_records(
    out: &mut impl Write,
    alloc: Global,
    listing: &[u8],
    tree: &[u32],
    count: usize,
) -> io::Result<()> {
    let Some((records, behind)) = front::<RECORD_WORDS>(tree, count) else {
        return writeln!(out, " NOT ZERO NOT THE SAME");
    };
    let lines = list(alloc, records)?;
    let all = zeros(is_zero(behind));
    writeln!(out, " {all} {}", likeness(listing, &lines))?;
    for [kind, start, end, low, high, size, up] in records {
        writeln!(out, "{kind} {start} {end} {low} {high} {size} {up}")?;
    }
    Ok(())
}

// The answer, and what is found of it.
fn write_case(out: &mut impl Write, alloc: Global, listing: &[u8], words: usize) -> io::Result<()> {
    let mut tree = vec![in alloc; UNWRITTEN.into(); words]?;
    match load::load(listing, &mut tree) {
        Ok(count) => {
            write!(out, "records {count}")?;
            write_records(out, alloc, listing, &tree, count)
        }
        Err(not_loaded) => {
            // The two numbers alone, where a `Refused` is shown with a word between.
            let Refused { refusal, place } = not_loaded.into();
            writeln!(out, "refused {refusal} {place} {}", zeros(is_zero(&tree)))
        }
    }
}

// No case is run after one that is wrong: `Cases` ends there.
fn run(rt: &HostRuntime, stream: &[u8]) -> io::Result<()> {
    let alloc = rt.alloc();
    let mut out = BufWriter::new(alloc, io::writer(rt))?;
    for case in Cases::within(stream, [MOST_WORDS, MOST_TEXT]) {
        match case {
            Ok(case) => write_case(&mut out, alloc, case.text, case.numbers[0])?,
            Err(bad) => writeln!(out, "{bad}")?,
        }
    }
    out.flush()
}

// A read that fails ends the stream. What cannot be written is lost: nothing is said of it, and the status is 0.
fn main(rt: HostRuntime) {
    let mut stream = Vec::new(rt.alloc());
    let _ = rt.stdin().take(MOST_INPUT).read_to_end(&mut stream);
    let _ = run(&rt, &stream);
}
