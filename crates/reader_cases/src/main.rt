// Reads and lists the drafts that its input gives, with buffers of the lengths that each case asks.
// A case's numbers: the words of the token buffer, the words of the tree buffer, the bytes of the byte buffer and the bytes of the draft. Written are the
// answers of the entries, whether an accepted draft's records own its tokens, whether what is behind the results is zero, whether the words of one function are
// those of the file behind its first record, what the entries with the starts alone answer where they leave something else, the lines of the listing, and those
// within the large limits where they are others.
#![tactic(auto)]

use cases::{Case, Cases, UNWRITTEN, front, is_zero, zeros};
use lexer::Step;
use owned::Accepted;
use parse::ReadAs;
use reader::Counts;
use std::alloc::Global;
use std::io;
use std::io::{BufWriter, Read, Write};
use text::RECORD_WORDS;
use text::refusal::Refused;

mod owned;

// The longest buffers that a case may ask, in words and bytes.
const MOST_TOKEN_WORDS: usize = 8192;

const MOST_RECORD_WORDS: usize = 16384;

const MOST_BYTES: usize = 90000;

// The longest text that a case may give.
const MOST_TEXT: usize = 1_000_009;

// Of a longer stream these bytes count.
const MOST_INPUT: u64 = 2_097_152;

fn name(what: ReadAs) -> &'static str {
    match what {
        ReadAs::Function => "function",
        ReadAs::File => "file",
    }
}

// What an entry leaves: its answer, its tokens as whole rows with the words behind them, and its tree.
#[derive(Drop)]
struct Left {
    answer: Result<Counts, Refused>,
    tokens: Vec<u32>,
    tree: Vec<u32>,
}

// The entry that reads a draft as `what` says. What differs between the two is asked at four places, here, in `read_lean`, in `name` and in `is_owned_as`:
// closures would be four parameters of `write_left`.
fn read(alloc: Global, what: ReadAs, case: Case<'_, 4>) -> io::Result<Left> {
    let [token_words, record_words, _, _] = case.numbers;
    let mut tokens = vec![in alloc; UNWRITTEN.into(); token_words]?;
    let mut tree = vec![in alloc; UNWRITTEN.into(); record_words]?;
    let answer = match what {
        ReadAs::Function => reader::read(case.text, &mut tokens, &mut tree),
        ReadAs::File => reader::read_file(case.text, &mut tokens, &mut tree),
    };
    Ok(Left {
        answer,
        tokens,
        tree,
    })
}

// The same with the starts alone, in as many words as the other entry has for its tokens.
fn read_lean(alloc: Global, what: ReadAs, case: Case<'_, 4>) -> io::Result<Left> {
    let [start_words, record_words, _, _] = case.numbers;
    let mut starts = vec![in alloc; UNWRITTEN.into(); start_words]?;
    let mut tree = vec![in alloc; UNWRITTEN.into(); record_words]?;
    let answer = match what {
        ReadAs::Function => reader::read_lean(case.text, &mut starts, &mut tree),
        ReadAs::File => reader::read_lean_file(case.text, &mut starts, &mut tree),
    };
    let count = answer.map_or(0, |counts| counts.tokens);
    Ok(Left {
        answer,
        tokens: found_again(alloc, case.text, &starts, count)?,
        tree,
    })
}

// The tokens that a draft has at so many starts, as whole rows, and the words behind the starts.
fn found_again(alloc: Global, draft: &[u8], starts: &[u32], count: usize) -> io::Result<Vec<u32>> {
    let mut tokens = Vec::new(alloc);
    for (place, start) in starts.iter().enumerate() {
        if place >= count {
            tokens.push(*start)?;
        } else if let Step::Token { kind, end } = lexer::scan::step(draft, *start as usize) {
            let end = u32::try_from(end).unwrap_or(u32::MAX);
            tokens.extend_from_slice(&[kind, *start, end])?;
        }
    }
    Ok(tokens)
}

// What is found of an accepted draft; counts that the buffers cannot hold are wrong at once.
fn write_accepted(
    out: &mut impl Write,
    what: ReadAs,
    draft: &[u8],
    tokens: &[u32],
    tree: &[u32],
    counts: Counts,
) -> io::Result<()> {
    let (Some((tokens, behind_tokens)), Some((records, behind_records))) = (
        front(tokens, counts.tokens),
        front(tree, counts.records),
    ) else {
        return write!(out, " NOT OWNED NOT ZERO");
    };
    let accepted = Accepted {
        draft,
        tokens,
        records,
    };
    write!(
        out,
        " {} {}",
        if accepted.is_owned_as(what) {
            "owned"
        } else {
            "NOT OWNED"
        },
        zeros(is_zero(behind_tokens) && is_zero(behind_records))
    )
}

// The answer of an entry, and what is found of it.
fn write_left(out: &mut impl Write, what: ReadAs, draft: &[u8], left: &Left) -> io::Result<()> {
    write!(out, "{}", name(what))?;
    match left.answer {
        Ok(counts) => {
            write!(out, " accepted {} {}", counts.tokens, counts.records)?;
            write_accepted(out, what, draft, &left.tokens, &left.tree, counts)
        }
        Err(Refused { refusal, place }) => {
            // The two numbers alone, where a `Refused` is shown with a word between.
            let all = zeros(is_zero(&left.tokens) && is_zero(&left.tree));
            write!(out, " refused {refusal} {place} {all}")
        }
    }
}

// Whether the words of one function are those of the file behind its first record, as far as there are both; but for the function's own way up, which
// leads to the first record of the file.
fn is_same_below(one: &[u32], whole: &[u32]) -> bool {
    one.iter()
        .zip(whole.iter().skip(RECORD_WORDS))
        .enumerate()
        .all(|(place, (one, other))| place == up::UP || one == other)
}

// Whether two entries leave the same, but for zeros behind the tokens.
fn is_same(one: &Left, lean: &Left) -> bool {
    let Some((tokens, behind)) = lean.tokens.split_at_checked(one.tokens.len()) else {
        return false;
    };
    one.answer == lean.answer
        && one.tokens.as_slice() == tokens
        && is_zero(behind)
        && one.tree.as_slice() == lean.tree.as_slice()
}

// What the entry with the starts alone leaves, where it is not what the other one does.
fn write_lean(
    out: &mut impl Write,
    alloc: Global,
    what: ReadAs,
    case: Case<'_, 4>,
    one: &Left,
) -> io::Result<()> {
    let lean = read_lean(alloc, what, case)?;
    if is_same(one, &lean) {
        return Ok(());
    }
    write!(out, "lean ")?;
    write_left(out, what, case.text, &lean)?;
    writeln!(out)
}

// The answers of the entries that read. `out` and `alloc` are those of `main`: a struct of them and a case would be made anew for each case.
fn write_readings(out: &mut impl Write, alloc: Global, case: Case<'_, 4>) -> io::Result<()> {
    let one = read(alloc, ReadAs::Function, case)?;
    write_left(out, ReadAs::Function, case.text, &one)?;
    writeln!(out)?;
    let whole = read(alloc, ReadAs::File, case)?;
    write_left(out, ReadAs::File, case.text, &whole)?;
    if one.answer.is_ok() && whole.answer.is_ok() {
        let same = is_same_below(&one.tree, &whole.tree);
        write!(out, " {}", if same { "same" } else { "NOT SAME" })?;
    }
    writeln!(out)?;
    write_lean(out, alloc, ReadAs::Function, case, &one)?;
    write_lean(out, alloc, ReadAs::File, case, &whole)
}

// How many bytes a listing used, and whether those behind its lines are 0; its lines. More than the buffer has is wrong at once.
fn write_used<'a>(
    out: &mut impl Write,
    name: &str,
    lines: &'a [u8],
    used: usize,
) -> io::Result<&'a [u8]> {
    let Some((lines, behind)) = lines.split_at_checked(used) else {
        write!(out, "{name} {used} {}", zeros(false))?;
        return Ok(&lines[..0]);
    };
    write!(out, "{name} {used} {}", zeros(is_zero(behind)))?;
    Ok(lines)
}

// The answer of `list_draft`, and the lines that it wrote into a buffer.
fn write_small<'a>(
    out: &mut impl Write,
    draft: &[u8],
    lines: &'a mut [u8],
) -> io::Result<&'a [u8]> {
    let used = reader::entry::list_draft(draft, lines);
    let lines = write_used(out, "listed", lines, used)?;
    writeln!(out)?;
    out.write_all(lines)?;
    Ok(lines)
}

// Whether buffers of tokens and tree hold what `read_file` leaves in as long ones.
fn is_as_read(alloc: Global, draft: &[u8], tokens: &[u32], tree: &[u32]) -> io::Result<bool> {
    let mut other_tokens = vec![in alloc; UNWRITTEN.into(); tokens.len()]?;
    let mut other_tree = vec![in alloc; UNWRITTEN.into(); tree.len()]?;
    let _ = reader::read_file(draft, &mut other_tokens, &mut other_tree);
    Ok(tokens == other_tokens.as_slice() && tree == other_tree.as_slice())
}

// The answer of `list_large`, whether it leaves in the buffers of tokens and tree what `read_file` leaves there, and its lines where they are not those of
// `list_draft`.
fn write_large(
    out: &mut impl Write,
    alloc: Global,
    case: Case<'_, 4>,
    small: &[u8],
) -> io::Result<()> {
    let [token_words, record_words, bytes, _] = case.numbers;
    let mut tokens = vec![in alloc; UNWRITTEN.into(); token_words]?;
    let mut tree = vec![in alloc; UNWRITTEN.into(); record_words]?;
    let mut lines = vec![in alloc; UNWRITTEN; bytes]?;
    let used = reader::entry::list_large(case.text, &mut tokens, &mut tree, &mut lines);
    let lines = write_used(out, "large", &lines, used)?;
    if !is_as_read(alloc, case.text, &tokens, &tree)? {
        write!(out, " NOT SAME")?;
    }
    writeln!(out)?;
    if lines != small {
        out.write_all(lines)?;
    }
    Ok(())
}

// The listings of a draft, within the small limits and within the large ones.
fn write_listings(out: &mut impl Write, alloc: Global, case: Case<'_, 4>) -> io::Result<()> {
    let [_, _, bytes, _] = case.numbers;
    let mut lines = vec![in alloc; UNWRITTEN; bytes]?;
    let small = write_small(out, case.text, &mut lines)?;
    write_large(out, alloc, case, small)
}

// No case is run after one that is wrong: `Cases` ends there.
fn run(rt: &HostRuntime, stream: &[u8]) -> io::Result<()> {
    let alloc = rt.alloc();
    let mut out = BufWriter::new(alloc, io::writer(rt))?;
    let limits = [MOST_TOKEN_WORDS, MOST_RECORD_WORDS, MOST_BYTES, MOST_TEXT];
    for case in Cases::within(stream, limits) {
        match case {
            Ok(case) => {
                write_readings(&mut out, alloc, case)?;
                write_listings(&mut out, alloc, case)?;
            }
            Err(bad) => writeln!(out, "{bad}")?,
        }
    }
    out.flush()
}

// A read that fails ends the stream. What cannot be written is lost: nothing is said of it, and the status is 0.
fn main(rt: HostRuntime) {
    let mut stream = Vec::new(rt.alloc());
    let _ = rt.stdin().take(MOST_INPUT).read_to_end(&mut stream);
    let _ = run(&rt, &stream);
}
