// The cases of the input. A line: the limits, `small` or `large`, the words of the token buffer, then pairs of how many times and a text, a space before each.
// In a text `\` and two hexadecimal digits are a byte. Another byte where a digit is meant counts as one, and the last number may lack its text.
ghost use Rattle.std.specs.Prelude.{◌<◌, length};
ghost use Rattle.std.specs.Iterator.{at_most};

use lexer::Limits;
use std::alloc::Global;
use std::io;

// The most words of a token buffer: a case that asks for more has no answer.
const MOST_WORDS: usize = 524288;

// The digits behind a larger number are not read. It is more than the most words, so that no cut number asks for a buffer.
const MOST_NUMBER: usize = 1000000;

// A draft, by which limits it is lexed, and how many words of a token buffer are lent for it.
#[derive(Drop)]
pub(crate) struct Case {
    pub(crate) limits: Limits,
    pub(crate) words: usize,
    pub(crate) draft: Vec<u8>,
}

fn number(digits: &[u8]) -> usize {
    digits.iter().fold(0, |number, digit| {
        if number > MOST_NUMBER {
            number
        } else {
            10 * number + usize::from(*digit % 16)
        }
    })
}

// The value of a hexadecimal digit.
fn digit(byte: u8) -> u8
    ensures { result < 16 }
{
    if byte >= b'a' {
        (byte - b'a') % 6 + 10
    } else {
        byte % 16
    }
}

// The bytes that a text gives; a code that is cut short ends them.
#[derive(Drop)]
struct Bytes<'a> {
    text: &'a [u8],
}

impl<'a> Iterator for Bytes<'a> {
    type Item = u8;

    ghost remaining = { λ bytes. at_most (length bytes.text.now) };

    fn next(&mut self) -> Option<u8> {
        let (byte, rest) = match self.text {
            [b'\\', high, low, rest @ ..] => (16 * digit(*high) + digit(*low), rest),
            [b'\\', ..] | [] => return None,
            [byte, rest @ ..] => (*byte, rest),
        };
        self.text = rest;
        Some(byte)
    }
}

// The most bytes of a draft, more than its limits allow: the rest of a longer one is left out, and takes no time.
fn most_bytes(limits: Limits) -> usize {
    match limits {
        Limits::Small => 65536,
        Limits::Large => 2097152,
    }
}

// Puts the bytes so many times behind the draft, as far as it may have them.
fn repeat(draft: &mut Vec<u8>, bytes: &[u8], times: usize, most: usize) -> io::Result<()> {
    if bytes.is_empty() {
        return Ok(());
    }
    let room = most.saturating_sub(draft.len());
    for _ in 0..times.min(room.div_ceil(bytes.len())) {
        draft.extend_from_slice(bytes)?;
    }
    draft.truncate(most);
    Ok(())
}

fn limits_named(word: &[u8]) -> Option<Limits> {
    match word {
        b"small" => Some(Limits::Small),
        b"large" => Some(Limits::Large),
        _ => None,
    }
}

// The limits and the words that a line's fields begin with, and the pairs behind.
fn split_head<'a>(fields: &'a [&'a [u8]]) -> Option<(Limits, usize, &'a [&'a [u8]])> {
    let (limits, fields) = fields.split_first()?;
    let (words, pairs) = fields.split_first()?;
    let words = number(words);
    if words > MOST_WORDS {
        return None;
    }
    Some((limits_named(limits)?, words, pairs))
}

impl Case {
    // None where the line names no limits or asks for too many words.
    pub(crate) fn parse(alloc: Global, line: &[u8]) -> io::Result<Option<Case>> {
        let fields: Vec<&[u8]> = line.split(|byte| *byte == b' ').collect(alloc)?;
        let Some((limits, words, pairs)) = split_head(&fields) else {
            return Ok(None);
        };
        let mut draft = Vec::new(alloc);
        let (pairs, _) = pairs.as_chunks::<2>();
        for [times, text] in pairs {
            let bytes: Vec<u8> = Bytes { text }.collect(alloc)?;
            repeat(&mut draft, &bytes, number(times), most_bytes(limits))?;
        }
        Ok(Some(Case {
            limits,
            words,
            draft,
        }))
    }
}
