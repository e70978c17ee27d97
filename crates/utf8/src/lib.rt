// UTF-8: how many bytes the sequence at a place of a text has, by RFC 3629.
// The library's `from_utf8` judges a whole text by a definition of its own: the end of a comment would have to be found first, by a pass more, and a proof
// bring that definition to the RFC's.
#![tactic(auto)]

ghost use Rattle.std.specs.Prelude.{false, ◌≡◌, ◌≤◌, ◌<◌, length, get_or, drop, unwrap_or};
ghost use Rattle.text.specs.Ranges.{of};
ghost use Rattle.utf8.specs.Utf8.{tail};
ghost use Rattle.utf8.specs.Octets.{Told};
ghost use Rattle.utf8.specs.Second.{least_second, most_second};
ghost use Rattle.std.specs.Range.{range_inclusive_start, range_inclusive_end, range_inclusive_exhausted};
ghost use Rattle.utf8.specs.Found.{char_found};

use std::ops::RangeInclusive;
use text::peek;

// A byte up to it is a sequence; one over it can only be part of a sequence of two bytes or more.
pub const LAST_ASCII: u8 = 0x7f;

// The first bytes of sequences of two, three and four bytes.
const TWO: u8 = 0xc2;

const LAST_TWO: u8 = 0xdf;

const THREE: u8 = 0xe0;

const LAST_THREE: u8 = 0xef;

const FOUR: u8 = 0xf0;

const LAST: u8 = 0xf4;

// The bytes behind the first.
const TAIL: u8 = 0x80;

const LAST_TAIL: u8 = 0xbf;

// The least second bytes behind THREE and FOUR: a smaller one would write what fewer bytes write.
const BEHIND_THREE: u8 = 0xa0;

const BEHIND_FOUR: u8 = 0x90;

// The first byte of a surrogate, and the largest second byte behind it that writes none.
const SURROGATE: u8 = 0xed;

const BEFORE_SURROGATES: u8 = 0x9f;

// The largest second byte behind LAST: a larger one would write a number over 10FFFF.
const LAST_SECOND: u8 = 0x8f;

// The second bytes of a sequence of three or four whose first is b.
fn second(b: u8) -> RangeInclusive<u8>
    ensures least { range_inclusive_start result ≡ least_second b }
    ensures most { range_inclusive_end result ≡ most_second b }
    ensures whole { range_inclusive_exhausted result ≡ false }
{
    match b {
        SURROGATE => TAIL..=BEFORE_SURROGATES,
        LAST => TAIL..=LAST_SECOND,
        THREE => BEHIND_THREE..=LAST_TAIL,
        FOUR => BEHIND_FOUR..=LAST_TAIL,
        _ => TAIL..=LAST_TAIL,
    }
}

fn tail(b: u8) -> bool
    ensures { result ≡ of tail b }
{
    (TAIL..=LAST_TAIL).contains(&b)
}

// The answer of `wide`, whose law is proved once, of whatever is answered.
// Byte by byte: `peek` gives 0 past the end, which is no tail, so a sequence that is cut off there needs no test of its own. The second byte comes by
// `get`: by `peek`, Greek letters took 4 percent more instructions. Two bytes are asked for apart, which is one comparison where an arm is two: as an arm they
// took 5 percent more.
#[tactic(auto, using(crate::proofs::Leads::row_under, crate::proofs::Leads::row_two, crate::proofs::Leads::row_over, crate::proofs::Leads::row_cut))]
fn wide_found(s: &[u8], i: usize, b: u8) -> Option<usize>
    requires { (i < length s.now) × (b ≡ get_or s.now i 0) × (128 ≤ b) }
    ensures { result ≡ char_found (drop i s.now) }
{
    let c = *s.get(i + 1)?;
    if TWO <= b && b <= LAST_TWO {
        return tail(c).then_some(2);
    }
    match b {
        THREE..=LAST_THREE => (second(b).contains(&c) && tail(peek(s, i + 2))).then_some(3),
        FOUR..=LAST => {
            (second(b).contains(&c) && tail(peek(s, i + 2)) && tail(peek(s, i + 3))).then_some(4)
        }
        _ => None,
    }
}

// How many bytes the sequence at i has, whose first byte b is over 127: `sequence` for a caller that has looked at the byte.
// It is public for the lexer's loops over comments, which have looked at the byte (crates/lexer/src/trivia.rt says what `sequence` took in one), and so asks
// for what they know: with no `requires`, i + 1 could overflow.
pub fn wide(s: &[u8], i: usize, b: u8) -> Option<usize>
    requires { (i < length s.now) × (b ≡ get_or s.now i 0) × (128 ≤ b) }
    ensures answer { result ≡ char_found (drop i s.now) }
    ensures law { Told (drop i s.now) (unwrap_or result 0) }
{
    wide_found(s, i, b)
}

// How many bytes the sequence at i has, if one stands there: none does at the end of the text, or past it. No crate here calls
// it, since the lexer has looked at the byte and asks `wide`: it stays as a public function that README.md names.
#[tactic(auto, using(crate::proofs::Founds::past, crate::proofs::Founds::ascii))]
pub fn sequence(s: &[u8], i: usize) -> Option<usize>
    ensures answer { result ≡ char_found (drop i s.now) }
    ensures law { Told (drop i s.now) (unwrap_or result 0) }
{
    let b = *s.get(i)?;
    if b <= LAST_ASCII {
        return Some(1);
    }
    wide(s, i, b)
}
