// The refusals: document 01, "What the reader hands over"; from 16 on those of the later requests. A refusal's number is what callers see.
ghost use Rattle.std.specs.Prelude.{◌≡◌, ◌++◌, Some, codes};
ghost use Rattle.std.specs.Fmt.{decimal};
ghost use Rattle.text.specs.Refusals.{refusal_number};

use std::fmt;

#[derive(Clone, Copy, PartialEq, Eq, Debug)]
pub enum Refusal {
    // draft over 16,384 bytes, or at the library 1,048,576
    TooLong = 1,
    // a byte over 127 outside comments
    NotAscii = 2,
    // another byte starts no lexeme
    NoLexeme = 3,
    // block comment never closed
    Unclosed = 4,
    // the word `simc`
    Simc = 5,
    // over 2,048 tokens, or at the library 131,072, or over a third of the token buffer's words
    TooMany = 6,
    // over 48 brackets open, or over 8 `match` tokens in a row
    TooDeep = 7,
    // the tokens before this one can be continued to a well-shaped draft, but not with this one
    Misshapen = 8,
    // `List` or `fold` bound not a power of two from 2 to 9,223,372,036,854,775,808
    Bound = 9,
    // `array_fold` size 0 or over 18,446,744,073,709,551,615
    Size = 10,
    // match without arms
    NoArms = 11,
    // enum and built-in arms in one match
    MixedArms = 12,
    // built-in arms only, 1 or over 2
    ArmCount = 13,
    // two built-in arms, not Left with Right, None with Some, False with True
    NoPartners = 14,
    // tree buffer under seven words a record
    NoRoom = 15,
    // of a listing: a line is of none of the three forms, or of another than the first, or all are longer than their numbers need
    BadLine = 16,
    // the lines form neither a whole function nor a whole program, or a way up is wrong
    NotWhole = 17,
    // record buffer under seven words a record
    NoLoadRoom = 18,
    // of a shape again, among 9 to 14 by earliest place: an array type's length is over the largest 64-bit number
    Length = 19,
    // of the bytes again, among 2 to 5 by earliest place: bytes inside a comment are not well-formed UTF-8
    NotUtf8 = 21,
}

// The number by which callers know a refusal.
impl From<Refusal> for u32 {
    ghost from_gives = { λ r n. n ≡ refusal_number r };

    fn from(refusal: Refusal) -> u32 {
        refusal as u32
    }
}

// A refusal is shown as its number.
impl fmt::Display for Refusal {
    ghost output = { λ r. Some (decimal (refusal_number r)) };

    fn fmt<W: fmt::Write>(&self, f: &mut fmt::Formatter<W>) -> fmt::Result {
        let number = u32::from(*self);
        write!(f, "{number}")
    }
}

// Why a draft or a listing is refused, and where: at a byte, or in a listing at a line; the place is 0 where a refusal has none, as document 01 says of the
// numbers that callers see.
#[derive(Clone, Copy, PartialEq, Eq, Debug)]
pub struct Refused {
    pub refusal: Refusal,
    pub place: usize,
}

// As the papers write it: `8 at 20`.
impl fmt::Display for Refused {
    ghost output = { λ r. Some (decimal (refusal_number r.refusal) ++ (codes " at " ++ decimal r.place)) };

    fn fmt<W: fmt::Write>(&self, f: &mut fmt::Formatter<W>) -> fmt::Result {
        write!(f, "{} at {}", self.refusal, self.place)
    }
}
