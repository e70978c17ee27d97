// Comments: where one ends, and whether its bytes are well-formed UTF-8, both found in one pass over it.
ghost use Rattle.std.specs.Prelude.{◌≡◌, ◌+◌, ◌≤◌, ◌<◌, length, get_or, drop};
ghost use Rattle.lexer.specs.Lexemes.{closing};
ghost use Rattle.lexer.specs.Step.{lexeme_at};
ghost use Rattle.lexer.specs.Trivia.{CommentAt, WalkEnds, plain_beside, edge_of, broken_of};

use crate::Step;
use crate::scan::Scanner;
use text::peek;
use text::refusal::{Refusal, Refused};

// What two bytes in a block comment do. No byte over 127 is one of them, so they are looked for between sequences.
#[derive(Drop)]
pub(crate) enum Edge {
    Opens,
    Closes,
    Neither,
}

// Whether a byte is a sequence of its own and none of two others: in a block comment, `/` and `*`.
// Most bytes are past both, and that is asked first, by one comparison of signed bytes as the compiler makes it: by `b > LARGER` and then `b <=
// utf8::LAST_ASCII` a comment of letters took 27 percent more instructions. The two have a `return` each: joined with the last test by `&&`, they came
// behind bytes over 127, and stars took 17 percent more, nested comments 8, Greek letters 15 less.
fn plain<const LARGER: u8, const SMALLER: u8>(b: u8) -> bool
    requires { (SMALLER < LARGER) × (LARGER ≤ 127) }
    ensures { result ≡ plain_beside LARGER SMALLER b }
{
    if LARGER < b && b <= utf8::LAST_ASCII {
        return true;
    }
    if b == SMALLER {
        return false;
    }
    if b == LARGER {
        return false;
    }
    b <= utf8::LAST_ASCII
}

// What the two bytes at j do. The second is read behind a first that may begin a mark: a `match` over both reads two at each byte, and a comment of stars
// took 26 percent more instructions.
fn edge_at(s: &[u8], j: usize) -> Edge
    requires { j + 1 < length s.now }
    ensures { result ≡ edge_of (get_or s.now j 0) (get_or s.now (j + 1) 0) }
{
    match s[j] {
        b'/' if s[j + 1] == b'*' => Edge::Opens,
        b'*' if s[j + 1] == b'/' => Edge::Closes,
        _ => Edge::Neither,
    }
}

// How a walk over a block comment ends: behind what closes it, unclosed, or at a bad sequence with so many comments open within it.
#[derive(Drop)]
pub(crate) enum Walked {
    Closed { end: usize },
    Unclosed,
    Bad { place: usize, depth: usize },
}

// For `SEQUENCES`: a walk that looks for bad sequences, and one from the first of them on. A const parameter cannot be an enum, so the two values have names.
const BY_SEQUENCES: bool = true;

const BY_BYTES: bool = false;

// A walk over a block comment from a place on, with so many comments open within it, by sequences or by single bytes. The last byte of the draft alone closes
// nothing, so the loop leaves it out and always has two bytes. Here `sequence`, inlined too, would look again at what is known of the byte: Greek letters
// took 9 percent more instructions, Polish text 5. So `utf8::wide` is public, and takes the byte, which must be over 127.
fn walk<const SEQUENCES: bool>(s: &[u8], from: usize, inner: usize) -> Walked
    requires { (0 < length s.now) × (from ≤ length s.now) × (inner ≤ from) }
    ensures { WalkEnds SEQUENCES s.now from inner result }
{
    let last = s.len() - 1;
    let mut j = from;
    let mut depth = inner;
    while j < last {
        let b = s[j];
        if plain::<b'/', b'*'>(b) {
            j += 1;
            continue;
        }
        match edge_at(s, j) {
            Edge::Opens => {
                depth += 1;
                j += 2;
            }
            Edge::Closes => {
                if depth == 0 {
                    return Walked::Closed { end: j + 2 };
                }
                depth -= 1;
                j += 2;
            }
            Edge::Neither => {
                if SEQUENCES && b > utf8::LAST_ASCII {
                    let Some(n) = utf8::wide(s, j, b) else {
                        return Walked::Bad { place: j, depth };
                    };
                    j += n;
                    continue;
                }
                j += 1;
            }
        }
    }
    Walked::Unclosed
}

// The block comment at i with a bad sequence at k, where so many comments are open within it: refused there if it is closed, else at its opening.
// A walk by bytes never answers `Bad`, so the last arm is `Unclosed` alone. Inlined, its refusal was made ready at every byte: a comment of stars took 9
// percent more instructions.
#[inline(never)]
fn broken(s: &[u8], i: usize, k: usize, inner: usize) -> Step
    requires { (k < length s.now) × (inner ≤ k) }
    ensures { result ≡ broken_of (closing (drop k s.now) inner 0) i k }
{
    let (refusal, place) = match walk::<BY_BYTES>(s, k, inner) {
        Walked::Closed { .. } => (Refusal::NotUtf8, k),
        _ => (Refusal::Unclosed, i),
    };
    Step::Refused(Refused { refusal, place })
}

impl Scanner<'_> {
    // The line comment here: it runs to before CR, LF or the end. The loops over comments step by sequences and marks of one to four bytes, so they count the
    // place themselves. This is a loop of its own beside `walk`: one byte ends it, nothing nests, and the draft's last byte is of it too. Most bytes are past
    // CR, and most others over 127, so that is asked in this order. Inlined, its refusal was made ready at every sequence.
    #[inline(never)]
    fn line(self) -> Step
        requires { CommentAt self.draft.now self.at 47 }
        ensures { result ≡ lexeme_at self.entry.draft.now self.entry.at }
    {
        let s = self.draft;
        let mut j = self.at + 2;
        while j < s.len() {
            let b = s[j];
            if b'\r' < b && b <= utf8::LAST_ASCII {
                j += 1;
                continue;
            }
            if b > utf8::LAST_ASCII {
                let Some(n) = utf8::wide(s, j, b) else {
                    return Step::Refused(Refused {
                        refusal: Refusal::NotUtf8,
                        place: j,
                    });
                };
                j += n;
                continue;
            }
            if b == b'\r' || b == b'\n' {
                return Step::Trivia { end: j };
            }
            j += 1;
        }
        Step::Trivia { end: j }
    }

    // The block comment here.
    fn block(self) -> Step
        requires { CommentAt self.draft.now self.at 42 }
        ensures { result ≡ lexeme_at self.entry.draft.now self.entry.at }
    {
        match walk::<BY_SEQUENCES>(self.draft, self.at + 2, 0) {
            Walked::Closed { end } => Step::Trivia { end },
            Walked::Unclosed => self.refused(Refusal::Unclosed),
            Walked::Bad { place, depth } => broken(self.draft, self.at, place, depth),
        }
    }

    // What stands at a `/`.
    pub(crate) fn slash(self) -> Step
        requires { get_or self.draft.now self.at 0 ≡ 47 }
        ensures { result ≡ lexeme_at self.entry.draft.now self.entry.at }
    {
        let b = peek(self.draft, self.at + 1);
        if b == b'*' {
            return self.block();
        }
        if b == b'/' {
            return self.line();
        }
        self.refused(Refusal::NoLexeme)
    }
}
