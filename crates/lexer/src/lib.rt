// The lexer: from the bytes of a draft to its tokens.
#![tactic(auto)]

ghost use Rattle.std.specs.Prelude.{◌||◌, ◌≡◌, ◌/◌, eqb, length, min};
ghost use Rattle.text.specs.Front.{Held};
ghost use Rattle.text.specs.Part.{part_of};
ghost use Rattle.lexer.specs.Classes as t;
ghost use Rattle.lexer.specs.Class.{class_of};
ghost use Rattle.lexer.specs.ClassLaw.{ClassLaw};
ghost use Rattle.lexer.specs.Texts.{OneToken};
ghost use Rattle.lexer.specs.Lexemes.{lexemes};
ghost use Rattle.lexer.specs.Buffer.{Keeps, words_kept};
ghost use Rattle.lexer.specs.Limits.{limits_for, meant, lexed_in, lexed_of, buffer_of, tokens_of, token_words};
ghost use Rattle.lexer.specs.Starts.{starts_lexed, start_words};

use text::TOKEN_WORDS;
use text::refusal::{Refusal, Refused};
use words::Table;

mod buffer;
mod byte;
pub mod chars;
pub mod classes;
mod depth;
pub mod found;
mod frequent;
mod lexing;
pub mod scan;
mod table;
mod trivia;

// How many bytes and how many tokens a draft may have, by the small limits
pub const SMALL_BYTES: usize = 16384;

pub const SMALL_TOKENS: usize = 2048;

// and by the large ones.
pub const LARGE_BYTES: usize = 1048576;

pub const LARGE_TOKENS: usize = 131072;

// How many words a token has where its start alone is kept (document 02, order 10).
pub const START_WORDS: usize = 1;

// The two sets of limits (document 02, order 9): the listing program and `togmelic_list` keep the small ones, all else of the library has the large ones.
#[derive(Clone, Copy, PartialEq, Eq, Debug)]
pub enum Limits {
    Small,
    Large,
}

impl Limits {
    // How many bytes a draft may have.
    pub fn bytes(self) -> usize
        ensures { result ≡ (limits_for self).bytes }
    {
        match self {
            Limits::Small => SMALL_BYTES,
            Limits::Large => LARGE_BYTES,
        }
    }

    // How many tokens.
    pub fn tokens(self) -> usize
        ensures { result ≡ (limits_for self).tokens }
    {
        match self {
            Limits::Small => SMALL_TOKENS,
            Limits::Large => LARGE_TOKENS,
        }
    }
}

// What stands at a place of a draft. Document 01: each step answers by an enum, instead of `Result`.
// A kind is a number, as the buffer has it: `PUB + k`, `JET + k` and the class of a byte are kinds as they stand.
#[derive(Clone, Copy, PartialEq, Eq, Debug)]
pub enum Step {
    // A token of a kind, up to an end.
    Token { kind: u32, end: usize },
    // Whitespace or a comment, up to an end.
    Trivia { end: usize },
    // A refusal, at a place.
    Refused(Refused),
    // The end of the draft.
    Nothing,
}

// Writes the tokens of the draft, `TOKEN_WORDS` words each, and zeros behind them, and says how many there are; on a refusal every word is 0.
pub fn lex(draft: &[u8], out: &mut [u32], limits: Limits) -> Result<usize, Refused>
    ensures result_value { meant result ≡ lexed_of (limits_for limits) draft.now (length out.old) }
    ensures out_after { out.new ≡ buffer_of (limits_for limits) draft.now (length out.old) }
{
    let lexed = lex_front(draft, out, limits);
    text::clear_from(out, lexed.map_or(0, |n| TOKEN_WORDS * n));
    lexed
}

// Refusal 1, then what the pass over the draft finds; so many words are written a token.
fn lex_as<const WORDS: usize>(
    draft: &[u8],
    out: &mut [u32],
    limits: Limits,
) -> Result<usize, Refused>
    requires width { Keeps WORDS }
    ensures result_value { meant result ≡ lexed_in (limits_for limits) draft.now (min (limits_for limits).tokens (length out.old / WORDS)) }
    ensures held { Held (meant result) (words_kept WORDS (tokens_of (lexemes draft.now))) out.old out.new }
{
    let bytes = limits.bytes();
    if draft.len() > bytes {
        return Err(Refused {
            refusal: Refusal::TooLong,
            place: bytes,
        });
    }
    let room = limits.tokens().min(out.len() / WORDS);
    lexing::fill::<WORDS>(draft, out, room)
}

// As `lex`, for a caller that needs no zeros: the words behind the tokens stay; on a refusal the words may be anything.
pub fn lex_front(draft: &[u8], out: &mut [u32], limits: Limits) -> Result<usize, Refused>
    ensures result_value { meant result ≡ lexed_of (limits_for limits) draft.now (length out.old) }
    ensures held { Held (meant result) (token_words (tokens_of (lexemes draft.now))) out.old out.new }
{
    lex_as::<TOKEN_WORDS>(draft, out, limits)
}

// As `lex_front`, with one word a token, its start.
pub fn lex_starts(draft: &[u8], out: &mut [u32], limits: Limits) -> Result<usize, Refused>
    ensures result_value { meant result ≡ starts_lexed (limits_for limits) draft.now (length out.old) }
    ensures held { Held (meant result) (start_words (tokens_of (lexemes draft.now))) out.old out.new }
{
    lex_as::<START_WORDS>(draft, out, limits)
}

// Whether a token of this kind may be a word that the rules single out.
fn may_be_word(kind: u32) -> bool
    ensures { result ≡ (eqb kind t.Bool || eqb kind t.Ident || eqb kind t.Macro) }
{
    matches!(kind, classes::BOOL | classes::IDENT | classes::MACRO)
}

// The class of a token of these bytes that may be a word. Few tokens of such kinds are, so the kind is looked at behind the look-up.
#[inline(always)]
#[tactic(auto, using(crate::proofs::TokenClass::few_words))]
fn rule_word(kind: u32, text: &[u8]) -> u32
    ensures { result ≡ class_of kind text.now }
{
    let Some(k) = words::which(Table::RuleWords, text) else {
        return kind;
    };
    if may_be_word(kind) {
        return classes::WORDS + u32::from(k);
    }
    kind
}

// The same by start and end, out of line, so that others pay nothing.
#[inline(never)]
fn word_class(draft: &[u8], kind: u32, start: usize, end: usize) -> u32
    ensures { result ≡ class_of kind (part_of draft.now start end) }
{
    rule_word(kind, text::part(draft, start, end))
}

// The class of a token for the rules: its kind, or the class of the name, macro or word that it is. Marks, keywords and numbers have smaller kinds than
// words. Kind, start and end may be any numbers: they are words of a lent buffer, so a struct of them could keep no fact, and would only be put together
// here and taken apart at once.
#[inline(always)]
#[tactic(auto, using(crate::proofs::TokenClass::small_kind))]
pub fn class(draft: &[u8], kind: u32, start: usize, end: usize) -> u32
    ensures answer { result ≡ class_of kind (part_of draft.now start end) }
    ensures law { OneToken kind (part_of draft.now start end) → ClassLaw kind (part_of draft.now start end) result }
{
    if kind < classes::BOOL {
        return kind;
    }
    word_class(draft, kind, start, end)
}

// The same of its bytes, with nothing called, for who has just found the token.
#[inline(always)]
#[tactic(auto, using(crate::proofs::TokenClass::small_kind))]
fn text_class(kind: u32, text: &[u8]) -> u32
    ensures { result ≡ class_of kind text.now }
{
    if kind >= classes::BOOL {
        return rule_word(kind, text);
    }
    kind
}
