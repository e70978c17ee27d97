// The tokens of a draft, one by one. What every step calls is inlined, so that a state stays in registers.
ghost use Rattle.std.specs.Prelude.{◌≡◌, ◌+◌, ◌/◌, ◌%◌, ◌^◌, ◌≤◌, ◌||◌, ◌==◌, None, length};
ghost use Rattle.lexer.specs.Classes as t;
ghost use Rattle.text.specs.Part.{part_of};
ghost use Rattle.num.specs.Value.{number_of};

use crate::{State, Step};
use lexer::chars::Classes;
use lexer::classes as class;
use lexer::found::WORD_VALUES;
use text::TOKEN_WORDS;

// The class past the last token, where none stands; its start and its end are 0 too.
pub(crate) const END: u32 = 0;

// A token. A state has these three words as fields of its own and no `Lexeme`: contracts and code say `st.class`, `st.start` and `st.stop` at a
// hundred places, which would all be `st.token.class` and kin, and a state is made of a token in two functions only.
#[derive(Drop)]
pub(crate) struct Lexeme {
    pub(crate) class: u32,
    pub(crate) start: u32,
    pub(crate) stop: u32,
}

// What is read: a draft with its tokens, as rows of three words or as their starts alone; the other of the two is empty. An enum of them would be asked which
// it is at each look at a token. It goes to each function beside the tree and the state. A struct that lends the tree too was tried on `program::parameters`:
// a method by `&mut self` has to promise besides that the source stays, each answer behind a call to carry that over, and a loop that reads the source by its
// field is refused as not covered.
#[derive(Clone, Copy)]
pub(crate) struct Source<'a> {
    pub(crate) draft: &'a [u8],
    pub(crate) rows: &'a [[u32; TOKEN_WORDS]],
    pub(crate) starts: &'a [u32],
    // by which tokens are found again, where there are starts
    pub(crate) classes: Option<&'a Classes>,
    pub(crate) count: usize,
    ghost counted: { count ≡ length rows.now + length starts.now },
    ghost lent: { classes ≡ None → length starts.now ≡ 0 },
}

impl Source<'_> {
    ghost use Rattle.parse.specs.Contract.{text, count_of, tok_at, Gives, next, Moved, Eaten};

    // How many tokens there are.
    #[inline(always)]
    pub(crate) fn count(&self) -> usize
        ensures { result ≡ count_of self.now }
    {
        self.count
    }

    // The token of this number: its class, start and end; `END` with zeros past the last one.
    // As the definitions read past the end; an `Option` would be asked for at each look at a class.
    #[inline(always)]
    pub(crate) fn token(&self, at: usize) -> Lexeme
        ensures { Gives result (tok_at (text self.now) at) }
    {
        let Some(&[kind, start, stop]) = self.rows.get(at) else {
            return self.found(at);
        };
        let class = lexer::class(self.draft, kind, start as usize, stop as usize);
        Lexeme { class, start, stop }
    }

    // The same where there is no row of it.
    #[inline(always)]
    fn found(&self, at: usize) -> Lexeme
        requires { length self.now.rows.now ≤ at }
        ensures { Gives result (tok_at (text self.now) at) }
    {
        let (start, found) = self.found_again(at);
        Lexeme {
            class: (found / WORD_VALUES) as u32,
            start,
            stop: (found % WORD_VALUES) as u32,
        }
    }

    // The lexeme that the draft has at the token's start: the start, and its class and its end as one number. These two come back in registers, and out of line a
    // look at a row pays nothing. In the other order the parser took six thousand bytes of stack more.
    #[inline(never)]
    fn found_again(&self, at: usize) -> (u32, u64)
        requires { length self.now.rows.now ≤ at }
        ensures { Gives (record { class = result.1 / 2 ^ 32; start = result.0; stop = result.1 % 2 ^ 32 }) (tok_at (text self.now) at) }
    {
        let Some(&start) = self.starts.get(at - self.rows.len()) else {
            return (0, 0);
        };
        let Some(classes) = self.classes else {
            return (0, 0);
        };
        (
            start,
            lexer::found::class_and_end(classes, self.draft, start),
        )
    }

    // The state at the next token; past the last one its number stays.
    #[inline(always)]
    pub(crate) fn advance(&self, st: State) -> State
        ensures { Moved (text self.now) st result }
    {
        let at = self.after(st.at);
        let t = self.token(at);
        State {
            at,
            class: t.class,
            start: t.start,
            stop: t.stop,
            end: st.stop,
            ..st
        }
    }

    // The number of the next token; past the last one it stays.
    #[tactic(auto, unfolding(crate::specs::Contract::next))]
    #[inline(always)]
    fn after(&self, at: usize) -> usize
        ensures { result ≡ next at (count_of self.now) }
    {
        if at < self.count { at + 1 } else { at }
    }

    // The token of this class, or a refusal at the token that stands there.
    #[inline(always)]
    pub(crate) fn eat(&self, st: State, class: u32) -> Step
        ensures { Eaten (text self.now) st class result }
    {
        if st.class != class {
            return Step::Refused(st.at);
        }
        let next = self.advance(st);
        Step::Next(next, 0, 0)
    }

    // The bytes of the state's token,
    pub(crate) fn part(&self, st: State) -> &[u8]
        ensures { result.now ≡ part_of self.now.draft.now st.start st.stop }
    {
        text::part(self.draft, st.start as usize, st.stop as usize)
    }

    // and the number that they are, if they are one.
    pub(crate) fn number(&self, st: State) -> Option<u64>
        ensures { result ≡ number_of (part_of self.now.draft.now st.start st.stop) }
    {
        num::number(self.draft, st.start as usize, st.stop as usize)
    }
}

// The brackets of a list: `(..)` of a tuple, `[..]` of an array.
#[derive(Clone, Copy, PartialEq, Eq, Debug)]
pub(crate) enum Brackets {
    Round,
    Square,
}

impl Brackets {
    ghost use Rattle.parse.specs.Contract.{closing_class};

    // The class that closes them.
    pub(crate) fn end(self) -> u32
        ensures { result ≡ closing_class self }
    {
        match self {
            Brackets::Round => class::RPAREN,
            Brackets::Square => class::RBRACKET,
        }
    }
}

// Whether a token of this class closes a list: `)` or `]`.
pub(crate) fn closes(class: u32) -> bool
    ensures { result ≡ (class == t.RParen || class == t.RBracket) }
{
    class == class::RPAREN || class == class::RBRACKET
}
