// The lexeme at a place: names, numbers, marks, and the step that chooses among them by the class of the first byte.
ghost use Rattle.std.specs.Prelude.{true, ◌≡◌, ◌+◌, ◌≤◌, ◌<◌, length, get_or, drop};
ghost use Rattle.std.proofs.Math.Option.{none};
ghost use Rattle.words.specs.Words.{KEYWORDS};
ghost use Rattle.lexer.specs.Chars.{among, decimal_digits, name_starts};
ghost use Rattle.lexer.specs.Lexemes.{macro, qualified};
ghost use Rattle.lexer.specs.Bytes.{byte_class};
ghost use Rattle.lexer.specs.Bytes as byte;
ghost use Rattle.lexer.specs.Step.{numbers, numbers_at, lexeme_at, step_of, refused_step};
ghost use Rattle.lexer.specs.Places.{Named, Based, Rare, keyword_at, decimal_at};

use crate::chars::Classes;
use crate::{Step, byte, classes as class};
use text::peek;
use text::refusal::{Refusal, Refused};
use words::Table;

// A place within a draft, with the classes of bytes and that of the byte here; its methods say what stands there. It is a value, since the lexing loop moves
// on from place to place. Their clauses name the draft and the place, as the laws about them do: a definition of a `Scanner` would hide both.
#[derive(Clone, Copy)]
pub(crate) struct Scanner<'a> {
    pub(crate) classes: &'a Classes,
    pub(crate) draft: &'a [u8],
    pub(crate) at: usize,
    pub(crate) class: u8,
    ghost within: { at < length draft.now },
    ghost classed: { class ≡ byte_class (get_or draft.now at 0) },
}

#[tactic(auto, using(crate::proofs::ByteClasses::starts_name, crate::proofs::ByteClasses::starts_not))]
fn starts_name(classes: &Classes, b: u8) -> bool
    ensures { result ≡ among name_starts b }
{
    matches!(
        classes.of(b),
        byte::UNDERSCORE | byte::HEX_LETTER..=byte::LETTER
    )
}

// A name of a draft, and where it ends.
#[derive(Clone, Copy)]
pub(crate) struct Name<'a> {
    pub(crate) scanner: Scanner<'a>,
    pub(crate) end: usize,
    ghost named: { Named scanner.draft.now scanner.at end },
}

impl Name<'_> {
    // Keyword number k. Their kinds are PUB to SIMC in the order of the words; the last is refused, and the two words behind it are the booleans.
    #[tactic(auto, using(crate::proofs::Names::keyword_count))]
    fn keyword(self, k: u8) -> Step
        requires { k < length KEYWORDS }
        ensures { result ≡ keyword_at k self.entry.scanner.at self.entry.end }
    {
        let kind = class::PUB + u32::from(k);
        if kind == class::SIMC {
            return self.scanner.refused(Refusal::Simc);
        }
        if kind > class::SIMC {
            return Step::Token {
                kind: class::BOOL,
                end: self.end,
            };
        }
        Step::Token {
            kind,
            end: self.end,
        }
    }

    // The name, where it is neither qualified nor a macro.
    pub(crate) fn word(self) -> Step
        requires { (qualified (drop self.scanner.at self.scanner.draft.now) ≡ none) × (macro (drop self.scanner.at self.scanner.draft.now) ≡ none) }
        ensures { result ≡ lexeme_at self.entry.scanner.draft.now self.entry.scanner.at }
    {
        match words::which(
            Table::Keywords,
            &self.scanner.draft[self.scanner.at..self.end],
        ) {
            Some(k) => self.keyword(k),
            None => Step::Token {
                kind: class::IDENT,
                end: self.end,
            },
        }
    }

    // The name, behind which `!` stands.
    fn macro_word(self) -> Step
        requires { get_or self.scanner.draft.now self.end 0 ≡ 33 }
        ensures { result ≡ lexeme_at self.entry.scanner.draft.now self.entry.scanner.at }
    {
        match words::word(
            Table::Macros,
            self.scanner.draft,
            self.scanner.at,
            self.end + 1,
        ) {
            Some(_) => Step::Token {
                kind: class::MACRO,
                end: self.end + 1,
            },
            None => self.word(),
        }
    }

    // The name, behind which `::` and a name stand.
    fn module_word(self) -> Step
        requires { (get_or self.scanner.draft.now self.end 0 ≡ 58) × (get_or self.scanner.draft.now (self.end + 1) 0 ≡ 58) × (among name_starts (get_or self.scanner.draft.now (self.end + 2) 0) ≡ true) }
        ensures { result ≡ lexeme_at self.entry.scanner.draft.now self.entry.scanner.at }
    {
        match words::word(
            Table::ModuleReserved,
            self.scanner.draft,
            self.scanner.at,
            self.end,
        ) {
            Some(k) => Step::Token {
                kind: class::JET + u32::from(k),
                end: self.scanner.classes.run_end(
                    self.scanner.draft,
                    self.end + 2,
                    byte::UNDERSCORE,
                    byte::LETTER,
                ),
            },
            None => self.word(),
        }
    }

    // The name, behind which `:` stands.
    fn colon_word(self) -> Step
        requires { get_or self.scanner.draft.now self.end 0 ≡ 58 }
        ensures { result ≡ lexeme_at self.entry.scanner.draft.now self.entry.scanner.at }
    {
        if peek(self.scanner.draft, self.end + 1) != b':' {
            return self.word();
        }
        if starts_name(self.scanner.classes, peek(self.scanner.draft, self.end + 2)) {
            return self.module_word();
        }
        self.word()
    }
}

impl Scanner<'_> {
    pub(crate) fn refused(self, refusal: Refusal) -> Step
        ensures { result ≡ refused_step refusal self.entry.at }
    {
        Step::Refused(Refused {
            refusal,
            place: self.at,
        })
    }

    // What stands at the start of a name.
    #[tactic(auto, using(crate::proofs::Names::named))]
    fn name(self) -> Step
        requires { among name_starts (get_or self.draft.now self.at 0) ≡ true }
        ensures { result ≡ lexeme_at self.entry.draft.now self.entry.at }
    {
        let end = self
            .classes
            .run_end(self.draft, self.at, byte::UNDERSCORE, byte::LETTER);
        let name = Name { scanner: self, end };
        let b = peek(self.draft, end);
        if b == b':' {
            return name.colon_word();
        }
        if b == b'!' {
            return name.macro_word();
        }
        name.word()
    }

    fn decimal(self) -> Step
        ensures { result ≡ decimal_at self.entry.draft.now self.entry.at }
    {
        let e = self
            .classes
            .run_end(self.draft, self.at, byte::UNDERSCORE, byte::DIGIT);
        Step::Token {
            kind: class::DEC_LITERAL,
            end: e,
        }
    }

    // A token of this kind if a digit of its base stands behind the two bytes of its prefix, else a decimal one.
    fn based(self, kind: u32, most: u8) -> Step
        requires { Based self.draft.now self.at kind most }
        ensures { result ≡ lexeme_at self.entry.draft.now self.entry.at }
    {
        if !(byte::BINARY_DIGIT..=most).contains(&self.classes.of(peek(self.draft, self.at + 2))) {
            return self.decimal();
        }
        Step::Token {
            kind,
            end: self
                .classes
                .run_end(self.draft, self.at + 2, byte::UNDERSCORE, most),
        }
    }

    // What stands at a digit.
    fn number(self) -> Step
        requires { among decimal_digits (get_or self.draft.now self.at 0) ≡ true }
        ensures { result ≡ lexeme_at self.entry.draft.now self.entry.at }
    {
        let b = self.draft[self.at];
        if b != b'0' {
            return self.decimal();
        }
        let x = peek(self.draft, self.at + 1);
        if x == b'x' {
            return self.based(class::HEX_LITERAL, byte::HEX_LETTER);
        }
        if x == b'b' {
            return self.based(class::BIN_LITERAL, byte::BINARY_DIGIT);
        }
        self.decimal()
    }

    // What stands at a `-`.
    fn arrow(self) -> Step
        requires { self.class ≡ byte.Minus }
        ensures { result ≡ lexeme_at self.entry.draft.now self.entry.at }
    {
        if peek(self.draft, self.at + 1) != b'>' {
            return self.refused(Refusal::NoLexeme);
        }
        Step::Token {
            kind: class::ARROW,
            end: self.at + 2,
        }
    }

    // What stands here, where it is none of what is frequent.
    #[inline(never)]
    fn whatever(self) -> Step
        requires { Rare self.class }
        ensures { result ≡ lexeme_at self.entry.draft.now self.entry.at }
    {
        match self.class {
            byte::BINARY_DIGIT..=byte::DIGIT => self.number(),
            byte::UNDERSCORE..=byte::LETTER => self.name(),
            byte::SLASH => self.slash(),
            byte::MINUS => self.arrow(),
            byte::OTHER => self.refused(Refusal::NoLexeme),
            _ => self.refused(Refusal::NotAscii),
        }
    }

    // The same, called from a function of its own: the place for the answer is made ready only where it is wanted. Without it names took 23 percent more
    // instructions.
    fn rare(self) -> Step
        requires { Rare self.class }
        ensures { result ≡ lexeme_at self.entry.draft.now self.entry.at }
    {
        self.whatever()
    }
}

// What stands at a place of the draft. Two loops and the finder have it: where the compiler was free to make it a call, names took 61 percent more instructions.
#[inline(always)]
pub(crate) fn step_with(classes: &Classes, draft: &[u8], at: usize) -> Step
    ensures { result ≡ step_of draft.now at }
{
    if at >= draft.len() {
        return Step::Nothing;
    }
    let class = classes.of(draft[at]);
    let scanner = Scanner {
        classes,
        draft,
        at,
        class,
    };
    let Some(found) = scanner.lexeme() else {
        return scanner.rare();
    };
    found
}

// The lexing step: what stands at a place of the draft.
#[tactic(auto, using(crate::proofs::StepNumbers::step_numbers))]
pub fn step(draft: &[u8], at: usize) -> Step
    ensures answer { result ≡ step_of draft.now at }
    ensures numbers { numbers result ≡ numbers_at draft.now at }
{
    let classes = Classes::new();
    step_with(&classes, draft, at)
}
