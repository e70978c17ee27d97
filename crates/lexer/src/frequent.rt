// What most of a draft is made of: names, keywords, numbers, marks and whitespace. Nothing is called here that is not a part of the lexing loop, so the
// compiler knows in each of its ways what was found there. And all is inlined: with a call among them the scanner was put into memory, and names took 46
// percent more instructions.
// So names, numbers and the choice among lexemes stand in scan.rt too. One choice for all of it, inlined, with a name before `:` or `!` out of line, took 28
// percent more instructions in names, 20 in digits and 5 in marks.
// A run is looked for behind its first byte, whose class says that it is of the run: from that byte on, names took 12 percent more and digits 15.
ghost use Rattle.std.specs.Prelude.{true, cond, eqb, None, ◌≡◌, ◌+◌, ◌<◌, length, get_or};
ghost use Rattle.lexer.specs.Chars.{among, decimal_digits, name_starts};
ghost use Rattle.lexer.specs.Bytes.{in_classes};
ghost use Rattle.lexer.specs.Bytes as byte;
ghost use Rattle.lexer.specs.Places.{Named, IfAny, Rare};

use crate::scan::{Name, Scanner};
use crate::{Step, byte, classes as class};
use text::peek;

impl Scanner<'_> {
    // The name up to this end, if neither `!` nor `::` stands behind it.
    #[inline(always)]
    pub(crate) fn name_to(self, end: usize) -> Option<Step>
        requires { Named self.draft.now self.at end }
        ensures { IfAny self.entry.draft.now self.entry.at result }
    {
        let b = peek(self.draft, end);
        if b == b'!' {
            return None;
        }
        if b == b':' {
            if peek(self.draft, end + 1) == b':' {
                return None;
            }
        }
        let name = Name { scanner: self, end };
        Some(name.word())
    }

    // A name behind which neither `!` nor `::` stands.
    #[inline(always)]
    fn plain_name(self) -> Option<Step>
        requires { (among name_starts (get_or self.draft.now self.at 0) ≡ true) × (in_classes byte.Underscore byte.Letter (get_or self.draft.now self.at 0) ≡ true) }
        ensures { IfAny self.entry.draft.now self.entry.at result }
    {
        let end = self
            .classes
            .run_end(self.draft, self.at + 1, byte::UNDERSCORE, byte::LETTER);
        self.name_to(end)
    }

    // A number that does not begin with 0.
    #[inline(always)]
    fn plain_number(self) -> Option<Step>
        requires { among decimal_digits (get_or self.draft.now self.at 0) ≡ true }
        ensures { IfAny self.entry.draft.now self.entry.at result }
    {
        if self.draft[self.at] == b'0' {
            return None;
        }
        let e = self
            .classes
            .run_end(self.draft, self.at + 1, byte::UNDERSCORE, byte::DIGIT);
        Some(Step::Token {
            kind: class::DEC_LITERAL,
            end: e,
        })
    }

    // The mark of one byte here, or that of two if the byte next stands behind it.
    #[inline(always)]
    pub(crate) fn one_or_two(self, one: u32, next: u8, two: u32) -> Step
        ensures { result ≡ cond (eqb (get_or self.entry.draft.now (self.entry.at + 1) 0) next) (Step.Token two (self.entry.at + 2)) (Step.Token one (self.entry.at + 1)) }
    {
        if peek(self.draft, self.at + 1) == next {
            return Step::Token {
                kind: two,
                end: self.at + 2,
            };
        }
        Step::Token {
            kind: one,
            end: self.at + 1,
        }
    }

    // A mark other than `->`. That the class is `Rare` where the answer is `None` is a clause and no ghost field: a scanner is made before
    // that is known.
    #[inline(always)]
    fn plain_mark(self) -> Option<Step>
        requires { (byte.Letter < self.class) × (self.class < byte.Space) }
        ensures found { IfAny self.entry.draft.now self.entry.at result }
        ensures rest { result ≡ None → Rare self.entry.class }
    {
        match self.class {
            byte::COLON => Some(self.one_or_two(class::COLON, b':', class::DOUBLE_COLON)),
            byte::EQ => Some(self.one_or_two(class::EQ, b'>', class::FAT_ARROW)),
            byte::SLASH | byte::MINUS | byte::OTHER => None,
            _ => Some(Step::Token {
                kind: u32::from(self.class),
                end: self.at + 1,
            }),
        }
    }

    // A number or a mark of these.
    #[inline(always)]
    pub(crate) fn number_or_mark(self) -> Option<Step>
        ensures { IfAny self.entry.draft.now self.entry.at result }
    {
        match self.class {
            byte::BINARY_DIGIT..=byte::DIGIT => self.plain_number(),
            byte::SLASH..=byte::OTHER => self.plain_mark(),
            _ => None,
        }
    }

    // What stands here, if it is one of these.
    #[inline(always)]
    pub(crate) fn lexeme(self) -> Option<Step>
        ensures found { IfAny self.entry.draft.now self.entry.at result }
        ensures rest { result ≡ None → Rare self.entry.class }
    {
        match self.class {
            byte::UNDERSCORE..=byte::LETTER => {
                if matches!(self.class, byte::BINARY_DIGIT..=byte::DIGIT) {
                    return self.plain_number();
                }
                self.plain_name()
            }
            byte::SLASH..=byte::OTHER => self.plain_mark(),
            byte::SPACE..=byte::LINE_END => Some(Step::Trivia {
                end: self
                    .classes
                    .run_end(self.draft, self.at + 1, byte::SPACE, byte::LINE_END),
            }),
            _ => None,
        }
    }
}
