// A token found again at its start, in a draft that was lexed (document 02, order 10): what the lexing step finds, for who keeps starts alone. It is in parts:
// marks of one byte are told by it and make nothing ready; names, and numbers with the other marks, have a function each that calls nothing; and what is rare
// comes last. As one function, with a table of classes of its own for each call, a whole reading took a third more instructions.
ghost use Rattle.std.specs.Prelude.{◌≡◌, ◌+◌, ◌≤◌, ◌<◌, length, get_or};
ghost use Rattle.lexer.specs.Bytes.{byte_class};
ghost use Rattle.lexer.specs.Bytes as byte;
ghost use Rattle.lexer.specs.Starts.{token_at, class_and_end};
ghost use Rattle.lexer.specs.Step.{step_of};

use crate::chars::Classes;
use crate::scan::Scanner;
use crate::{Step, byte};

// How many values a word of a buffer has.
pub const WORD_VALUES: u64 = u32::MAX as u64 + 1;

// What a step at a start says: the class of the token there for the rules and its end, in one number; 0 where no token starts. One number is handed back in a
// register, where a struct would go by memory that each caller clears before.
#[inline(always)]
fn told(draft: &[u8], start: u32, step: Step) -> u64
    requires { step ≡ step_of draft.now start }
    ensures { result ≡ class_and_end draft.now (token_at draft.now start) }
{
    let Step::Token { kind, end } = step else {
        return 0;
    };
    let end = end as u64 % WORD_VALUES;
    let class = crate::class(draft, kind, start as usize, end as usize);
    u64::from(class) * WORD_VALUES + end
}

// What starts here, if it is a mark that its byte tells; else one of the others. The two ranges of marks are two arms, since each has facts of its own.
#[inline(always)]
pub fn class_and_end(classes: &Classes, draft: &[u8], start: u32) -> u64
    ensures { result ≡ class_and_end draft.now (token_at draft.now start) }
{
    let at = start as usize;
    if at >= draft.len() {
        // There is nothing at the end of the draft and past it.
        return told(draft, start, Step::Nothing);
    }
    let class = classes.of(draft[at]);
    if class < byte::SEMI {
        return long(classes, draft, start, class);
    }
    match class {
        byte::SEMI..=byte::COMMA => told(draft, start, mark(class, start)),
        byte::LPAREN..=byte::RANGLE => told(draft, start, mark(class, start)),
        _ => frequent(classes, draft, start, class),
    }
}

// Names, and what else is no such mark. That marks are asked for first is written out: as one choice of all classes, each mark took four more instructions.
#[inline(always)]
fn long(classes: &Classes, draft: &[u8], start: u32, class: u8) -> u64
    requires { (start < length draft.now) × (class ≡ byte_class (get_or draft.now start 0)) }
    ensures { result ≡ class_and_end draft.now (token_at draft.now start) }
{
    match class {
        byte::UNDERSCORE | byte::HEX_LETTER..=byte::LETTER => name(classes, draft, start, class),
        _ => frequent(classes, draft, start, class),
    }
}

// A mark of one byte, whose kind is the class of the byte.
#[inline(always)]
fn mark(class: u8, start: u32) -> Step
    ensures { result ≡ Step.Token class (start + 1) }
{
    Step::Token {
        kind: u32::from(class),
        end: start as usize + 1,
    }
}

// A name, as most are; else `rare`.
#[inline(never)]
fn name(classes: &Classes, draft: &[u8], start: u32, class: u8) -> u64
    requires here { (start < length draft.now) × (class ≡ byte_class (get_or draft.now start 0)) }
    requires named { (class ≤ byte.Letter) × ((byte.BinaryDigit ≤ class) × (class ≤ byte.Digit) → ⊥) }
    ensures { result ≡ class_and_end draft.now (token_at draft.now start) }
{
    let at = start as usize;
    let scanner = Scanner {
        classes,
        draft,
        at,
        class,
    };
    let end = classes.long_run_end(draft, at + 1, byte::UNDERSCORE, byte::LETTER);
    let Some(step) = scanner.name_to(end) else {
        return rare(classes, draft, start);
    };
    let Step::Token { kind, end } = step else {
        return 0;
    };
    if end as u64 >= WORD_VALUES {
        return rare(classes, draft, start);
    }
    u64::from(crate::text_class(kind, &draft[at..end])) * WORD_VALUES + end as u64
}

// A number or a mark, as most are; else `rare`.
#[inline(never)]
fn frequent(classes: &Classes, draft: &[u8], start: u32, class: u8) -> u64
    requires { (start < length draft.now) × (class ≡ byte_class (get_or draft.now start 0)) }
    ensures { result ≡ class_and_end draft.now (token_at draft.now start) }
{
    let scanner = Scanner {
        classes,
        draft,
        at: start as usize,
        class,
    };
    let Some(step) = scanner.number_or_mark() else {
        return rare(classes, draft, start);
    };
    told(draft, start, step)
}

// Whatever starts here.
#[inline(never)]
fn rare(classes: &Classes, draft: &[u8], start: u32) -> u64
    ensures { result ≡ class_and_end draft.now (token_at draft.now start) }
{
    told(
        draft,
        start,
        crate::scan::step_with(classes, draft, start as usize),
    )
}
