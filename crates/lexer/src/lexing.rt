// The tokens of a draft within its limits: refusals 2 to 7 and 21 in their order.
ghost use Rattle.std.specs.Prelude.{◌≡◌, ◌*◌, ◌≤◌, ◌<◌, ◌^◌, length, drop};
ghost use Rattle.text.specs.Front.{Held};
ghost use Rattle.text.specs.Refusals.{refused_by};
ghost use Rattle.lexer.specs.Buffer.{Keeps, words_kept};
ghost use Rattle.lexer.specs.Lexemes.{lexemes, lexemes_from};
ghost use Rattle.lexer.specs.Limits.{meant, deep, judged_in, too_many, tokens_of};
ghost use Rattle.lexer.specs.Nesting.{known, passed_at};

use crate::chars::Classes;
use crate::depth::Nest;
use crate::{Step, buffer, scan};
use text::refusal::{Refusal, Refused};

// Too deep, if a limit is passed; else the n tokens.
fn count(n: usize, nest: Nest) -> Result<usize, Refused>
    ensures { meant result ≡ deep (passed_at (known nest)) n }
{
    match nest {
        Nest::Past(place) => Err(Refused {
            refusal: Refusal::TooDeep,
            place,
        }),
        Nest::Within(_) => Ok(n),
    }
}

// The refusal of a draft where the token at `over` is one too many: what is left is lexed for a refusal of its bytes, which comes first.
// It lexes that token again: begun at the token's end it would take two places of one type, to save one step of a refused draft. Tokens and trivia are two
// arms, since each has a law of its own (`over-token`, `over-trivia`): with one arm, tried, the check left the kept invariant open.
#[inline(never)]
fn too_many(classes: &Classes, draft: &[u8], over: usize) -> Refused
    ensures { refused_by result ≡ too_many (lexemes_from (drop over draft.now) over 0) over }
{
    let mut at = over;
    loop {
        match scan::step_with(classes, draft, at) {
            Step::Token { end, .. } => {
                at = end;
            }
            Step::Trivia { end } => {
                at = end;
            }
            Step::Refused(refused) => {
                return refused;
            }
            Step::Nothing => {
                return Refused {
                    refusal: Refusal::TooMany,
                    place: over,
                };
            }
        }
    }
}

// Lexes the whole draft, in one pass: the refusals of the bytes, then too many tokens, then too deep. The first token past the room ends the loop: with its
// place kept as an Option up to the end, names took 4 percent more instructions, digits 4.5.
#[inline(never)]
pub(crate) fn fill<const WORDS: usize>(
    draft: &[u8],
    out: &mut [u32],
    room: usize,
) -> Result<usize, Refused>
    requires short { length draft.now < 2 ^ 32 }
    requires width { Keeps WORDS }
    requires in_bounds { WORDS * room ≤ length out.old }
    ensures result_value { meant result ≡ judged_in room (lexemes draft.now) }
    ensures held { Held (meant result) (words_kept WORDS (tokens_of (lexemes draft.now))) out.old out.new }
{
    let classes = Classes::new();
    let mut at: usize = 0;
    let mut n: usize = 0;
    let mut nest = Nest::outside();
    // Where the next lexeme begins is known when this one is found, so the loop goes from place to place and counts by itself.
    loop {
        let found = scan::step_with(&classes, draft, at);
        match found {
            Step::Token { kind, end } => {
                if n == room {
                    return Err(too_many(&classes, draft, at));
                }
                nest = nest.after(kind, at);
                // Both are less than 2 ^ 32, as is required: `u32::try_from` would have an `Err` that never comes.
                buffer::put::<WORDS>(out, n, kind, at as u32, end as u32);
                n += 1;
                at = end;
            }
            Step::Trivia { end } => {
                at = end;
            }
            Step::Refused(refused) => {
                return Err(refused);
            }
            Step::Nothing => {
                return count(n, nest);
            }
        }
    }
}
