// The token buffer: so many words a token, `TOKEN_WORDS` for all of it or `START_WORDS` for its start alone.
ghost use Rattle.std.specs.Prelude.{◌≡◌, ◌+◌, ◌*◌, ◌≤◌, length};
ghost use Rattle.text.specs.Widths.{tok_wide};
ghost use Rattle.lexer.specs.Buffer.{Keeps, put_at};

use crate::START_WORDS;
use text::TOKEN_WORDS;

// Writes all of token number n. The words and the number are parameters: a struct of them and the room with a method `push`, held by the lexing loop, took 1.0
// percent more instructions in names, 1.1 in digits and 1.6 in marks.
// Three stores, since `copy_from_slice` took 10 percent more instructions in names, digits and marks; the library says nothing of what `as_chunks_mut`
// leaves.
#[inline(always)]
#[tactic(auto, using(crate::proofs::Kept::put_whole))]
fn put_whole(out: &mut [u32], n: usize, kind: u32, start: u32, end: u32)
    requires { tok_wide * (n + 1) ≤ length out.old }
    ensures { out.new ≡ put_at tok_wide out.old n kind start end }
{
    out[TOKEN_WORDS * n] = kind;
    out[TOKEN_WORDS * n + 1] = start;
    out[TOKEN_WORDS * n + 2] = end;
}

// Writes what is kept of token number n: where it has one word its start, else all of it. Which of the two is known where it is compiled.
#[inline(always)]
#[tactic(auto, using(crate::proofs::Kept::all_put))]
pub(crate) fn put<const WORDS: usize>(out: &mut [u32], n: usize, kind: u32, start: u32, end: u32)
    requires width { Keeps WORDS }
    requires in_bounds { WORDS * (n + 1) ≤ length out.old }
    ensures { out.new ≡ put_at WORDS out.old n kind start end }
{
    if WORDS == START_WORDS {
        out[START_WORDS * n] = start;
    } else {
        put_whole(out, n, kind, start, end);
    }
}
