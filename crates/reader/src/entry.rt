// The listing of a draft into a buffer of bytes, as the entries for C do it (crate togmelic).
ghost use Rattle.std.specs.Prelude.{◌≡◌, [], ◌↔◌, ◌<◌, length};
ghost use Rattle.std.proofs.Common.{Fits, w32};
ghost use Rattle.text.specs.Refusals.{refused_by};
ghost use Rattle.lexer.specs.Limits.{large_limits, limits_for};
ghost use Rattle.lexer.specs.declared.Limits.TheVariants.{Small};
ghost use Rattle.lines.specs.Lines.{widths, lines_of, lines};
ghost use Rattle.lines.specs.Written.{used, padded};
ghost use Rattle.grammar.specs.Entry.{whole_file};
ghost use Rattle.grammar.specs.Answers.Answer.{answer, token_buffer, tree_buffer};
ghost use Rattle.grammar.specs.Answers.Promised.{Promised};
ghost use Rattle.grammar.specs.Answers.Lean.{lean_answer, start_buffer, lean_tree, lean_listing, PromisedLean, ListedAsOther};
ghost use Rattle.grammar.specs.Answers.Lines as spec;
ghost use Rattle.reader.specs.Listed.{HandsOver, Early, Short, written, rows_listed, listing_by, listing_of, used_of, bytes_of};

use crate::Counts;
use crate::arrays::with_words;
use crate::lexed::Lexed;
use lexer::Limits;
use parse::ReadAs;
use text::refusal::Refused;
use text::{RECORD_WORDS, TOKEN_WORDS};

// A file has at most one record more than tokens, that of the whole file.
const RECORDS_OVER: usize = 1;

// Room for the lines of every draft within the small limits.
pub const LISTING_BYTES: usize = lines::LINE_BYTES * (lexer::SMALL_TOKENS + RECORDS_OVER);

// The words that are enough for every such draft.
const MOST_TOKENS: usize = TOKEN_WORDS * lexer::SMALL_TOKENS;

const MOST_RECORDS: usize = RECORD_WORDS * (lexer::SMALL_TOKENS + RECORDS_OVER);

// Lists a refusal: kind 0, the place twice, the number as low, high 0, size 1, way up 0.
// The place fits a word, as is required: `u32::try_from` would have an `Err` that never comes.
fn refusal(refused: Refused, out: &mut [u8]) -> usize
    requires { Fits w32 refused.place }
    ensures { HandsOver (lines (spec.listed (refused_by refused) [])) (length out.old) result out.new }
{
    let place = refused.place as u32;
    let words = [0, place, place, u32::from(refused.refusal), 0, 1, 0];
    lines::list(&words, 1, out)
}

// Lists what was read: the records at the front of a buffer, or the refusal. Within the small limits four digits hold every place.
fn list_read(
    reading: Result<Counts, Refused>,
    limits: Limits,
    tree: &[u32],
    out: &mut [u8],
) -> usize
    requires early { Early reading }
    requires short { limits ≡ Small → Short reading tree.now }
    ensures { HandsOver (written reading tree.now) (length out.old) result out.new }
{
    match (reading, limits) {
        (Ok(counts), Limits::Small) => lines::list_short(tree, counts.records, out),
        (Ok(counts), Limits::Large) => lines::list(tree, counts.records, out),
        (Err(refused), _) => refusal(refused, out),
    }
}

// Lists a draft by way of its tokens, which stand in a buffer, and of this buffer for its tree.
fn list_by(lexed: &Lexed, out: &mut [u8], tree: &mut [u32]) -> usize
    ensures { HandsOver (spec.listing whole_file (limits_for lexed.now.limits) lexed.now.draft.now (length lexed.now.words.now) (length tree.old)) (length out.old) result out.new }
{
    let reading = crate::parsed(lexed, tree, ReadAs::File);
    list_read(reading, lexed.limits, tree, out)
}

// The same, within the small limits, by way of the smallest array that has room for the records of so many tokens.
fn list_counted(lexed: &Lexed, out: &mut [u8]) -> usize
    requires { lexed.now.limits ≡ Small }
    ensures { HandsOver (listing_by lexed.now.draft.now (length lexed.now.words.now)) (length out.old) result out.new }
{
    let words = RECORD_WORDS * (lexed.count + RECORDS_OVER);
    with_words::<MOST_RECORDS, _, _>(words, lexed, out, list_by)
}

// Lists a draft by way of this buffer for its tokens.
fn list_lexed(draft: &[u8], out: &mut [u8], tokens: &mut [u32]) -> usize
    ensures { HandsOver (listing_by draft.now (length tokens.old)) (length out.old) result out.new }
{
    let limits = Limits::Small;
    match lexer::lex_front(draft, tokens, limits) {
        Ok(count) => list_counted(
            &Lexed {
                draft,
                words: tokens,
                count,
                limits,
            },
            out,
        ),
        Err(refused) => refusal(refused, out),
    }
}

// Lists a draft within the small limits: its lines, zeros behind them; 0 and zeros alone if the buffer is too short for them, as the interface for C has it.
// The array for the tokens is the smallest that has room for as many as the draft has bytes, or as any may have.
pub fn list_draft(draft: &[u8], out: &mut [u8]) -> usize
    ensures used { result ≡ used_of draft.now (length out.old) }
    ensures bytes { out.new ≡ bytes_of draft.now (length out.old) }
    ensures nothing { (result ≡ 0) ↔ (length out.old < length (listing_of draft.now)) }
    ensures short { listing_of draft.now ≡ lines_of widths (rows_listed draft.now) }
{
    let words = draft.len().saturating_mul(TOKEN_WORDS);
    with_words::<MOST_TOKENS, _, _>(words, draft, out, list_lexed)
}

// Lists a draft within the large limits by way of lent buffers, in which its tokens and its tree stand afterwards: what `read_file` leaves there.
pub fn list_large(draft: &[u8], tokens: &mut [u32], tree: &mut [u32], out: &mut [u8]) -> usize
    ensures used { result ≡ used (spec.listing whole_file large_limits draft.now (length tokens.old) (length tree.old)) (length out.old) }
    ensures bytes { out.new ≡ padded (spec.listing whole_file large_limits draft.now (length tokens.old) (length tree.old)) (length out.old) }
    ensures tokens { tokens.new ≡ token_buffer whole_file large_limits draft.now (length tokens.old) (length tree.old) }
    ensures tree { tree.new ≡ tree_buffer whole_file large_limits draft.now (length tokens.old) (length tree.old) }
    ensures laws { Promised whole_file large_limits draft.now (length tokens.old) (length tree.old) (answer whole_file large_limits draft.now (length tokens.old) (length tree.old)) tokens.new tree.new }
    ensures nothing { (result ≡ 0) ↔ (length out.old < length (spec.listing whole_file large_limits draft.now (length tokens.old) (length tree.old))) }
{
    let reading = crate::read_file(draft, tokens, tree);
    list_read(reading, Limits::Large, tree, out)
}

// The same with one word a token, its start: what `read_lean_file` leaves there. The listing is that of `list_large` whenever both buffers suffice.
pub fn list_lean(draft: &[u8], starts: &mut [u32], tree: &mut [u32], out: &mut [u8]) -> usize
    ensures used { result ≡ used (lean_listing whole_file large_limits draft.now (length starts.old) (length tree.old)) (length out.old) }
    ensures bytes { out.new ≡ padded (lean_listing whole_file large_limits draft.now (length starts.old) (length tree.old)) (length out.old) }
    ensures starts { starts.new ≡ start_buffer whole_file large_limits draft.now (length starts.old) (length tree.old) }
    ensures tree { tree.new ≡ lean_tree whole_file large_limits draft.now (length starts.old) (length tree.old) }
    ensures laws { PromisedLean whole_file large_limits draft.now (length starts.old) (length tree.old) (lean_answer whole_file large_limits draft.now (length starts.old) (length tree.old)) starts.new tree.new }
    ensures as_other { ListedAsOther whole_file large_limits draft.now (length starts.old) (length tree.old) (length out.old) result out.new }
    ensures nothing { (result ≡ 0) ↔ (length out.old < length (lean_listing whole_file large_limits draft.now (length starts.old) (length tree.old))) }
{
    let reading = crate::read_lean_file(draft, starts, tree);
    list_read(reading, Limits::Large, tree, out)
}
