// The reader: from the bytes of a draft to its tokens and the records of its tree, or one refusal with its place. Its limits are the large ones of the two
// sets (document 02, order 9); `list_draft` alone keeps the small ones.
#![tactic(auto)]

ghost use Rattle.std.specs.Prelude.{◌≡◌, length};
ghost use Rattle.lexer.specs.Lexemes.{lexemes};
ghost use Rattle.lexer.specs.Limits.{large_limits, limits_for, tokens_of, token_words};
ghost use Rattle.up.specs.Ways.{up_words};
ghost use Rattle.grammar.specs.Entry.{single_function, whole_file};
ghost use Rattle.parse.specs.Entry.{entry_of};
ghost use Rattle.text.specs.Answers.{values};
ghost use Rattle.text.specs.Front.{Held};
ghost use Rattle.grammar.specs.Answers.Answer.{answer, token_buffer, tree_buffer, records_read};
ghost use Rattle.grammar.specs.Answers.Promised.{Promised};
ghost use Rattle.grammar.specs.Answers.Lean.{lean_answer, start_buffer, lean_tree, PromisedLean};
ghost use Rattle.reader.specs.Read.{meant, returned};

use crate::lexed::Lexed;
use lexer::Limits;
use parse::ReadAs;
use text::refusal::Refused;
use text::{RECORD_WORDS, TOKEN_WORDS};

mod arrays;
pub mod entry;
mod lean;
mod lexed;
pub mod loading;

// What is handed over of an accepted draft: how many tokens and records it has.
#[derive(Clone, Copy, PartialEq, Eq, Debug, Default)]
pub struct Counts {
    pub tokens: usize,
    pub records: usize,
}

// Reads one function: three words a token, seven words a record, zeros behind them; on a refusal every word of both buffers is 0.
pub fn read(draft: &[u8], tokens: &mut [u32], tree: &mut [u32]) -> Result<Counts, Refused>
    ensures answer { meant result ≡ answer single_function large_limits draft.now (length tokens.old) (length tree.old) }
    ensures values { returned result ≡ values (answer single_function large_limits draft.now (length tokens.old) (length tree.old)) }
    ensures tokens { tokens.new ≡ token_buffer single_function large_limits draft.now (length tokens.old) (length tree.old) }
    ensures tree { tree.new ≡ tree_buffer single_function large_limits draft.now (length tokens.old) (length tree.old) }
    ensures laws { Promised single_function large_limits draft.now (length tokens.old) (length tree.old) (meant result) tokens.new tree.new }
{
    read_as(draft, tokens, tree, ReadAs::Function)
}

// Reads a file, functions and type items: the same, and the first record is that of the whole file. It is an entry of its own, as document 02 has it (order 3):
// "The single-function entry answers as before". `read_as` does the work of both.
pub fn read_file(draft: &[u8], tokens: &mut [u32], tree: &mut [u32]) -> Result<Counts, Refused>
    ensures answer { meant result ≡ answer whole_file large_limits draft.now (length tokens.old) (length tree.old) }
    ensures values { returned result ≡ values (answer whole_file large_limits draft.now (length tokens.old) (length tree.old)) }
    ensures tokens { tokens.new ≡ token_buffer whole_file large_limits draft.now (length tokens.old) (length tree.old) }
    ensures tree { tree.new ≡ tree_buffer whole_file large_limits draft.now (length tokens.old) (length tree.old) }
    ensures laws { Promised whole_file large_limits draft.now (length tokens.old) (length tree.old) (meant result) tokens.new tree.new }
{
    read_as(draft, tokens, tree, ReadAs::File)
}

// Reads one function and keeps one word a token, its start (document 02, order 10): the same answer, and the starts in order in the buffer for them, zeros behind
// them. The parser finds kind and end of each token again in the draft. As many words as the draft has bytes are enough.
pub fn read_lean(draft: &[u8], starts: &mut [u32], tree: &mut [u32]) -> Result<Counts, Refused>
    ensures answer { meant result ≡ lean_answer single_function large_limits draft.now (length starts.old) (length tree.old) }
    ensures values { returned result ≡ values (lean_answer single_function large_limits draft.now (length starts.old) (length tree.old)) }
    ensures starts { starts.new ≡ start_buffer single_function large_limits draft.now (length starts.old) (length tree.old) }
    ensures tree { tree.new ≡ lean_tree single_function large_limits draft.now (length starts.old) (length tree.old) }
    ensures laws { PromisedLean single_function large_limits draft.now (length starts.old) (length tree.old) (meant result) starts.new tree.new }
{
    lean::read_as(draft, starts, tree, ReadAs::Function)
}

// Reads a file, likewise.
pub fn read_lean_file(draft: &[u8], starts: &mut [u32], tree: &mut [u32]) -> Result<Counts, Refused>
    ensures answer { meant result ≡ lean_answer whole_file large_limits draft.now (length starts.old) (length tree.old) }
    ensures values { returned result ≡ values (lean_answer whole_file large_limits draft.now (length starts.old) (length tree.old)) }
    ensures starts { starts.new ≡ start_buffer whole_file large_limits draft.now (length starts.old) (length tree.old) }
    ensures tree { tree.new ≡ lean_tree whole_file large_limits draft.now (length starts.old) (length tree.old) }
    ensures laws { PromisedLean whole_file large_limits draft.now (length starts.old) (length tree.old) (meant result) starts.new tree.new }
{
    lean::read_as(draft, starts, tree, ReadAs::File)
}

// Reads a draft as a file, or as one function; what is behind the words of both buffers is cleared, on a refusal every word. The buffers stay two parameters,
// as the public entries have them: with a struct of both, each function would have to say that it keeps the borrow of each.
fn read_as(
    draft: &[u8],
    tokens: &mut [u32],
    tree: &mut [u32],
    what: ReadAs,
) -> Result<Counts, Refused>
    ensures answer { meant result ≡ answer (entry_of what) large_limits draft.now (length tokens.old) (length tree.old) }
    ensures tokens { tokens.new ≡ token_buffer (entry_of what) large_limits draft.now (length tokens.old) (length tree.old) }
    ensures tree { tree.new ≡ tree_buffer (entry_of what) large_limits draft.now (length tokens.old) (length tree.old) }
{
    let reading = read_front(draft, tokens, tree, what);
    let counts = reading.unwrap_or_default();
    text::clear_from(tokens, TOKEN_WORDS * counts.tokens);
    text::clear_from(tree, RECORD_WORDS * counts.records);
    reading
}

// The same, where the words behind those of the tokens and of the records stay as they are.
fn read_front(
    draft: &[u8],
    tokens: &mut [u32],
    tree: &mut [u32],
    what: ReadAs,
) -> Result<Counts, Refused>
    ensures answer { meant result ≡ answer (entry_of what) large_limits draft.now (length tokens.old) (length tree.old) }
    ensures tokens { Held (meant result) (token_words (tokens_of (lexemes draft.now))) tokens.old tokens.new }
    ensures tree { Held (meant result) (up_words (records_read (entry_of what) large_limits draft.now (length tokens.old))) tree.old tree.new }
{
    let count = lexer::lex_front(draft, tokens, Limits::Large)?;
    let lexed = Lexed {
        draft,
        words: tokens,
        count,
        limits: Limits::Large,
    };
    parsed(&lexed, tree, what)
}

// The answer of the parser over the tokens that were lexed, its records given their ways up.
fn parsed(lexed: &Lexed, tree: &mut [u32], what: ReadAs) -> Result<Counts, Refused>
    ensures answer { meant result ≡ answer (entry_of what) (limits_for lexed.now.limits) lexed.now.draft.now (length lexed.now.words.now) (length tree.old) }
    ensures tree { Held (meant result) (up_words (records_read (entry_of what) (limits_for lexed.now.limits) lexed.now.draft.now (length lexed.now.words.now))) tree.old tree.new }
{
    let records = parse::parse_front(lexed.draft, lexed.words, lexed.count, tree, what)?;
    up::way_up(tree, records);
    Ok(Counts {
        tokens: lexed.count,
        records,
    })
}
