// The reading that keeps one word a token, its start (document 02, order 10): the same lexer and the same parser, which finds each token again.
ghost use Rattle.std.specs.Prelude.{◌≡◌, length};
ghost use Rattle.text.specs.Front.{Held};
ghost use Rattle.lexer.specs.Lexemes.{lexemes};
ghost use Rattle.lexer.specs.Limits.{large_limits, tokens_of};
ghost use Rattle.lexer.specs.Starts.{start_words};
ghost use Rattle.up.specs.Ways.{up_words};
ghost use Rattle.parse.specs.Entry.{entry_of};
ghost use Rattle.grammar.specs.Answers.Lean.{lean_answer, start_buffer, lean_records, lean_tree};
ghost use Rattle.reader.specs.Read.{meant};

use crate::Counts;
use lexer::Limits;
use parse::ReadAs;
use text::RECORD_WORDS;
use text::refusal::Refused;

// Reads a draft as a file, or as one function; what is behind the starts and the tree is cleared, on a refusal every word.
pub(crate) fn read_as(
    draft: &[u8],
    starts: &mut [u32],
    tree: &mut [u32],
    what: ReadAs,
) -> Result<Counts, Refused>
    ensures answer { meant result ≡ lean_answer (entry_of what) large_limits draft.now (length starts.old) (length tree.old) }
    ensures starts { starts.new ≡ start_buffer (entry_of what) large_limits draft.now (length starts.old) (length tree.old) }
    ensures tree { tree.new ≡ lean_tree (entry_of what) large_limits draft.now (length starts.old) (length tree.old) }
{
    let reading = read_front(draft, starts, tree, what);
    let counts = reading.unwrap_or_default();
    text::clear_from(starts, counts.tokens);
    text::clear_from(tree, RECORD_WORDS * counts.records);
    reading
}

// The same, where the words behind the starts and the tree stay as they are.
fn read_front(
    draft: &[u8],
    starts: &mut [u32],
    tree: &mut [u32],
    what: ReadAs,
) -> Result<Counts, Refused>
    ensures answer { meant result ≡ lean_answer (entry_of what) large_limits draft.now (length starts.old) (length tree.old) }
    ensures starts { Held (meant result) (start_words (tokens_of (lexemes draft.now))) starts.old starts.new }
    ensures tree { Held (meant result) (up_words (lean_records (entry_of what) large_limits draft.now (length starts.old))) tree.old tree.new }
{
    let tokens = lexer::lex_starts(draft, starts, Limits::Large)?;
    let records = parse::parse_starts(draft, starts, tokens, tree, what)?;
    up::way_up(tree, records);
    Ok(Counts { tokens, records })
}
