// The parser of a draft: from its tokens to its records, by recursive descent. One token of look-ahead decides; nothing is tried twice.
#![tactic(auto)]

ghost use Rattle.std.specs.Prelude.{◌≡◌, length, take};
ghost use Rattle.text.specs.Front.{Held};
ghost use Rattle.lexer.specs.Limits.{large_limits};
ghost use Rattle.lexer.specs.Buffer.{tokens_in};
ghost use Rattle.lexer.specs.Starts.{tokens_at};
ghost use Rattle.own.specs.Words.{rec_words};
ghost use Rattle.grammar.specs.Answers.Answer.{records_in};
ghost use Rattle.parse.specs.Entry.{entry_of, meant, reading_of, answer_of, starts_answer, tree_of};

mod arms;
mod choice;
mod entry;
mod expr;
mod fault;
mod file;
mod heads;
mod names;
mod pattern;
mod program;
mod token;
mod tree;
mod types;

use fault::Fault;
use lexer::chars::Classes;
use text::RECORD_WORDS;
use text::refusal::{Refusal, Refused};

// Where the parser stands: the number of the next token with its class, start and end; the end of the token before it; how many records
// there are so far; and the earliest refusal of a shape, if there is one.
// That it is at its token is a clause (`Ready`) and no ghost field: it fails while a record is reserved and no token passed (`Near`), and speaks of the
// text. A cursor of source and state with that field was tried on `names::decimal`, and is proved; but each function takes it apart, each call makes
// one, and what is promised speaks of `here.entry.source` and `here.entry.st`: no plainer than the clause.
#[derive(Clone, Copy, PartialEq, Eq, Debug)]
struct State {
    at: usize,
    class: u32,
    start: u32,
    stop: u32,
    end: u32,
    out: u32,
    fault: Option<Fault>,
}

// What a step of the parser answers: the next state, with two numbers that some steps have besides; or the token where it is stuck.
// Document 01 names this form: an enum whose answers are taken apart by `let .. else`. It is one type for all steps, whatever their numbers say, so that a
// refusal is passed up whole (`let Step::Next(..) = inner else { return inner; };`); a `Step<T>` would be taken apart and made anew wherever `T` changes.
#[derive(Clone, Copy, PartialEq, Eq, Debug)]
enum Step {
    Next(State, u32, u32),
    Refused(usize),
}

// What a draft is read as: one function, or a file of functions and type items.
#[derive(Clone, Copy, PartialEq, Eq, Debug)]
pub enum ReadAs {
    Function,
    File,
}

// Writes the records of a draft that has so many tokens and says how many they are: `RECORD_WORDS` words each, and zeros behind them; on a refusal every word
// is 0. The first record of a file is that of the whole file. The last word of each record, its way up, is 0 too: crate `up` fills it.
// Refusal 6 speaks of the number and of the buffer's words (`too_many`), so both are asked for.
pub fn parse(
    draft: &[u8],
    tokens: &[u32],
    count: usize,
    tree: &mut [u32],
    what: ReadAs,
) -> Result<usize, Refused>
    ensures answer { meant count result ≡ answer_of (entry_of what) large_limits.tokens draft.now tokens.now count (length tree.old) }
    ensures tree { tree.new ≡ tree_of (entry_of what) large_limits.tokens draft.now tokens.now count (length tree.old) }
{
    let answer = parse_front(draft, tokens, count, tree, what);
    let used = RECORD_WORDS * answer.unwrap_or(0);
    text::clear_from(tree, used);
    answer
}

// As `parse`, for a caller that needs no zeros: the words behind the records stay; on a refusal the words may be anything.
pub fn parse_front(
    draft: &[u8],
    tokens: &[u32],
    count: usize,
    tree: &mut [u32],
    what: ReadAs,
) -> Result<usize, Refused>
    ensures answer { meant count result ≡ answer_of (entry_of what) large_limits.tokens draft.now tokens.now count (length tree.old) }
    ensures held { Held (meant count result) (rec_words (records_in (reading_of (entry_of what) draft.now (tokens_in count tokens.now)))) tree.old tree.new }
{
    // The place is 0, here and of refusal 1: the first token too many may not be in the buffer, and the reader comes to neither (docs/DECISIONS.md, "Parser").
    if entry::too_many(lexer::LARGE_TOKENS, count, tokens.len()) {
        return Err(Refused {
            refusal: Refusal::TooMany,
            place: 0,
        });
    }
    let source = entry::source(draft, tokens, count);
    entry::records(&source, tree, what)
}

// As `parse_front`, for tokens of which there are the starts alone, one word a token: kind and end are found again from the draft.
pub fn parse_starts(
    draft: &[u8],
    starts: &[u32],
    count: usize,
    tree: &mut [u32],
    what: ReadAs,
) -> Result<usize, Refused>
    ensures answer { meant count result ≡ starts_answer (entry_of what) large_limits.tokens draft.now starts.now count (length tree.old) }
    ensures held { Held (meant count result) (rec_words (records_in (reading_of (entry_of what) draft.now (tokens_at draft.now (take count starts.now))))) tree.old tree.new }
{
    if entry::too_many_starts(lexer::LARGE_TOKENS, count, starts.len()) {
        return Err(Refused {
            refusal: Refusal::TooMany,
            place: 0,
        });
    }
    // The table is held once here, and lent to every look at a token.
    let classes = Classes::new();
    let found = entry::lean_source(draft, &classes, starts, count);
    entry::records(&found, tree, what)
}
