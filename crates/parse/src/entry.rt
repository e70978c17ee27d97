// From the first token to the answer: the parser's refusals in their order.
ghost use Rattle.std.specs.Prelude.{◌≡◌, ◌*◌, ◌≤◌, false, length, take};
ghost use Rattle.text.specs.Front.{Held};
ghost use Rattle.text.specs.Widths.{tok_wide};
ghost use Rattle.lexer.specs.Buffer.{tokens_in};
ghost use Rattle.lexer.specs.Starts.{tokens_at};
ghost use Rattle.own.specs.Words.{rec_words};
ghost use Rattle.grammar.specs.Answers.Answer.{records_in};
ghost use Rattle.parse.specs.Contract.{text, countable, count_of, source_tokens, Ready};
ghost use Rattle.parse.specs.Entry.{entry_of, too_many, too_many_starts, too_long, WholeRead, Starts, meant, reading_of, answer_for, place_in, ended, judged};

use crate::token::Source;
use crate::{ReadAs, State, Step, file, program};
use lexer::chars::Classes;
use text::refusal::{Refusal, Refused};
use text::{RECORD_WORDS, TOKEN_WORDS};

// Whether there are more tokens than there may be, or than so many words hold.
#[tactic(auto, unfolding(crate::specs::Entry::too_many))]
pub(crate) fn too_many(most: usize, count: usize, words: usize) -> bool
    ensures { result ≡ too_many most count words }
{
    most < count || words / TOKEN_WORDS < count
}

// Whether there are more than there may be, or than so many words for their starts.
#[tactic(auto, unfolding(crate::specs::Entry::too_many_starts))]
pub(crate) fn too_many_starts(most: usize, count: usize, words: usize) -> bool
    ensures { result ≡ too_many_starts most count words }
{
    most < count || words < count
}

// The draft with so many tokens: their rows are made here once, since a look at a token that made them would divide each time.
pub(crate) fn source<'a>(draft: &'a [u8], tokens: &'a [u32], count: usize) -> Source<'a>
    requires { tok_wide * count ≤ length tokens.now }
    ensures draft { result.draft.now ≡ draft.now }
    ensures tokens { source_tokens result ≡ tokens_in count tokens.now }
    ensures count { count_of result ≡ count }
{
    let (rows, _) = tokens.as_chunks::<TOKEN_WORDS>();
    Source {
        draft,
        rows: &rows[..count],
        starts: &[],
        classes: None,
        count,
    }
}

// The draft with so many tokens that are found again at their starts.
pub(crate) fn lean_source<'a>(
    draft: &'a [u8],
    classes: &'a Classes,
    starts: &'a [u32],
    count: usize,
) -> Source<'a>
    requires { count ≤ length starts.now }
    ensures draft { result.draft.now ≡ draft.now }
    ensures tokens { source_tokens result ≡ tokens_at draft.now (take count starts.now) }
    ensures count { count_of result ≡ count }
{
    Source {
        draft,
        rows: &[],
        starts: &starts[..count],
        classes: Some(classes),
        count,
    }
}

// The state at the first token.
pub(crate) fn start(source: &Source) -> State
    ensures { Starts (text source.now) result }
{
    let t = source.token(0);
    State {
        at: 0,
        class: t.class,
        start: t.start,
        stop: t.stop,
        end: 0,
        out: 0,
        fault: None,
    }
}

// Where the token of this number starts, or the length at the end.
fn place(source: &Source, at: usize) -> usize
    ensures { result ≡ place_in source.now at }
{
    if at < source.count() {
        let t = source.token(at);
        return t.start as usize;
    }
    source.draft.len()
}

// The answer of the last state, with so many words for the records.
#[tactic(auto, unfolding(crate::specs::Entry::ended))]
fn end(source: &Source, room: usize, z: State) -> Result<usize, Refused>
    ensures { result ≡ ended source.now room z }
{
    if z.at < source.count() {
        return Err(Refused {
            refusal: Refusal::Misshapen,
            place: place(source, z.at),
        });
    }
    if let Some(fault) = z.fault {
        return Err(fault.into());
    }
    let records = z.out as usize;
    if room < RECORD_WORDS * records {
        return Err(Refused {
            refusal: Refusal::NoRoom,
            place: 0,
        });
    }
    Ok(records)
}

// The answer of a step, likewise.
pub(crate) fn judge(source: &Source, room: usize, step: Step) -> Result<usize, Refused>
    ensures { result ≡ judged source.now room step }
{
    match step {
        Step::Next(z, _, _) => end(source, room, z),
        Step::Refused(at) => Err(Refused {
            refusal: Refusal::Misshapen,
            place: place(source, at),
        }),
    }
}

// Whether a file is longer than its first record can say.
#[tactic(auto, unfolding(crate::specs::Entry::too_long))]
pub(crate) fn too_long(what: ReadAs, bytes: usize) -> bool
    ensures { result ≡ too_long (entry_of what) bytes }
{
    what == ReadAs::File && u32::try_from(bytes).is_err()
}

// Reads a whole draft: a file, or one function. `ReadAs` is part of what `parse` promises (`entry_of`), and the refusals differ by it.
#[tactic(auto, using(crate::proofs::entry::Ends::at_file, crate::proofs::entry::Ends::at_function, crate::proofs::entry::Ends::short_file))]
pub(crate) fn whole(source: &Source, tree: &mut [u32], st: State, what: ReadAs) -> Step
    requires ready { Ready (text source.now) st }
    requires draft_value { too_long (entry_of what) (length source.now.draft.now) ≡ false }
    ensures { WholeRead (text source.now) (length source.now.draft.now) st tree.old tree.new result (entry_of what) }
{
    match what {
        ReadAs::File => file::file(source, tree, st),
        ReadAs::Function => program::function(source, tree, st),
    }
}

// Writes the records of a draft with these tokens and says how many they are; the words behind them stay, and on a refusal the words may be anything.
pub(crate) fn records(source: &Source, tree: &mut [u32], what: ReadAs) -> Result<usize, Refused>
    requires { count_of source.now ≤ countable }
    ensures answer { meant (count_of source.now) result ≡ answer_for (entry_of what) source.now.draft.now (source_tokens source.now) (length tree.old) }
    ensures held { Held (meant (count_of source.now) result) (rec_words (records_in (reading_of (entry_of what) source.now.draft.now (source_tokens source.now)))) tree.old tree.new }
{
    if too_long(what, source.draft.len()) {
        return Err(Refused {
            refusal: Refusal::TooLong,
            place: 0,
        });
    }
    let st = start(source);
    let step = whole(source, tree, st, what);
    judge(source, tree.len(), step)
}
