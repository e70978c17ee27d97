// The entries for C: the listing of a draft within the small limits or the large ones, there with three words a token or one, and the records of a listing.
// c/togmelic.h declares them.
#![tactic(auto)]

ghost use Rattle.std.specs.Prelude.{◌≡◌, [], ◌∷◌, ◌↔◌, ◌<◌, length};
ghost use Rattle.lexer.specs.Limits.{large_limits};
ghost use Rattle.lines.specs.Lines.{widths, lines_of};
ghost use Rattle.lines.specs.Written.{used, padded};
ghost use Rattle.load.specs.Load.{load_of, words_of};
ghost use Rattle.load.specs.Promised.{Loads};
ghost use Rattle.grammar.specs.Entry.{whole_file};
ghost use Rattle.grammar.specs.Answers.Answer.{answer, token_buffer, tree_buffer};
ghost use Rattle.grammar.specs.Answers.Promised.{Promised};
ghost use Rattle.grammar.specs.Answers.Lean.{lean_answer, start_buffer, lean_tree, lean_listing, PromisedLean, ListedAsOther};
ghost use Rattle.grammar.specs.Answers.Lines.{listing};
ghost use Rattle.reader.specs.Listed.{listing_of, rows_listed, used_of, bytes_of};
ghost use Rattle.reader.specs.Loading.{records_loaded, refusal_loaded, Refusing};

use reader::loading::LoadRefusal;

// Lists a draft within the small limits: its lines of 41 bytes, zeros behind them; 0 and zeros alone if the buffer is too short for them: C has no `Option`.
#[unsafe(no_mangle)]
pub extern "C" fn togmelic_list(draft: &[u8], out: &mut [u8]) -> usize
    ensures used { result ≡ used_of draft.now (length out.old) }
    ensures bytes { out.new ≡ bytes_of draft.now (length out.old) }
    ensures nothing { (result ≡ 0) ↔ (length out.old < length (listing_of draft.now)) }
    ensures short { listing_of draft.now ≡ lines_of widths (rows_listed draft.now) }
{
    reader::entry::list_draft(draft, out)
}

// Lists a draft within the large limits: the same, with lines of 41 bytes or of 49, by way of lent buffers, in which the tokens and the tree stand afterwards.
#[unsafe(no_mangle)]
pub extern "C" fn togmelic_list_large(
    draft: &[u8],
    tokens: &mut [u32],
    tree: &mut [u32],
    out: &mut [u8],
) -> usize
    ensures used { result ≡ used (listing whole_file large_limits draft.now (length tokens.old) (length tree.old)) (length out.old) }
    ensures bytes { out.new ≡ padded (listing whole_file large_limits draft.now (length tokens.old) (length tree.old)) (length out.old) }
    ensures tokens { tokens.new ≡ token_buffer whole_file large_limits draft.now (length tokens.old) (length tree.old) }
    ensures tree { tree.new ≡ tree_buffer whole_file large_limits draft.now (length tokens.old) (length tree.old) }
    ensures laws { Promised whole_file large_limits draft.now (length tokens.old) (length tree.old) (answer whole_file large_limits draft.now (length tokens.old) (length tree.old)) tokens.new tree.new }
    ensures nothing { (result ≡ 0) ↔ (length out.old < length (listing whole_file large_limits draft.now (length tokens.old) (length tree.old))) }
{
    reader::entry::list_large(draft, tokens, tree, out)
}

// The same with one word a token, its start: as many words as the draft has bytes are enough for the starts.
#[unsafe(no_mangle)]
pub extern "C" fn togmelic_list_lean(
    draft: &[u8],
    starts: &mut [u32],
    tree: &mut [u32],
    out: &mut [u8],
) -> usize
    ensures used { result ≡ used (lean_listing whole_file large_limits draft.now (length starts.old) (length tree.old)) (length out.old) }
    ensures bytes { out.new ≡ padded (lean_listing whole_file large_limits draft.now (length starts.old) (length tree.old)) (length out.old) }
    ensures starts { starts.new ≡ start_buffer whole_file large_limits draft.now (length starts.old) (length tree.old) }
    ensures tree { tree.new ≡ lean_tree whole_file large_limits draft.now (length starts.old) (length tree.old) }
    ensures laws { PromisedLean whole_file large_limits draft.now (length starts.old) (length tree.old) (lean_answer whole_file large_limits draft.now (length starts.old) (length tree.old)) starts.new tree.new }
    ensures as_other { ListedAsOther whole_file large_limits draft.now (length starts.old) (length tree.old) (length out.old) result out.new }
    ensures nothing { (result ≡ 0) ↔ (length out.old < length (lean_listing whole_file large_limits draft.now (length starts.old) (length tree.old))) }
{
    reader::entry::list_lean(draft, starts, tree, out)
}

// Loads a listing: the number of records, seven words each, zeros behind them, and a refusal of 0 at line 0. Or 0, every word 0, and the refusal: C has no
// `Result`.
#[unsafe(no_mangle)]
pub extern "C" fn togmelic_load(
    listing: &[u8],
    words: &mut [u32],
    refusal: &mut LoadRefusal,
) -> usize
    ensures records { result ≡ records_loaded listing.now (length words.old) }
    ensures words { words.new ≡ words_of listing.now (length words.old) }
    ensures refusal { (refusal.new.number ∷ refusal.new.line ∷ []) ≡ refusal_loaded listing.now (length words.old) }
    ensures nothing { (result ≡ 0) ↔ Refusing (load_of listing.now (length words.old)) }
    ensures laws { Loads listing.now (length words.old) (load_of listing.now (length words.old)) words.new }
{
    reader::loading::load_listing(listing, words, refusal)
}
