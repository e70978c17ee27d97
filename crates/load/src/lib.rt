// The reader of listings: from the lines to the records of one function or one program, or one refusal.
#![tactic(auto)]

ghost use Rattle.std.specs.Prelude.{◌≡◌, length};
ghost use Rattle.text.specs.Answers.{values};
ghost use Rattle.text.specs.Refusals.{refused_by};
ghost use Rattle.load.specs.Checks.Listed.{its_lines};
ghost use Rattle.load.specs.Load.{is_right, load_as, load_of, words_of};
ghost use Rattle.load.specs.Form.{form_of};
ghost use Rattle.load.specs.Meant.{meant, returned, not_loaded, as_form};
ghost use Rattle.load.specs.Promised.{Loads};

use crate::form::{Form, Listing};
use lines::{LONG_DIGITS, PLACE_DIGITS};
use text::RECORD_WORDS;
use text::refusal::{Refusal, Refused};

mod begin;
mod check;
mod cue;
mod digits;
mod form;
mod line;
mod record;
mod table;
mod walk;
mod ways;

// Why a listing is not loaded: a line is not in form, the first of them counted from 1, or the first has 49 bytes and none needs them; the lines form no whole;
// the records have no room.
#[derive(Clone, Copy, PartialEq, Eq, Debug)]
pub enum NotLoaded {
    BadLine(usize),
    NotWhole,
    NoRoom,
}

impl From<NotLoaded> for Refused {
    ghost from_gives = { λ e r. refused_by r ≡ not_loaded e };

    fn from(e: NotLoaded) -> Refused {
        match e {
            NotLoaded::BadLine(line) => Refused {
                refusal: Refusal::BadLine,
                place: line,
            },
            NotLoaded::NotWhole => Refused {
                refusal: Refusal::NotWhole,
                place: 0,
            },
            NotLoaded::NoRoom => Refused {
                refusal: Refusal::NoLoadRoom,
                place: 0,
            },
        }
    }
}

// Whether the lines of a listing are those of a whole function or program, each with its way up where the form has that.
fn is_right<const N: usize>(listing: &Listing<N>) -> bool
    ensures { result ≡ is_right (as_form listing.now.form) (its_lines listing.now) }
{
    if !check::is_whole(listing) {
        return false;
    }
    match listing.form {
        Form::Older => true,
        _ => ways::right::<N>(listing.text),
    }
}

// The answer to a listing with a buffer of so many words. It is known before a word is written.
fn answer<const N: usize>(listing: &Listing<N>, room: usize) -> Result<usize, NotLoaded>
    ensures { meant result ≡ load_as (as_form listing.now.form) listing.now.text.now room }
{
    if let Some(line) = listing.form.bad_line(listing.text) {
        return Err(NotLoaded::BadLine(line));
    }
    if !listing.form.needed(listing.text) {
        return Err(NotLoaded::BadLine(1));
    }
    if !is_right(listing) {
        return Err(NotLoaded::NotWhole);
    }
    let n = listing.count();
    if n > room / RECORD_WORDS {
        return Err(NotLoaded::NoRoom);
    }
    Ok(n)
}

// Loads a listing of which the form is known. No word is written twice, and the way up is worked out, also where the lines give it.
fn load_lines<const N: usize>(listing: &Listing<N>, tree: &mut [u32]) -> Result<usize, NotLoaded>
    requires { as_form listing.now.form ≡ form_of listing.now.text.now }
    ensures answer { meant result ≡ load_of listing.now.text.now (length tree.old) }
    ensures words { tree.new ≡ words_of listing.now.text.now (length tree.old) }
{
    let loaded = answer(listing, tree.len());
    let n = loaded.unwrap_or(0);
    listing.write(n, tree);
    up::way_up(tree, n);
    text::clear_from(tree, RECORD_WORDS * n);
    loaded
}

// Loads a listing: `RECORD_WORDS` words a record, zeros behind them; on a refusal every word is 0. There is code of its own for six digits a place.
pub fn load(text: &[u8], tree: &mut [u32]) -> Result<usize, NotLoaded>
    ensures answer { meant result ≡ load_of text.now (length tree.old) }
    ensures values { returned result ≡ values (load_of text.now (length tree.old)) }
    ensures words { tree.new ≡ words_of text.now (length tree.old) }
    ensures laws { Loads text.now (length tree.old) (meant result) tree.new }
{
    let form = Form::of(text);
    match form {
        Form::Longer => load_lines(&Listing::<LONG_DIGITS> { form, text }, tree),
        _ => load_lines(&Listing::<PLACE_DIGITS> { form, text }, tree),
    }
}
