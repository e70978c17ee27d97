// The forms of a listing's lines.
ghost use Rattle.std.specs.Prelude.{◌≡◌, ◌/◌, length};
ghost use Rattle.lines.specs.Form.{wide};
ghost use Rattle.lines.specs.Lines.{long_widths, is_long};
ghost use Rattle.load.specs.Form.{widths_of, digits_of, form_of, needed};
ghost use Rattle.load.specs.Meant.{as_form};
ghost use Rattle.load.specs.Listing.Read.{bad_line, first_bad, lines_read};

use crate::line;
use lines::{LINE_BYTES, LONG_BYTES, LONG_WIDTHS, SIX_BYTES, SIX_FIELDS, WIDTHS};

// A line of the older form has six fields; one of the newer ends with the way up; one of the longer does too, and has six digits for each place.
#[derive(Clone, Copy)]
pub(crate) enum Form {
    Older,
    Newer,
    Longer,
}

impl Form {
    // The form of a listing is that of its first line; what begins with none is held against the newer.
    pub(crate) fn of(text: &[u8]) -> Form
        ensures { as_form result ≡ form_of text.now }
    {
        if line::begins(&WIDTHS[..SIX_FIELDS], SIX_BYTES, text) {
            return Form::Older;
        }
        if line::begins(&LONG_WIDTHS, LONG_BYTES, text) {
            return Form::Longer;
        }
        Form::Newer
    }

    // How many bytes a line of the form has.
    pub(crate) fn bytes(self) -> usize
        ensures { result ≡ wide (widths_of (as_form self)) }
    {
        match self {
            Form::Older => SIX_BYTES,
            Form::Newer => LINE_BYTES,
            Form::Longer => LONG_BYTES,
        }
    }

    // The number, from 1, of the first line of a text that is not of the form, if one is not. Each form has a call of its own, where its widths are known:
    // by one call with the widths of the form loading 1,167 lines of 41 bytes took 26 percent more instructions.
    pub(crate) fn bad_line(self, text: &[u8]) -> Option<usize>
        ensures { result ≡ first_bad (bad_line (widths_of (as_form self)) text.now) }
    {
        match self {
            Form::Older => line::bad_line(&WIDTHS[..SIX_FIELDS], SIX_BYTES, text),
            Form::Newer => line::bad_line(&WIDTHS, LINE_BYTES, text),
            Form::Longer => line::bad_line(&LONG_WIDTHS, LONG_BYTES, text),
        }
    }

    // Whether the lines of a text need this form: those of 49 bytes are for numbers that four digits do not hold.
    pub(crate) fn needed(self, text: &[u8]) -> bool
        ensures { result ≡ needed (as_form self) (lines_read (widths_of (as_form self)) text.now) }
    {
        match self {
            Form::Older => true,
            Form::Newer => true,
            Form::Longer => is_long(text),
        }
    }
}

// A text with the form that its lines are held against, in which a place has N digits. N stands in the type, so that the walk over the records is made for each
// N, and asks no line for its form: with one walk for all loading 1,167 lines of 41 bytes took 10 percent more instructions.
#[derive(Clone, Copy)]
pub(crate) struct Listing<'a, const N: usize> {
    pub(crate) form: Form,
    pub(crate) text: &'a [u8],
    ghost digits: { digits_of (as_form form) ≡ N },
}

// Whether some of these lines of 49 bytes has a number that four digits do not hold; the first that has one ends it.
fn is_long(text: &[u8]) -> bool
    ensures { result ≡ is_long (lines_read long_widths text.now) }
{
    let (lines, _) = text.as_chunks::<LONG_BYTES>();
    lines.iter().any(|line| lines::needs_more(&line::values(&LONG_WIDTHS, line)))
}
