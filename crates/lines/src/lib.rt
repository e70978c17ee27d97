// The lines of a listing: from the words of records to their lines in a buffer of bytes.
#![tactic(auto)]

ghost use Rattle.std.specs.Prelude.{◌≡◌, ◌*◌, ◌/◌, length};
ghost use Rattle.lines.specs.Form.{wide};
ghost use Rattle.up.specs.Ways.{rows_in};
ghost use Rattle.lines.specs.Lines.{with_way, widths, lines_of, needs_more, is_long};
ghost use Rattle.lines.specs.Written.{used, padded, held, lines_in};

mod digits;
mod pairs;
mod write;

use text::RECORD_WORDS;
pub use write::after;

// The digits of a kind, of a start, an end, a size or a way up, and of half a 64-bit number.
const KIND_DIGITS: usize = 2;

pub const PLACE_DIGITS: usize = 4;

const HALF_DIGITS: usize = 8;

// The digits of a start, an end, a size or a way up where four do not hold all of a listing.
pub const LONG_DIGITS: usize = 6;

// The form of a line, by its fields: kind, start, end, low, high, size and the way up.
pub const FIELDS: usize = 7;

pub const WIDTHS: [usize; FIELDS] = [
    KIND_DIGITS,
    PLACE_DIGITS,
    PLACE_DIGITS,
    HALF_DIGITS,
    HALF_DIGITS,
    PLACE_DIGITS,
    PLACE_DIGITS,
];

pub const LONG_WIDTHS: [usize; FIELDS] = [
    KIND_DIGITS,
    LONG_DIGITS,
    LONG_DIGITS,
    HALF_DIGITS,
    HALF_DIGITS,
    LONG_DIGITS,
    LONG_DIGITS,
];

// Of these are places, and halves of a 64-bit number:
const PLACE_FIELDS: usize = 4;

const HALF_FIELDS: usize = 2;

// How many bytes a line has: all digits, and one byte after each field.
pub const LINE_BYTES: usize = KIND_DIGITS
    + PLACE_FIELDS * PLACE_DIGITS
    + HALF_FIELDS * HALF_DIGITS
    + FIELDS;

pub const LONG_BYTES: usize = KIND_DIGITS
    + PLACE_FIELDS * LONG_DIGITS
    + HALF_FIELDS * HALF_DIGITS
    + FIELDS;

// The older form has all fields but the last, and so many bytes a line.
pub const SIX_FIELDS: usize = FIELDS - 1;

pub const SIX_BYTES: usize = LINE_BYTES - PLACE_DIGITS - 1;

// How many bits a digit has.
const DIGIT_BITS: usize = 4;

// How many places four digits tell apart.
const PLACES: u32 = 1 << (DIGIT_BITS * PLACE_DIGITS);

// Whether a start, an end, a size or a way up of a record needs more than four digits.
pub fn needs_more(words: &[u32; RECORD_WORDS]) -> bool
    ensures { result ≡ needs_more words.now }
{
    let [_, start, end, _, _, size, way] = *words;
    start >= PLACES || end >= PLACES || size >= PLACES || way >= PLACES
}

// Whether that is so of any record: then the lines of all have the longer form.
fn is_long(records: &[[u32; RECORD_WORDS]]) -> bool
    ensures { result ≡ is_long records.now }
{
    records.iter().any(needs_more)
}

// Lists all of some records, in N digits for each place, which makes lines of so many bytes.
fn list_as<const N: usize, const BYTES: usize>(
    records: &[[u32; RECORD_WORDS]],
    out: &mut [u8],
) -> usize
    requires even { 2 * (N / 2) ≡ N }
    requires wide { BYTES ≡ wide (with_way N) }
    ensures used { result ≡ used (lines_of (with_way N) records.now) (length out.old) }
    ensures bytes { out.new ≡ padded (lines_of (with_way N) records.now) (length out.old) }
{
    if records.len() > out.len() / BYTES {
        out.fill(0);
        return 0;
    }
    let end = write::lines::<N>(out, records);
    out[end..].fill(0);
    end
}

// The first records of a tree buffer, or all that it holds if those are fewer. A lent buffer may be longer than its tree, so the number of records stands
// beside it.
fn listed(tree: &[u32], records: usize) -> &[[u32; RECORD_WORDS]]
    ensures { result.now ≡ rows_in (held tree.now records) tree.now }
{
    let (held, _) = tree.as_chunks::<RECORD_WORDS>();
    &held[..records.min(held.len())]
}

// Lists the first records of a tree buffer: their lines, and zeros behind them; 0 and zeros alone if the lines do not fit. What is behind the lines is cleared
// once, after them, so that no byte is written twice.
// The form of the lines is known once all records were looked at; each form has code of its own, in which its widths are known.
// 0 as the interface for C has it, whose entries hand it on.
pub fn list(tree: &[u32], records: usize, out: &mut [u8]) -> usize
    ensures used { result ≡ used (lines_in tree.now records) (length out.old) }
    ensures bytes { out.new ≡ padded (lines_in tree.now records) (length out.old) }
{
    let records = listed(tree, records);
    if is_long(records) {
        list_as::<LONG_DIGITS, LONG_BYTES>(records, out)
    } else {
        list_as::<PLACE_DIGITS, LINE_BYTES>(records, out)
    }
}

// The same in lines of 41 bytes, for who knows that four digits hold all places: no record is looked at before its line is written. (Of a longer number a line
// has the last four digits.)
pub fn list_short(tree: &[u32], records: usize, out: &mut [u8]) -> usize
    ensures used { result ≡ used (lines_of widths (rows_in (held tree.now records) tree.now)) (length out.old) }
    ensures bytes { out.new ≡ padded (lines_of widths (rows_in (held tree.now records) tree.now)) (length out.old) }
{
    list_as::<PLACE_DIGITS, LINE_BYTES>(listed(tree, records), out)
}
