// The records of a listing, as its lines have them.
ghost use Rattle.std.specs.Prelude.{◌≡◌, ◌*◌, ◌/◌, ◌<◌, ◌≤◌, map, eqb, length, get_or, drop};
ghost use Rattle.text.specs.Widths.{rec_wide};
ghost use Rattle.own.specs.Flat.{blank};
ghost use Rattle.own.specs.Numbers.{kind_number};
ghost use Rattle.own.specs.Words.{recs};
ghost use Rattle.kinds.specs.Shape.{number};
ghost use Rattle.load.specs.Listing.Read.{values_of, rows_from, rec_of};
ghost use Rattle.lines.specs.Form.{wide};
ghost use Rattle.load.specs.Listing.LineForm.{first_six};
ghost use Rattle.load.specs.Checks.Listed.{fields, its_lines, its_records};
ghost use Rattle.load.specs.Checks.Judge.{as_rec};

use crate::form::Listing;
use crate::line;
use lines::{LONG_DIGITS, LONG_WIDTHS, SIX_FIELDS, WIDTHS};
use own::kind::Kind;
use text::RECORD_WORDS;

// The first six words of a record by name. Its kind is a number, since a line may have any two digits there: `Kind::try_from` would be a match of 42 numbers
// for each record, whose kind is compared with two, used as an index, and handed as a number to `kinds::category`.
#[derive(Clone, Copy)]
pub(crate) struct Record {
    pub(crate) kind: u32,
    pub(crate) start: u32,
    pub(crate) end: u32,
    pub(crate) low: u32,
    pub(crate) high: u32,
    pub(crate) size: u32,
}

impl Record {
    // Whether it is of this kind.
    pub(crate) fn is(self, kind: Kind) -> bool
        ensures { result ≡ eqb self.kind (kind_number kind) }
    {
        self.kind == u32::from(kind)
    }

    // The 64-bit number that low and high hold together.
    #[tactic(auto, unfolding(kinds::specs::Shape::number))]
    pub(crate) fn number(self) -> u64
        ensures { result ≡ number self.low self.high }
    {
        u64::from(self.low) + (u64::from(self.high) << u32::BITS)
    }
}

impl<'a, const N: usize> Listing<'a, N> {
    // How many lines it has.
    pub(crate) fn count(&self) -> usize
        ensures { result ≡ length (its_lines self.now) }
    {
        self.text.len() / self.form.bytes()
    }

    // The first six numbers of line i, whatever its form. Laid out where it is called, as `values` is: else loading took 41 percent more instructions.
    #[inline(always)]
    fn numbers(&self, i: usize) -> [u32; SIX_FIELDS]
        requires { i < length (its_lines self.now) }
        ensures { result ≡ values_of (first_six (fields self.now)) (drop (wide (fields self.now) * i) self.now.text.now) }
    {
        let line = &self.text[self.form.bytes() * i..];
        if N == LONG_DIGITS {
            return line::values(&LONG_WIDTHS[..SIX_FIELDS], line);
        }
        line::values(&WIDTHS[..SIX_FIELDS], line)
    }

    // The record of line i. Laid out too: with a call for each of them loading took 30 percent more.
    #[inline(always)]
    pub(crate) fn record(&self, i: usize) -> Record
        requires { i < length (its_records self.now) }
        ensures { as_rec result ≡ get_or (its_records self.now) i blank }
    {
        let [kind, start, end, low, high, size] = self.numbers(i);
        Record {
            kind,
            start,
            end,
            low,
            high,
            size,
        }
    }

    // Writes the first six words of the records of the first n lines. The last word of each is not written: it is worked out when all stand.
    // The words are written by their places: std says nothing of the elements that `as_chunks_mut` leaves.
    pub(crate) fn write(&self, n: usize, tree: &mut [u32])
        requires n_in_lines { n ≤ length (its_lines self.now) }
        requires n_in_words { rec_wide * n ≤ length tree.old }
        ensures { recs n tree.new ≡ map rec_of (rows_from (fields self.now) n self.now.text.now) }
    {
        for i in 0..n {
            let w = RECORD_WORDS * i;
            tree[w..w + SIX_FIELDS].copy_from_slice(&self.numbers(i));
        }
    }
}
