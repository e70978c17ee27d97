// The ways up that the lines of a listing end with, in either form that has them, against those that the sizes of their records give.
ghost use Rattle.std.specs.Prelude.{◌≡◌, ◌+◌, ◌/◌, ◌≤◌, ℕ, length, get_or, drop};
ghost use Rattle.lines.specs.Form.{wide};
ghost use Rattle.lines.specs.Lines.{with_way, half_digits};
ghost use Rattle.load.specs.Load.{ways_given};
ghost use Rattle.load.specs.Listing.Read.{number_of, lines_read};
ghost use Rattle.load.specs.Checks.GivenWays.{sizes_in, given_in};

use crate::line;
use lines::{LINE_BYTES, PLACE_DIGITS};
use up::Records;

// How many fields of a line are a place: start, end, size and way up.
const PLACE_FIELDS: usize = 4;

// The bytes of a line that are no digit of these.
const REST: usize = LINE_BYTES - PLACE_FIELDS * PLACE_DIGITS;

// The lines of a listing whose places have N digits, as the sizes of their records and the ways up that they give.
// It is a type of its own beside `Listing`, whose form may be the older: its lines have no way up to read. N stands in the type, so that where a number stands
// in a line is known when the code is made.
#[derive(Clone, Copy)]
struct Given<'a, const N: usize> {
    text: &'a [u8],
    ghost short: { N ≤ half_digits },
}

impl<'a, const N: usize> Given<'a, N> {
    // How many bytes a line has.
    fn bytes(&self) -> usize
        ensures { result ≡ wide (with_way N) }
    {
        REST + PLACE_FIELDS * N
    }

    // The number of a place, which stands from `at` on.
    fn place(&self, at: usize) -> u32
        requires { at + N ≤ length self.now.text.now }
        ensures { result ≡ number_of N (drop at self.now.text.now) }
    {
        line::value(&self.text[at..at + N])
    }
}

impl<'a, const N: usize> Records for Given<'a, N> {
    ghost count = { λ l. length l.text.now / wide (with_way N) };

    ghost sizes = { λ l. sizes_in (with_way N) l.text.now };

    ghost ways = { λ l. given_in (with_way N) l.text.now };

    // The size is the last number but one of its line,
    fn size(&self, i: usize) -> u32 {
        self.place(self.bytes() * (i + 1) - 2 * (N + 1))
    }

    // and the way up the last.
    fn way(&self, i: usize) -> u32 {
        self.place(self.bytes() * (i + 1) - (N + 1))
    }
}

// Whether each line of a text ends with the way up of its record.
pub(crate) fn right<const N: usize>(text: &[u8]) -> bool
    requires { N ≤ half_digits }
    ensures { result ≡ ways_given (lines_read (with_way N) text.now) }
{
    let given = Given::<N> { text };
    let n = text.len() / given.bytes();
    let mut p = 0;
    for i in 0..n {
        p = up::above(&given, p, i);
        if given.way(i) as usize != i - p {
            return false;
        }
    }
    true
}
