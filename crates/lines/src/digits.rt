// Numbers as upper-case hexadecimal digits, two at a time.
ghost use Rattle.std.specs.Prelude.{◌≡◌, ◌+◌, ◌*◌, ◌/◌, ◌≤◌, length};
ghost use Rattle.std.proofs.lemmas.List.Edits.{sets};
ghost use Rattle.lines.specs.Hex.{hex};

use crate::HALF_DIGITS;
use crate::pairs::{PAIR, PAIR_VALUES, PAIRS};

// How many numbers a pair of digits tells apart.
const BASE: u32 = PAIR_VALUES as u32;

// Writes the last two digits of v. Two stores, since `copy_from_slice` of a row is a call for two bytes: a line took 2.3 times the instructions so.
#[inline(always)]
fn pair(out: &mut [u8], at: usize, v: u32)
    requires { at + 2 ≤ length out.old }
    ensures { out.new ≡ sets out.old at (hex 2 v) }
{
    let [high, low] = PAIRS[(v % BASE) as usize];
    out[at] = high;
    out[at + 1] = low;
}

// Writes the last N digits of v, an even number of them, from the last pair to the first. Most halves of a 64-bit number are 0, and zeros are one store.
// The last pair is worked out first, so each place counts from the end. By a table: a line takes 52 instructions where both halves of
// its number are 0, and took 172 by single digits and a loop over the widths.
#[inline(always)]
pub(crate) fn digits<const N: usize>(out: &mut [u8], at: usize, v: u32)
    requires even { 2 * (N / 2) ≡ N }
    requires in_bounds { at + N ≤ length out.old }
    ensures { out.new ≡ sets out.old at (hex N v) }
{
    if N == HALF_DIGITS && v == 0 {
        out[at..at + N].fill(b'0');
        return;
    }
    let mut above = v;
    for i in 0..N / PAIR {
        pair(out, at + (N - PAIR * (i + 1)), above);
        above /= BASE;
    }
}
