// A record as a line, and records as lines.
ghost use Rattle.std.specs.Prelude.{◌≡◌, ◌+◌, ◌*◌, ◌/◌, ◌≤◌, [], ◌∷◌, ◌++◌, length, drop};
ghost use Rattle.std.proofs.lemmas.List.Edits.{sets};
ghost use Rattle.lines.specs.Hex.{hex};
ghost use Rattle.lines.specs.Form as form;
ghost use Rattle.lines.specs.Form.{line_of, wide};
ghost use Rattle.lines.specs.Lines.{with_way, lines_of};

use crate::digits::digits;
use crate::{HALF_DIGITS, KIND_DIGITS};
use text::RECORD_WORDS;

// The byte after a field with so many fields behind it.
pub fn after(left: usize) -> u8
    ensures { result ≡ form.after left }
{
    if left == 0 { b'\n' } else { b' ' }
}

// Writes a number of N digits and the byte after it, and returns where the next field begins.
// `out` and `at` go beside one another: the contract says where in `out` the bytes stand, and a slice would be cut for each field.
#[inline(always)]
fn field<const N: usize>(out: &mut [u8], at: usize, v: u32, after: u8) -> usize
    requires even { 2 * (N / 2) ≡ N }
    requires in_bounds { at + N + 1 ≤ length out.old }
    ensures end { result ≡ at + N + 1 }
    ensures bytes { out.new ≡ sets out.old at (hex N v ++ (after ∷ [])) }
{
    digits::<N>(out, at, v);
    out[at + N] = after;
    at + N + 1
}

// Writes the line of a record, its places in N digits each, and returns where it ends. Each field has a call of its own, so that its width is known where it is
// compiled; the variables say where the fields begin.
// digits.rt says what a line took by a loop over the widths. The words are taken by index: their names (start, end
// and so on) say here where the fields begin.
#[inline(always)]
fn line<const N: usize>(out: &mut [u8], at: usize, words: &[u32; RECORD_WORDS]) -> usize
    requires even { 2 * (N / 2) ≡ N }
    requires in_bounds { at + wide (with_way N) ≤ length out.old }
    ensures end { result ≡ at + wide (with_way N) }
    ensures bytes { out.new ≡ sets out.old at (line_of (with_way N) words.now) }
{
    let start = field::<KIND_DIGITS>(out, at, words[0], b' ');
    let end = field::<N>(out, start, words[1], b' ');
    let low = field::<N>(out, end, words[2], b' ');
    let high = field::<HALF_DIGITS>(out, low, words[3], b' ');
    let size = field::<HALF_DIGITS>(out, high, words[4], b' ');
    let way = field::<N>(out, size, words[5], b' ');
    field::<N>(out, way, words[6], b'\n')
}

// Writes the lines of records, and returns where they end.
pub(crate) fn lines<const N: usize>(out: &mut [u8], records: &[[u32; RECORD_WORDS]]) -> usize
    requires even { 2 * (N / 2) ≡ N }
    requires in_bounds { wide (with_way N) * length records.now ≤ length out.old }
    ensures end { result ≡ wide (with_way N) * length records.now }
    ensures bytes { out.new ≡ sets out.old 0 (lines_of (with_way N) records.now) }
{
    let mut p = 0;
    for words in records {
        p = line::<N>(out, p, words);
    }
    p
}
