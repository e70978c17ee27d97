// The lines of a listing, of any form: which are in form, and the numbers of a line.
ghost use Rattle.std.specs.Prelude.{◌≡◌, ◌+◌, ◌≤◌, ◌<◌, length, drop};
ghost use Rattle.std.specs.List.{list_all};
ghost use Rattle.lines.specs.Form as form;
ghost use Rattle.lines.specs.Lines.{half_digits};
ghost use Rattle.load.specs.Listing.Read.{digit_of, is_digit, number_of, in_form, values_of, bad_line, first_bad};
ghost use Rattle.load.specs.Listing.DigitLaws.{Short};

use crate::digits::DIGITS;

// How many bits a digit has.
const DIGIT_BITS: u32 = 4;

// The base of the digits, and what stands in the table for a byte that is none.
const BASE: u32 = 1 << DIGIT_BITS;

// The value of an upper-case hexadecimal digit; 16 for any other byte, as the table has it, so that one comparison with the base tells them apart: an Option
// would be made of that 16 and taken apart again for each digit. By a match of the two runs of digits, without a table, loading lines of 41 bytes took
// 2.6 times the instructions. std's `to_digit` takes lower case too.
fn digit(b: u8) -> u32
    ensures { result ≡ digit_of b }
{
    u32::from(DIGITS[usize::from(b)])
}

// The number that some digits are; a byte that is no digit counts as 0.
pub(crate) fn value(digits: &[u8]) -> u32
    requires { length digits.now ≤ half_digits }
    ensures { result ≡ number_of (length digits.now) digits.now }
{
    let mut v = 0;
    for &b in digits {
        v = (v << DIGIT_BITS) + digit(b) % BASE;
    }
    v
}

// Whether all bytes are digits.
fn are_digits(bytes: &[u8]) -> bool
    ensures { result ≡ list_all is_digit bytes.now }
{
    bytes.iter().all(|&b| digit(b) < BASE)
}

// Whether bytes begin with a line of this form, which are enough for one.
fn in_form(widths: &[usize], line: &[u8]) -> bool
    requires widths_in_bounds { form.wide widths.now ≤ length line.now }
    ensures { result ≡ in_form widths.now line.now }
{
    let mut p = 0;
    for (k, &n) in widths.iter().enumerate() {
        if !are_digits(&line[p..p + n]) {
            return false;
        }
        if line[p + n] != lines::after(widths.len() - (k + 1)) {
            return false;
        }
        p = p + n + 1;
    }
    true
}

// Whether bytes begin with a line of this form. It has `step` bytes, which the widths add up to: both are constants at each call, and form.rt says what that
// saves.
#[inline(always)]
pub(crate) fn begins(widths: &[usize], step: usize, bytes: &[u8]) -> bool
    requires { step ≡ form.wide widths.now }
    ensures { result ≡ in_form widths.now bytes.now }
{
    bytes.len() >= step && in_form(widths, bytes)
}

// The number, from 1, of the first line that is not in form, if one is not.
pub(crate) fn bad_line(widths: &[usize], step: usize, text: &[u8]) -> Option<usize>
    requires step_value { step ≡ form.wide widths.now }
    requires step_nonzero { 0 < step }
    ensures { result ≡ first_bad (bad_line widths.now text.now) }
{
    text.chunks(step)
        .position(|line| !begins(widths, step, line))
        .map(|i| i + 1)
}

// The numbers of a line, which has N fields.
// It goes from field to field as `in_form` does. One walk for both would be an iterator of fields, with the invariant that the widths fit the line and the
// ghost members `next_gives` and `remaining`, and both loops would still have to say what is left of the line. The widths are a slice, since those of six
// fields are the front of `WIDTHS`: as an array of N they would be a table more. A number is stored by its index: behind an adapter of `iter_mut`, as `zip` is,
// a proof knows no element. It is laid out where it is called, since the widths are known there: else loading 1,167 lines of 41 bytes takes 23
// percent more instructions.
#[inline(always)]
pub(crate) fn values<const N: usize>(widths: &[usize], line: &[u8]) -> [u32; N]
    requires short { Short widths.now }
    requires as_many { length widths.now ≡ N }
    requires widths_in_bounds { form.wide widths.now ≤ length line.now }
    ensures { result ≡ values_of widths.now line.now }
{
    let mut numbers = [0; N];
    let mut p = 0;
    for (k, &n) in widths.iter().enumerate() {
        numbers[k] = value(&line[p..p + n]);
        p = p + n + 1;
    }
    numbers
}
