// The stream of cases that a program is asked on its standard input. A case: a line of numbers with one space between, the last of them the length of
// the text behind; then the text and a line end.
#![tactic(auto)]

ghost use Rattle.std.specs.Prelude.{◌≡◌, [], ◌∷◌, ◌++◌, ◌≤◌, ◌<◌, ◌*◌, Some, drop, length, true, cond, codes, All, None, IfSome, MatchOption, MatchResult};
ghost use Rattle.std.specs.Iterator.{at_most};
ghost use Rattle.std.specs.Bool.{Decides};
ghost use Rattle.std.specs.Simd.{first_chunks};
ghost use Rattle.cases.specs.Stream.{StartsWith, Within};

use std::error::Error;
use std::fmt;
use std::io::Read;

/// A case: the numbers of its line, and its text.
#[derive(Clone, Copy, Debug)]
pub struct Case<'a, const N: usize> {
    pub numbers: [usize; N],
    pub text: &'a [u8],
}

/// The stream does not go on with a case.
#[derive(Clone, Copy, Debug)]
pub struct BadCase;

impl fmt::Display for BadCase {
    ghost output = { λ _. Some (codes "BAD CASE") };

    fn fmt<W: fmt::Write>(&self, f: &mut fmt::Formatter<W>) -> fmt::Result {
        f.write_str("BAD CASE")
    }
}

impl Error for BadCase {}

/// The cases of a stream, up to the first that is wrong or asks for more than the limits of its numbers.
#[derive(Drop)]
pub struct Cases<'a, const N: usize> {
    pub stream: &'a [u8],
    pub limits: [usize; N],
}

// The number that digits write; `parse` alone would take a sign too.
fn number(digits: &str) -> Option<usize> {
    if !digits.bytes().all(|byte| byte.is_ascii_digit()) {
        return None;
    }
    digits.parse().ok()
}

// The numbers of a line that has so many.
fn numbers<const N: usize>(line: &[u8]) -> Option<[usize; N]> {
    let mut fields = str::from_utf8(line).ok()?.split(' ');
    let mut numbers = [0; N];
    for value in &mut numbers {
        *value = number(fields.next()?)?;
    }
    fields.next().is_none().then_some(numbers)
}

/// What comes in, as far as the buffer holds it: a reading that fails ends it, and what came before counts.
pub fn input<'a>(source: &mut impl Read, buf: &'a mut [u8]) -> &'a [u8]
    ensures { length result.now ≤ length buf.old }
{
    let mut done = 0;
    while done < buf.len() {
        match source.read(&mut buf[done..]) {
            Ok(0) | Err(_) => break,
            Ok(more) => done += more,
        }
    }
    &buf[..done]
}

/// What a word or a byte of a lent buffer holds before, so that one that is not written shows.
pub const UNWRITTEN: u8 = 7;

/// Whether all words are 0, or all bytes. At u32 and at u8 the clause says that each is the number 0 (proofs/AllZero.antt).
pub fn is_zero<T: Copy + PartialEq + From<u8>>(words: &[T]) -> bool
    ensures { (zero : T) × T.from_gives 0 zero × Decides result (All (λ word. T.eq word zero ≡ true) words.now) }
{
    let zero = T::from(0);
    words.iter().all(|word| *word == zero)
}

/// The first `count` arrays of `N` words, and the words behind them; none if there are not so many words, or if an array has none.
#[tactic(auto, using(crate::proofs::Chunks::chunks_of_front))]
pub fn front<const N: usize>(words: &[u32], count: usize) -> Option<(&[[u32; N]], &[u32])>
    ensures empty { N ≡ 0 → result ≡ None }
    ensures pieces { 0 < N → MatchOption result (length words.now < count * N)
        (λ parts. parts.0.now ≡ first_chunks N count words.now × parts.1.now ≡ drop (count * N) words.now) }
{
    if N == 0 {
        return None;
    }
    let (pieces, behind) = words.split_at_checked(count.checked_mul(N)?)?;
    let (pieces, _) = pieces.as_chunks::<N>();
    Some((pieces, behind))
}

/// What is shown of words or bytes that must be 0, by whether all are.
pub fn zeros(all: bool) -> &'static str
    ensures { result.now ≡ cond all (codes "zeros") (codes "NOT ZERO") }
{
    if all { "zeros" } else { "NOT ZERO" }
}

// The first line, and what is behind its end.
fn split_line(stream: &[u8]) -> Option<(&[u8], &[u8])>
    ensures { IfSome result (λ parts. stream.now ≡ parts.0.now ++ 10 ∷ parts.1.now) }
{
    let end = stream.iter().position(|byte| *byte == b'\n')?;
    Some((&stream[..end], &stream[end + 1..]))
}

// Whether each number is at most its limit.
fn is_within<const N: usize>(numbers: &[usize; N], limits: &[usize; N]) -> bool
    ensures { result ≡ true → Within numbers.now limits.now }
{
    numbers
        .iter()
        .zip(limits)
        .all(|(number, limit)| number <= limit)
}

// The first case, and what is behind it.
fn split_case<'a, const N: usize>(
    stream: &'a [u8],
    limits: &[usize; N],
) -> Option<(Case<'a, N>, &'a [u8])>
    ensures case { IfSome result (λ parts. StartsWith stream.now parts.0.numbers parts.0.text.now parts.1.now) }
    ensures within { IfSome result (λ parts. Within parts.0.numbers limits.now) }
    ensures less { IfSome result (λ parts. length parts.1.now < length stream.now) }
{
    let (line, behind) = split_line(stream)?;
    let numbers = numbers::<N>(line)?;
    if !is_within(&numbers, limits) {
        return None;
    }
    let (text, behind) = behind.split_at_checked(*numbers.last()?)?;
    let (end, rest) = behind.split_first()?;
    if *end != b'\n' {
        return None;
    }
    Some((Case { numbers, text }, rest))
}

impl<'a, const N: usize> Cases<'a, N> {
    /// The cases of a stream, whatever their numbers. No program here calls it: each lends the buffers that a case asks for, which `within` limits.
    pub fn new(stream: &'a [u8]) -> Self
        ensures { result.stream.now ≡ stream.now }
    {
        Cases::within(stream, [usize::MAX; N])
    }

    /// The cases of a stream, each of whose numbers has a limit.
    pub fn within(stream: &'a [u8], limits: [usize; N]) -> Self
        ensures stream { result.stream.now ≡ stream.now }
        ensures limits { result.limits ≡ limits.entry }
    {
        Cases { stream, limits }
    }
}

impl<'a, const N: usize> Iterator for Cases<'a, N> {
    type Item = Result<Case<'a, N>, BadCase>;

    ghost next_gives = { λ before item after. MatchOption item (before.stream.now ≡ [])
        (λ found. (after.limits ≡ before.limits) × MatchResult found
        (λ case. StartsWith before.stream.now case.numbers case.text.now after.stream.now × Within case.numbers before.limits)
        (λ _. after.stream.now ≡ [])) };

    ghost remaining = { λ cases. at_most (length cases.stream.now) };

    fn next(&mut self) -> Option<Self::Item> {
        if self.stream.is_empty() {
            return None;
        }
        let Some((case, rest)) = split_case(self.stream, &self.limits) else {
            self.stream = &[];
            return Some(Err(BadCase));
        };
        self.stream = rest;
        Some(Ok(case))
    }

    // Its clause is that of the trait: so many cases as are left lie between the two numbers.
    fn size_hint(&self) -> (usize, Option<usize>) {
        (0, Some(self.stream.len()))
    }
}
