// Digit runs: their numbers, their digit texts, and which numbers are good bounds, sizes and lengths. Port of src/num.rs.
#![tactic(auto)]

ghost use Rattle.std.specs.Prelude.{◌≡◌, ◌+◌, ◌-◌, ◌*◌, length};
ghost use Rattle.text.specs.Part.{part_of};
ghost use Rattle.num.specs.Digits.{plain, after_base, digits_of, answer_of, buffer_of};
ghost use Rattle.num.specs.Value.{fitted, number_of};
ghost use Rattle.num.specs.Bound.{bound_ok, size_ok, length_ok};

// The digit of a byte; 0 for one below `0`, as the definition has it: it is total, and the lexer hands over digits only.
fn digit(b: u8) -> u8
    ensures { result ≡ b - 48 }
{
    b.saturating_sub(b'0')
}

// One more digit after those of v, None where 64 bits don't hold it, by shifts and differences: eight times v, twice v and the digit are taken, one after the
// other, from the room that 64 bits have. The crate must not multiply, by `checked_mul` either: on cores of 32 bits that is a call (docs/requests/04.md). The
// plain sum of the shifts the optimiser turns into a multiply.
#[tactic(auto, using(crate::proofs::Reading::too_large, crate::proofs::Room::pushed))]
fn push_digit(v: u64, d: u8) -> Option<u64>
    ensures { result ≡ fitted (v * 10 + d) }
{
    if v > u64::MAX >> 3 {
        return None;
    }
    let room = u64::MAX - (v << 3);
    let room = room.checked_sub(v << 1)?;
    let room = room.checked_sub(u64::from(d))?;
    Some(u64::MAX - room)
}

// The number of a run; a run is left at the digit that makes it too large.
#[tactic(auto, using(crate::proofs::Reading::passes, crate::proofs::Reading::pushes, crate::proofs::Reading::stops, crate::proofs::Reading::ends))]
fn run_number(run: &[u8]) -> Option<u64>
    ensures { result ≡ number_of run.now }
{
    let mut v: u64 = 0;
    for &b in run {
        if b == b'_' {
            continue;
        }
        v = push_digit(v, digit(b))?;
    }
    Some(v)
}

// The number of the decimal run from start to end, None if it is over the largest u64.
// Start and end may be any numbers, as those of `text::part`, so a struct of them could keep no fact.
pub fn number(draft: &[u8], start: usize, end: usize) -> Option<u64>
    ensures { result ≡ number_of (part_of draft.now start end) }
{
    run_number(text::part(draft, start, end))
}

// The bytes of a run without `_`, then zeros; how many there are, None where the buffer is too short for them.
// `n` is the answer too, so it is counted here.
#[tactic(auto, using(crate::proofs::Fill::passes, crate::proofs::Fill::stores, crate::proofs::Fill::end_answer, crate::proofs::Fill::end_buffer, crate::proofs::Fill::over_answer, crate::proofs::Fill::over_buffer))]
fn write_plain(run: &[u8], out: &mut [u8]) -> Option<usize>
    ensures answer { result ≡ answer_of (plain run.now) (length out.old) }
    ensures buffer { out.new ≡ buffer_of (plain run.now) (length out.old) }
{
    out.fill(0);
    let mut n: usize = 0;
    for &b in run {
        if b == b'_' {
            continue;
        }
        if n == out.len() {
            out.fill(0);
            return None;
        }
        out[n] = b;
        n += 1;
    }
    Some(n)
}

// The part of a token after its `0x` or `0b`; all of it if it has neither.
fn after_base(token: &[u8]) -> &[u8]
    ensures { result.now ≡ after_base token.now }
{
    token
        .strip_prefix(b"0x")
        .or(token.strip_prefix(b"0b"))
        .unwrap_or(token)
}

// The digit text of the token from start to end into out, with zeros after it, and how many digits were written; all zeros and None if it does not fit.
// Start and end may be any numbers here too, as above.
#[tactic(auto, unfolding(crate::specs::Digits::digits_of))]
pub fn digits(draft: &[u8], start: usize, end: usize, out: &mut [u8]) -> Option<usize>
    ensures answer { result ≡ answer_of (digits_of (part_of draft.now start end)) (length out.old) }
    ensures buffer { out.new ≡ buffer_of (digits_of (part_of draft.now start end)) (length out.old) }
{
    write_plain(after_base(text::part(draft, start, end)), out)
}

// A good bound has one bit set, and that is not the lowest. The count of ones is the test that document 01 names.
// Like the two below it takes what `number` gives: one that is too large is none of them.
#[tactic(auto, using(crate::proofs::Ones::bits_no_bound, crate::proofs::Ones::one_no_bound, crate::proofs::Ones::no_bound))]
pub fn is_bound(v: Option<u64>) -> bool
    ensures { result ≡ bound_ok v }
{
    matches!(v, Some(n) if n != 1 && n.count_ones() == 1)
}

// A good size is a number other than 0.
#[tactic(auto, unfolding(crate::specs::Bound::size_ok))]
pub fn is_size(v: Option<u64>) -> bool
    ensures { result ≡ size_ok v }
{
    matches!(v, Some(n) if n != 0)
}

// A good length is any number that is not too large, 0 too.
#[tactic(auto, unfolding(crate::specs::Bound::length_ok))]
pub fn is_length(v: Option<u64>) -> bool
    ensures { result ≡ length_ok v }
{
    v.is_some()
}
