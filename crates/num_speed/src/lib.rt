// Crate `num` under the C convention, an entry for numbers and one for digit texts: for measuring, see bench/num, and for a look at its machine code, see
// tools/multiply.py. Nothing else stands on it.
#![tactic(auto)]

ghost use Rattle.std.specs.Prelude.{◌≡◌, length};
ghost use Rattle.text.specs.Part.{part_of};
ghost use Rattle.num.specs.Value.{number_of};
ghost use Rattle.num.specs.Digits.{digits_of, answer_of, buffer_of};
ghost use Rattle.num_speed.specs.Said.{said_of, count_of};

// What `num` says of the decimal run from start to end, in four words, as bench/num reads them: the number, or 0 if it is too large, since C has no `Option`;
// and 1 or 0 for whether it is a length, a size and a bound.
#[unsafe(no_mangle)]
#[tactic(auto, unfolding(crate::specs::Said::said_of, crate::specs::Said::number_or_zero, crate::specs::Said::flag))]
pub extern "C" fn num_speed_number(draft: &[u8], start: usize, end: usize, said: &mut [u64; 4])
    ensures { said.new ≡ said_of (number_of (part_of draft.now start end)) }
{
    let v = num::number(draft, start, end);
    *said = [
        v.unwrap_or(0),
        u64::from(num::is_length(v)),
        u64::from(num::is_size(v)),
        u64::from(num::is_bound(v)),
    ];
}

// The digit text of the token from start to end into out, with zeros after it, and how many digits it has; all zeros, and 0, if it does not fit or has no
// digits: C has no `Option`.
#[unsafe(no_mangle)]
#[tactic(auto, unfolding(crate::specs::Said::count_of))]
pub extern "C" fn num_speed_digits(draft: &[u8], start: usize, end: usize, out: &mut [u8]) -> usize
    ensures count { result ≡ count_of (answer_of (digits_of (part_of draft.now start end)) (length out.old)) }
    ensures buffer { out.new ≡ buffer_of (digits_of (part_of draft.now start end)) (length out.old) }
{
    num::digits(draft, start, end, out).unwrap_or(0)
}
