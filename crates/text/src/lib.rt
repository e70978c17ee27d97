// The text of a draft by its places, lent buffers, and the numbers of refusals.
#![tactic(auto)]

ghost use Rattle.std.specs.Prelude.{◌≡◌, ◌++◌, ◌-◌, length, get_or, replicate, take};
ghost use Rattle.text.specs.Part.{part_of};

pub mod refusal;

// How many words a token and a record take in their buffers.
pub const TOKEN_WORDS: usize = 3;

pub const RECORD_WORDS: usize = 7;

// The raw text of a start and an end: that part of the caller's draft, or the empty part at 0 if it is out of range.
// Start and end are words of a token and may be any numbers: something is promised for each pair.
pub fn part(draft: &[u8], start: usize, end: usize) -> &[u8]
    ensures { result.now ≡ part_of draft.now start end }
{
    draft.get(start..end).unwrap_or(&draft[..0])
}

// The byte at i, 0 past the end, as the definitions read a draft (`get_or`): callers compare it with marks, digits and letters, and none of these is 0.
// As an `Option`, callers that take its class or test a range would unwrap it to 0 again.
pub fn peek(s: &[u8], i: usize) -> u8
    ensures { result ≡ get_or s.now i 0 }
{
    s.get(i).copied().unwrap_or(0)
}

// Sets every word from `at` on to 0; those before stay. `get_mut` in place of the test says nothing of the slice where it gives None.
pub fn clear_from(out: &mut [u32], at: usize)
    ensures { out.new ≡ take at out.old ++ replicate (length out.old - at) 0 }
{
    if at < out.len() {
        out[at..].fill(0);
    }
}
