// Arrays of words, lent to a function: there is no heap. An array is cleared where it is made, so the smallest that will do is taken.
ghost use Rattle.std.specs.Prelude.{◌≡◌, ℕ, ◌≤◌, min};
ghost use Rattle.reader.specs.Arrays.{ReturnsAtArray};

// Rising sizes of arrays, in words.
const STEP_1: usize = 128;

const STEP_2: usize = 512;

const STEP_3: usize = 1024;

const STEP_4: usize = 2048;

const STEP_5: usize = 3072;

const STEP_6: usize = 4096;

const STEP_7: usize = 8192;

// No array has more words, so that the bytes of each fit a `usize`.
const MOST: usize = 2 * STEP_7;

// Calls a function at what it reads, a buffer that it writes and an array of so many words. It captures none of them: a caller would not learn what is left in
// a buffer that a closure captured, and where that captured a struct with a lifetime, nothing of the call. Out of line, so that no frame has two arrays.
#[inline(never)]
fn in_array<const WORDS: usize, C: Copy, F: FnOnce(C, &mut [u8], &mut [u32]) -> usize>(
    from: C,
    out: &mut [u8],
    f: F,
) -> usize
    requires callable { F.IsAlwaysCallable f }
    requires words { WORDS ≤ MOST }
    ensures { ReturnsAtArray F.FnOnce f from WORDS out.old result out.new }
{
    let mut words = [0u32; WORDS];
    f(from, out, &mut words)
}

// The same with the smallest array that has n words, or with the largest.
pub(crate) fn with_words<
    const LARGEST: usize,
    C: Copy,
    F: FnOnce(C, &mut [u8], &mut [u32]) -> usize,
>(n: usize, from: C, out: &mut [u8], f: F) -> usize
    requires callable { F.IsAlwaysCallable f }
    requires steps { STEP_6 ≤ LARGEST }
    requires words { LARGEST ≤ MOST }
    ensures { (words : ℕ) × (min n LARGEST ≤ words) × (words ≤ LARGEST) × ReturnsAtArray F.FnOnce f from words out.old result out.new }
{
    match n {
        0..=STEP_1 => in_array::<STEP_1, C, F>(from, out, f),
        0..=STEP_2 => in_array::<STEP_2, C, F>(from, out, f),
        0..=STEP_3 => in_array::<STEP_3, C, F>(from, out, f),
        0..=STEP_4 => in_array::<STEP_4, C, F>(from, out, f),
        0..=STEP_5 => in_array::<STEP_5, C, F>(from, out, f),
        0..=STEP_6 => in_array::<STEP_6, C, F>(from, out, f),
        0..=STEP_7 if STEP_7 < LARGEST => in_array::<STEP_7, C, F>(from, out, f),
        _ => in_array::<LARGEST, C, F>(from, out, f),
    }
}
