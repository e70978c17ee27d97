// Rotating a slice in place, as document 01 names it: it puts a later part of a tree before an earlier one.
#![tactic(auto)]

ghost use Rattle.std.specs.Prelude.{◌≡◌, min, ◌≤◌, ◌-◌, ◌++◌, length, take, drop};

use text::RECORD_WORDS;

// The words of two records, of three and of four.
const TWO: usize = 2 * RECORD_WORDS;

const THREE: usize = 3 * RECORD_WORDS;

const FOUR: usize = 4 * RECORD_WORDS;

// Moves all but the last c elements to the end; the first c stay where they are. For one to four records the distance is known when this is compiled, and
// the copy is one `memmove`. With `copy_within(..n, c)` alone the case `matches` of bench/reader took 20 percent more instructions, more than plain Rust.
fn up_records(a: &mut [u32], c: usize)
    requires { c ≤ length a.old }
    ensures { a.new ≡ take c a.old ++ take (length a.old - c) a.old }
{
    let n = a.len() - c;
    match c {
        RECORD_WORDS => a.copy_within(..n, RECORD_WORDS),
        TWO => a.copy_within(..n, TWO),
        THREE => a.copy_within(..n, THREE),
        FOUR => a.copy_within(..n, FOUR),
        _ => a.copy_within(..n, c),
    }
}

// Puts the first elements of a slice behind the others, as many as the spare slice has.
#[tactic(auto, using(crate::proofs::Moves::moved_down))]
fn first_aside(a: &mut [u32], spare: &mut [u32])
    requires { length spare.old ≤ length a.old }
    ensures { a.new ≡ drop (length spare.old) a.old ++ take (length spare.old) a.old }
{
    let k = spare.len();
    let n = a.len() - k;
    spare.copy_from_slice(&a[..k]);
    a.copy_within(k.., 0);
    a[n..].copy_from_slice(spare);
}

// Puts the last elements of a slice before the others, as many as the spare slice has. One function of this and `first_aside` would take three ranges, of the
// part set aside, of the part that moves and of where the first goes, and its clause would say where each stands.
fn last_aside(a: &mut [u32], spare: &mut [u32])
    requires { length spare.old ≤ length a.old }
    ensures { a.new ≡ drop (length a.old - length spare.old) a.old ++ take (length a.old - length spare.old) a.old }
{
    let n = spare.len();
    let k = a.len() - n;
    spare.copy_from_slice(&a[k..]);
    up_records(a, n);
    a[..n].copy_from_slice(spare);
}

// The words of the two spare arrays. One is cleared for each call, so a part of few words gets the smaller.
const FEW: usize = 64;

const MANY: usize = 192;

// Puts what follows the first k elements before them, by way of a spare array that has room for one of the two parts.
fn by_array<const N: usize>(a: &mut [u32], k: usize)
    requires k_in_bounds { k ≤ length a.old }
    requires part_in_bounds { min k (length a.old - k) ≤ N }
    requires words { N ≤ MANY }
    ensures { a.new ≡ drop k a.old ++ take k a.old }
{
    let n = a.len() - k;
    let mut spare = [0; N];
    if k <= N {
        first_aside(a, &mut spare[..k]);
    } else {
        last_aside(a, &mut spare[..n]);
    }
}

// Puts what follows the first k elements before them; a slice of k elements or fewer stays as it is. std's rotation clears 4 KiB each time, so it is for long
// parts alone: with nothing else the case `matches` of bench/reader took 2.3 times the instructions and `escrow` 6 percent more, both more than plain Rust.
pub fn rotate(a: &mut [u32], k: usize)
    ensures { a.new ≡ drop k a.old ++ take k a.old }
{
    if k >= a.len() {
        return;
    }
    match k.min(a.len() - k) {
        0..=FEW => by_array::<FEW>(a, k),
        0..=MANY => by_array::<MANY>(a, k),
        _ => a.rotate_left(k),
    }
}
