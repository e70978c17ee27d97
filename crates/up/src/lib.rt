// The way up: how many records back the parent of each record begins, found through the sizes of records that lie one after the other.
#![tactic(auto)]

ghost use Rattle.std.specs.Prelude.{◌≡◌, ◌≤◌, ◌<◌, ◌*◌, ◌+◌, ◌-◌, ◌/◌, ℕ, length, get_or};
ghost use Rattle.std.proofs.Common.{Fits, w32};
ghost use Rattle.text.specs.Widths.{rec_wide};
ghost use Rattle.up.specs.Ways.{way_up, upward};
ghost use Rattle.up.specs.Buffer.{size_in, up_in};

use text::RECORD_WORDS;

// Where the size of a record and its way up stand among its words.
const SIZE: usize = 5;

pub const UP: usize = 6;

// Records one after the other, of which each has a size and may have a way up: the words of a tree, or the lines of a listing.
// `size` and `way` ask for a record that there is: `above` looks at those before i alone, so an `Option` would be taken apart at each look and never be `None`.
pub trait Records {
    // How many there are, and what each says. A way up is a number, 0 for a record that no other holds, as document 02 (order 7) has it in words and in lines.
    ghost count: { Self → ℕ };

    ghost sizes: { Self → ℕ → ℕ };

    ghost ways: { Self → ℕ → ℕ };

    fn size(&self, i: usize) -> u32
        requires { i < count self.now }
        ensures { result ≡ sizes self.now i };

    fn way(&self, i: usize) -> u32
        requires { i < count self.now }
        ensures { result ≡ ways self.now i };
}

// The record that holds record i, where those before it have their ways up; i itself if none does, so that i less the answer is the way up. `before` is what
// holds the record before it, or that record itself. If the record before holds i, there is no way to go; else from `before` on, from parent to parent, up to
// the first that reaches over i. Each record is passed at most once in all, since it is no parent of what comes after.
// It is public for `load`, and asks for what its two callers show: `way_up` has written the ways up of the records before i, and `load::ways::right` has
// tested those that lines give. A form that asks for nothing could promise the way up only where these facts hold.
pub fn above<R: Records>(records: &R, before: usize, i: usize) -> usize
    requires i_in_bounds { i ≤ R.count records.now }
    requires before_value { before ≡ i - 1 - way_up (R.sizes records.now) (i - 1) }
    requires raised { (q : ℕ) → q < i → R.ways records.now q ≡ way_up (R.sizes records.now) q }
    ensures is { result ≡ i - way_up (R.sizes records.now) i }
    ensures small { Fits w32 (i - result) }
{
    if i == 0 {
        return 0;
    }
    if records.size(i - 1) > 1 {
        return i - 1;
    }
    let mut p = before;
    while i - p >= records.size(p) as usize {
        let up = records.way(p) as usize;
        if up == 0 {
            return i;
        }
        p -= up;
    }
    p
}

// The words of a tree.
// They are read by place: `way_up` writes between two looks, and std says nothing of what `as_chunks_mut` leaves.
#[derive(Clone, Copy)]
struct Tree<'a> {
    words: &'a [u32],
}

impl<'a> Records for Tree<'a> {
    ghost count = { λ t. length t.words.now / rec_wide };

    ghost sizes = { λ t. size_in t.words.now };

    ghost ways = { λ t. up_in t.words.now };

    fn size(&self, i: usize) -> u32 {
        self.words[RECORD_WORDS * i + SIZE]
    }

    fn way(&self, i: usize) -> u32 {
        self.words[RECORD_WORDS * i + UP]
    }
}

// Gives each of the first records its way up, where the buffer has so many. A lent buffer may be longer than its tree, so the number of records stands beside
// it.
pub fn way_up(tree: &mut [u32], records: usize)
    ensures { tree.new ≡ upward records tree.old }
{
    if tree.len() / RECORD_WORDS < records {
        return;
    }
    if records == 0 {
        return;
    }
    tree[UP] = 0;
    let mut p = 0;
    for i in 1..records {
        p = above(&Tree { words: tree }, p, i);
        // It fits a word, as `above` promises: `u32::try_from` would have an `Err` that never comes.
        tree[RECORD_WORDS * i + UP] = (i - p) as u32;
    }
}
