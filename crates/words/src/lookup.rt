// How a word of a table is found: by the only word that a part can be.
ghost use Rattle.std.specs.Prelude.{◌≡◌, [], ◌≤◌, ◌<◌, get_or, length};
ghost use Rattle.text.specs.Same.{same};
ghost use Rattle.words.specs.Words.{word_of};
ghost use Rattle.words.specs.Layout.{entries, letters, slot_of};
ghost use Rattle.words.specs.Lies.{listed, Finds};

use crate::layout;
use crate::layout::{ENTRIES, FEWEST, LETTERS, SLOTS};

// The words of a table: they are so many entries from the first on, none longer than the longest. A word's length, and its first, second and last byte by
// their multipliers, lead to its slot, which has its place in the table.
// A static refers to no part of another, so the entries are a first and a count.
// The other slots have 255, over each count: what a slot holds as an `Option` of a function of its own took names 39 percent more instructions.
pub(crate) struct Words {
    pub(crate) first: usize,
    pub(crate) count: u8,
    pub(crate) longest: usize,
    pub(crate) multipliers: [u8; 3],
    pub(crate) slots: [u8; SLOTS],
}

// The letters of entry e, from where the letters of all words stand. These are a parameter: with the static in their place each goal would spell out all.
#[tactic(auto, using(crate::proofs::Laws::stands, crate::proofs::Laws::letters_of), unfolding(crate::proofs::Constants::places))]
fn text_of(bytes: &[u8; LETTERS], e: usize) -> &[u8]
    requires { (bytes.now ≡ letters) × (e < ENTRIES) }
    ensures { result.now ≡ get_or entries e [] }
{
    let (start, size) = layout::PLACES[e];
    let start = usize::from(start);
    &bytes[start..start + usize::from(size)]
}

// Whether two parts of the same length have the same bytes. The library's `==` is a call in the lexing loop: names took 44 percent more instructions
// with it, and keywords 27.
fn spells(p: &[u8], w: &[u8]) -> bool
    requires { length p.now ≡ length w.now }
    ensures { result ≡ same p.now w.now }
{
    p.iter().zip(w).all(|(a, b)| a == b)
}

impl Words {
    fn slot(&self, p: &[u8]) -> usize
        requires { FEWEST ≤ length p.now }
        ensures { result ≡ slot_of self.now.multipliers p.now }
    {
        let [first, second, last] = self.multipliers;
        let n = p.len();
        let bytes = usize::from(first) * usize::from(p[0])
            + usize::from(second) * usize::from(p[1])
            + usize::from(last) * usize::from(p[n - 1]);
        (n + bytes) % SLOTS
    }

    // Which word p is, by the only one that it can be.
    #[inline(always)]
    #[tactic(auto, using(crate::proofs::Held::none_held, crate::proofs::Held::other_length, crate::proofs::Held::spelt))]
    pub(crate) fn which(&self, p: &[u8]) -> Option<u8>
        requires { Finds self.now }
        ensures { result ≡ word_of (listed self.now) p.now }
    {
        if !(FEWEST..=self.longest).contains(&p.len()) {
            return None;
        }
        let k = self.slots[self.slot(p)];
        if k >= self.count {
            return None;
        }
        let w = text_of(&layout::BYTES, self.first + usize::from(k));
        if p.len() != w.len() {
            return None;
        }
        spells(p, w).then_some(k)
    }
}
