// Bytes of a draft by their lexeme class, and runs of them.
ghost use Rattle.std.specs.Prelude.{true, ◌≡◌, ◌+◌, ◌≤◌, ◌<◌, length, get_or, drop};
ghost use Rattle.lexer.specs.Chars.{run};
ghost use Rattle.lexer.specs.Bytes.{byte_class, in_classes, ClassTable};

use crate::table::CLASSES;

// The class of each byte. The lexing loop holds the table by value beside its other values, where reading an entry takes no address of its own: with
// a reference to a constant table, names and digits took 2 percent more instructions.
#[derive(Drop)]
pub struct Classes {
    of: [u8; 256],
    ghost right: { ClassTable of },
}

impl Classes {
    pub fn new() -> Self
        ensures { ClassTable result.of }
    {
        Classes { of: CLASSES }
    }

    pub(crate) fn of(&self, b: u8) -> u8
        ensures { result ≡ byte_class b }
    {
        self.of[usize::from(b)]
    }

    // Where the run of bytes of the classes from least to most that starts at i ends. Least and most are two numbers: a `RangeInclusive` also says whether it
    // is used up, which the contract would have to exclude, as that of `utf8::second` does.
    pub(crate) fn run_end(&self, s: &[u8], i: usize, least: u8, most: u8) -> usize
        requires { i ≤ length s.now }
        ensures { result ≡ i + run (in_classes least most) (drop i s.now) }
    {
        s[i..]
            .iter()
            .position(|b| !(least..=most).contains(&self.of(*b)))
            .map_or(s.len(), |n| i + n)
    }

    // Whether the class of a byte is from least to most.
    #[tactic(auto, unfolding(crate::specs::Bytes::in_classes))]
    #[inline(always)]
    fn within(&self, b: u8, least: u8, most: u8) -> bool
        ensures { result ≡ in_classes least most b }
    {
        (least..=most).contains(&self.of(b))
    }

    // As `run_end`, with one look at the draft's end for four bytes: a name of fourteen letters takes a third fewer instructions.
    #[inline(always)]
    pub(crate) fn long_run_end(&self, s: &[u8], i: usize, least: u8, most: u8) -> usize
        requires { i ≤ length s.now }
        ensures { result ≡ i + run (in_classes least most) (drop i s.now) }
    {
        let mut at = i;
        while 4 <= s.len() - at {
            if !self.within(s[at], least, most) {
                return at;
            }
            if !self.within(s[at + 1], least, most) {
                return at + 1;
            }
            if !self.within(s[at + 2], least, most) {
                return at + 2;
            }
            if !self.within(s[at + 3], least, most) {
                return at + 3;
            }
            at += 4;
        }
        self.run_end(s, at, least, most)
    }
}
