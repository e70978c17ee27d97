// Which word of a table a part of a draft is, from constant tables of byte offsets and lengths.
#![tactic(auto)]

ghost use Rattle.std.specs.Prelude.{◌≡◌};
ghost use Rattle.text.specs.Part.{part_of};
ghost use Rattle.words.specs.Words.{words_of, word_of};
ghost use Rattle.words.specs.Lies.{listed, Finds};

use lookup::Words;

// Constant tables of byte offsets and lengths, as document 01 names them.
mod layout;
mod lookup;

// The tables of words; `words_of` lists the words of each.
#[derive(Clone, Copy, PartialEq, Eq, Debug)]
pub enum Table {
    FunctionReserved,
    Keywords,
    Macros,
    ModuleReserved,
    RuleWords,
}

impl Table {
    fn words(self) -> &'static Words
        ensures { Finds result.now × (listed result.now ≡ words_of self) }
    {
        match self {
            Table::FunctionReserved => &layout::FUNCTION_RESERVED,
            Table::Keywords => &layout::KEYWORDS,
            Table::Macros => &layout::MACROS,
            Table::ModuleReserved => &layout::MODULE_RESERVED,
            Table::RuleWords => &layout::RULE_WORDS,
        }
    }
}

// Which word of the table p is: its place in the table.
#[inline(always)]
pub fn which(table: Table, p: &[u8]) -> Option<u8>
    ensures { result ≡ word_of (words_of table) p.now }
{
    table.words().which(p)
}

// Which word of the table the part of the draft from start up to end is. Start and end may be any numbers, as those of `text::part`, so a struct of them
// could keep no fact.
#[inline(always)]
pub fn word(table: Table, draft: &[u8], start: usize, end: usize) -> Option<u8>
    ensures { result ≡ word_of (words_of table) (part_of draft.now start end) }
{
    which(table, text::part(draft, start, end))
}
