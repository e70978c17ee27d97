// Which alternative reads on, by the class of the next token. The tables, written by tools/choice.py, say what grammar's table says, class by
// class. Alternatives are numbers and no enum: a table is a string of bytes, and what it gives is what grammar's table numbers.
ghost use Rattle.std.specs.Prelude.{◌≡◌};
ghost use Rattle.theory.specs.Machine.{choose};
ghost use Rattle.grammar.specs.Shapes.Tables.{table};
ghost use Rattle.grammar.specs.Shapes.TablesIndex.{n-type, n-pattern, n-single, n-alias_name};
ghost use Rattle.parse.specs.Contract.{entry_in, name_sort, head_sort};

use lexer::classes as class;

// Written by tools/choice.py, to the second mark.
// The classes are the numbers below this one.
const CLASSES: u32 = class::LAST + 1;

// Those from this one on are the names of types, which all lead to the same alternative; a table has an entry for each of the others.
const TYPE_NAMES: u32 = class::BOOL_TYPE;

// The alternatives of the classes below those, and what all names of types lead to.
struct Choices {
    of: [u8; TYPE_NAMES as usize],
    named: u32,
}

// At a class that begins none of the alternatives.
pub(crate) const ABSENT: u32 = 0;

// A type.
pub(crate) const EITHER_TYPE: u32 = 1;

pub(crate) const OPTION_TYPE: u32 = 2;

pub(crate) const LIST_TYPE: u32 = 3;

pub(crate) const NAMED_TYPE: u32 = 4;

pub(crate) const TUPLE_TYPE: u32 = 5;

pub(crate) const ARRAY_TYPE: u32 = 6;

const TYPES: Choices = Choices {
    of: *b"\
    \0\0\0\0\0\0\0\0\0\0\0\0\0\0\0\0\
    \0\0\0\0\x05\0\x06\0\0\0\0\0\0\0\0\0\
    \x04\0\0\0\0\x04\x04\x04\x04\x01\x02\x03\x04\x04\x04\x04\
    \x04\x04\x04\x04\0\x04\x04\x04\x04\0\0\0\0\0\0",
    named: NAMED_TYPE,
};

// A pattern.
pub(crate) const NAME_PATTERN: u32 = 1;

pub(crate) const TUPLE_PATTERN: u32 = 2;

pub(crate) const ARRAY_PATTERN: u32 = 3;

const PATTERNS: Choices = Choices {
    of: *b"\
    \0\0\0\0\0\0\0\0\0\0\0\0\0\0\0\0\
    \0\0\0\0\x02\0\x03\0\0\0\0\0\0\0\0\0\
    \x01\0\0\0\0\x01\x01\x01\x01\x01\x01\x01\x01\x01\x01\x01\
    \x01\x01\x01\x01\0\x01\x01\x01\x01\0\0\0\0\0\0",
    named: NAME_PATTERN,
};

// An expression that is no block.
pub(crate) const LITERAL: u32 = 1;

pub(crate) const PARENS: u32 = 2;

pub(crate) const ARRAY: u32 = 3;

pub(crate) const LIST: u32 = 4;

pub(crate) const MATCH: u32 = 5;

pub(crate) const SIMPLE_CALL: u32 = 6;

pub(crate) const CAST_CALL: u32 = 7;

pub(crate) const NAMED: u32 = 8;

pub(crate) const BARE: u32 = 9;

pub(crate) const TYPED: u32 = 10;

pub(crate) const FOLDING: u32 = 11;

pub(crate) const FOR_WHILE: u32 = 12;

const SINGLES: Choices = Choices {
    of: *b"\
    \0\0\0\0\0\0\0\0\0\x05\0\0\0\0\0\0\
    \0\0\0\0\x02\0\x03\0\0\0\x07\0\x01\x01\x01\0\
    \x08\x06\x01\x01\0\x08\x08\x08\x09\x08\x08\x08\x0a\x0a\x0b\x0c\
    \x0a\x08\x09\x09\0\x09\x0b\x09\x0a\x06\x06\x06\x04\x01\x01",
    named: NAMED,
};

// A name.
pub(crate) const RESERVED_NAME: u32 = 1;

pub(crate) const FUNCTION_NAME: u32 = 2;

const NAMES: Choices = Choices {
    of: *b"\
    \0\0\0\0\0\0\0\0\0\0\0\0\0\0\0\0\
    \0\0\0\0\0\0\0\0\0\0\0\0\0\0\0\0\
    \x02\0\0\0\0\x02\x02\x02\x02\x02\x02\x02\x01\x01\x01\x01\
    \x01\x01\x01\x01\0\x01\x01\x01\x01\0\0\0\0\0\0",
    named: FUNCTION_NAME,
};

// A type item's name.
const ALIASES: Choices = Choices {
    of: *b"\
    \0\0\0\0\0\0\0\0\0\0\0\0\0\0\0\0\
    \0\0\0\0\0\0\0\0\0\0\0\0\0\0\0\0\
    \x01\0\0\0\0\x02\x03\x04\x05\0\0\0\x06\x07\x08\x09\
    \x0a\x0b\x0c\x0d\0\x0e\x0f\x10\x11\0\0\0\0\0\0",
    named: ABSENT,
};

// An arm's head, where an arm begins.
pub(crate) const FALSE_HEAD: u32 = 1;

pub(crate) const TRUE_HEAD: u32 = 2;

pub(crate) const NONE_HEAD: u32 = 3;

pub(crate) const WRAPPED_HEAD: u32 = 4;

pub(crate) const NAMED_HEAD: u32 = 5;

const HEADS: Choices = Choices {
    of: *b"\
    \0\0\0\0\0\0\0\0\0\0\0\0\0\0\0\0\
    \0\0\0\0\0\0\0\0\0\0\0\0\0\0\0\0\
    \x05\0\0\0\0\x04\x04\x04\x03\x05\x05\x05\x05\x05\x05\x05\
    \x05\x05\x05\x05\0\x05\x05\x05\x05\0\0\0\0\x01\x02",
    named: NAMED_HEAD,
};

// The second mark: what follows is written by hand.
impl Choices {
    // What a class leads to.
    #[tactic(auto, unfolding(crate::specs::Contract::entry_in))]
    #[inline(always)]
    fn at(&self, class: u32) -> u32
        ensures { result ≡ entry_in self.now.of class self.now.named }
    {
        if class < TYPE_NAMES {
            return u32::from(self.of[class as usize]);
        }
        if class < CLASSES { self.named } else { ABSENT }
    }
}

// Six functions, since each states what its own table means: a row of grammar's table, `name_sort` or `head_sort`. A method of `Choices` knows its bytes alone
// (`entry_in`), and a trait with that meaning as a ghost member would have six impls, each with a proof of its own.
pub(crate) fn types(class: u32) -> u32
    ensures { result ≡ choose table n-type class }
{
    TYPES.at(class)
}

pub(crate) fn patterns(class: u32) -> u32
    ensures { result ≡ choose table n-pattern class }
{
    PATTERNS.at(class)
}

pub(crate) fn singles(class: u32) -> u32
    ensures { result ≡ choose table n-single class }
{
    SINGLES.at(class)
}

pub(crate) fn names(class: u32) -> u32
    ensures { result ≡ name_sort class }
{
    NAMES.at(class)
}

pub(crate) fn aliases(class: u32) -> u32
    ensures { result ≡ choose table n-alias_name class }
{
    ALIASES.at(class)
}

pub(crate) fn heads(class: u32) -> u32
    ensures { result ≡ head_sort class }
{
    HEADS.at(class)
}
