// Groups of token classes, one bit each, in the order of `groups` (specs/Groups.antt). A set of them is a word, and `|` and `&` are those of words: the
// operators of the library's `bitflags` have no clause, so each in lib.rt would be a call of `union` or `intersection`, and each union below would be spelled
// `Set(IDENT.0 | LEFT.0)`, since a constant's value may call no function.
// `pub`, `fn` and the thin arrow; `let`; `match`.
pub(crate) const FUNCTION: u64 = 1 << 0;

pub(crate) const LET: u64 = 1 << 1;

pub(crate) const MATCH: u64 = 1 << 2;

// Marks: `::`, `:`, `;`, `,`, the fat arrow, the four pairs of brackets.
pub(crate) const PATH: u64 = 1 << 3;

pub(crate) const COLON: u64 = 1 << 4;

pub(crate) const SEMI: u64 = 1 << 5;

pub(crate) const COMMA: u64 = 1 << 6;

pub(crate) const FAT_ARROW: u64 = 1 << 7;

pub(crate) const PARENS: u64 = 1 << 8;

pub(crate) const BRACKETS: u64 = 1 << 9;

pub(crate) const BRACES: u64 = 1 << 10;

pub(crate) const ANGLES: u64 = 1 << 11;

// Numbers; a plain name; jets, witnesses, parameters.
pub(crate) const DECIMAL: u64 = 1 << 12;

pub(crate) const HEX: u64 = 1 << 13;

pub(crate) const BINARY: u64 = 1 << 14;

pub(crate) const IDENT: u64 = 1 << 15;

pub(crate) const JET: u64 = 1 << 16;

pub(crate) const WITNESS: u64 = 1 << 17;

pub(crate) const PARAM: u64 = 1 << 18;

// The names that the rules speak of; reserved words that are called, and those that are not.
pub(crate) const LEFT: u64 = 1 << 19;

pub(crate) const RIGHT: u64 = 1 << 20;

pub(crate) const SOME: u64 = 1 << 21;

pub(crate) const NONE: u64 = 1 << 22;

pub(crate) const EITHER: u64 = 1 << 23;

pub(crate) const OPTION: u64 = 1 << 24;

pub(crate) const LIST: u64 = 1 << 25;

pub(crate) const CALLED: u64 = 1 << 26;

pub(crate) const RESERVED: u64 = 1 << 27;

// The macros that are called; `list!`; `true` and `false`.
pub(crate) const MACRO: u64 = 1 << 28;

pub(crate) const LIST_MACRO: u64 = 1 << 29;

pub(crate) const BOOLEAN: u64 = 1 << 30;

// `=`; `type`; the names of types.
pub(crate) const EQUALS: u64 = 1 << 31;

pub(crate) const TYPE_WORD: u64 = 1 << 32;

pub(crate) const BOOL_TYPE: u64 = 1 << 33;

pub(crate) const UNSIGNED: u64 = 1 << 34;

pub(crate) const BUILTIN: u64 = 1 << 35;

// Any name but `None` and those of types; but `None`; but those of types; and any name.
const PLAIN: u64 = IDENT | LEFT | RIGHT | SOME | EITHER | OPTION | LIST | CALLED | RESERVED;

pub(crate) const VARIABLE: u64 = PLAIN | BOOL_TYPE | UNSIGNED | BUILTIN;

pub(crate) const ALIASES: u64 = PLAIN | NONE;

pub(crate) const NAMES: u64 = VARIABLE | NONE;
