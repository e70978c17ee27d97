// The classes of tokens by number, as specs/Classes.antt has them: a token's kind, 1 to 36 in the order of `Token`, or the word or macro that it is.
// Numbers and no enum: the kinds are words of a lent buffer, which may hold any number, and `class` answers for each.
// Keywords.
pub const PUB: u32 = 1;

pub const USE: u32 = 2;

pub const AS: u32 = 3;

pub const FN: u32 = 4;

pub const LET: u32 = 5;

pub const TYPE: u32 = 6;

pub const MOD: u32 = 7;

pub const CONST: u32 = 8;

pub const MATCH: u32 = 9;

pub const ENUM: u32 = 10;

pub const CRATE: u32 = 11;

pub const SIMC: u32 = 12;

// Control symbols.
pub const ARROW: u32 = 13;

pub const DOUBLE_COLON: u32 = 14;

pub const COLON: u32 = 15;

pub const SEMI: u32 = 16;

pub const COMMA: u32 = 17;

pub const EQ: u32 = 18;

pub const FAT_ARROW: u32 = 19;

pub const LPAREN: u32 = 20;

pub const RPAREN: u32 = 21;

pub const LBRACKET: u32 = 22;

pub const RBRACKET: u32 = 23;

pub const LBRACE: u32 = 24;

pub const RBRACE: u32 = 25;

pub const LANGLE: u32 = 26;

pub const RANGLE: u32 = 27;

// Numbers, booleans, names, jets, witnesses, parameters, macros. Bool and Macro are kinds and no classes: each of their words has its own, below.
pub const DEC_LITERAL: u32 = 28;

pub const HEX_LITERAL: u32 = 29;

pub const BIN_LITERAL: u32 = 30;

pub const BOOL: u32 = 31;

pub const IDENT: u32 = 32;

pub const JET: u32 = 33;

pub const WITNESS: u32 = 34;

pub const PARAM: u32 = 35;

pub const MACRO: u32 = 36;

// The words that the rules speak of have the classes from here on, in the order of RULE_WORDS:
pub const WORDS: u32 = 37;

// names,
pub const LEFT: u32 = 37;

pub const RIGHT: u32 = 38;

pub const SOME: u32 = 39;

pub const NONE: u32 = 40;

pub const EITHER: u32 = 41;

pub const OPTION: u32 = 42;

pub const LIST: u32 = 43;

// The words of FUNCTION_RESERVED (`match` is a keyword, so class 52 never occurs).
pub const UNWRAP_LEFT: u32 = 44;

pub const UNWRAP_RIGHT: u32 = 45;

pub const ARRAY_FOLD: u32 = 46;

pub const FOR_WHILE: u32 = 47;

pub const IS_NONE: u32 = 48;

pub const UNWRAP: u32 = 49;

pub const ASSERT: u32 = 50;

pub const PANIC: u32 = 51;

pub const INTO: u32 = 53;

pub const FOLD: u32 = 54;

pub const DBG: u32 = 55;

pub const RAW_HASH: u32 = 56;

// Macros.
pub const ASSERT_MACRO: u32 = 57;

pub const PANIC_MACRO: u32 = 58;

pub const DBG_MACRO: u32 = 59;

pub const LIST_MACRO: u32 = 60;

// Booleans.
pub const FALSE: u32 = 61;

pub const TRUE: u32 = 62;

// The names of types: `bool`; the unsigned types, `u1` to `u256`; the built-in aliases, `Ctx8` to the last.
pub const BOOL_TYPE: u32 = 63;

pub const U1: u32 = 64;

pub const U256: u32 = 72;

pub const CTX8: u32 = 73;

// The last class.
pub const LAST: u32 = 96;
