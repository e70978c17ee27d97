// The classes of bytes by number, as specs/Bytes.antt has them, ordered so that each run of bytes is a range of them.
// Numbers and no enum: document 01 names a table of 256, which is one byte string as numbers and 256 names of an enum; and what is asked of a class is mostly
// whether it is in a range, as the lines below have them.
use crate::classes as class;

// Names are UNDERSCORE to LETTER; numbers UNDERSCORE to BINARY_DIGIT, DIGIT or HEX_LETTER by their base.
pub(crate) const UNDERSCORE: u8 = 0;

pub(crate) const BINARY_DIGIT: u8 = 1;

pub(crate) const DIGIT: u8 = 2;

pub(crate) const HEX_LETTER: u8 = 3;

pub(crate) const LETTER: u8 = 4;

pub(crate) const SLASH: u8 = 5;

// What may be a mark is MINUS to OTHER; a mark of one byte has the number of its kind.
pub(crate) const MINUS: u8 = 13;

pub(crate) const COLON: u8 = class::COLON as u8;

pub(crate) const SEMI: u8 = class::SEMI as u8;

pub(crate) const COMMA: u8 = class::COMMA as u8;

pub(crate) const EQ: u8 = class::EQ as u8;

pub(crate) const LPAREN: u8 = class::LPAREN as u8;

pub(crate) const RANGLE: u8 = class::RANGLE as u8;

pub(crate) const OTHER: u8 = 28;

// Whitespace is SPACE to LINE_END. A byte over 127 is what is left, 31.
pub(crate) const SPACE: u8 = 29;

pub(crate) const LINE_END: u8 = 30;
