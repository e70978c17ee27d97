// What a record of a kind may own and hold (document 01, the kinds table): decisions over the record kinds and over ranges of
// token classes. A set of groups is a word, one bit a group; what the rules say of each kind is computed in specs/.
#![tactic(auto)]

ghost use Rattle.std.specs.Prelude.{◌≡◌};
ghost use Rattle.own.specs.Numbers.{kind_number};
ghost use Rattle.kinds.specs.Decide.{may_own, may_hold};
ghost use Rattle.kinds.specs.Parts.{part_or_none};
ghost use Rattle.kinds.specs.Groups.{mark_set, group_set, part_set, category_set};

use lexer::classes as class;
use own::kind::Kind;
use part::Part;

mod mark;
pub mod part;

// The group of a token class.
#[tactic(auto, using(crate::proofs::Tables::group_at))]
fn group(class: u32) -> u64
    ensures { result ≡ group_set class }
{
    match class {
        class::PUB | class::FN | class::ARROW => mark::FUNCTION,
        class::LET => mark::LET,
        class::TYPE => mark::TYPE_WORD,
        class::MATCH => mark::MATCH,
        class::DOUBLE_COLON => mark::PATH,
        class::COLON => mark::COLON,
        class::SEMI => mark::SEMI,
        class::COMMA => mark::COMMA,
        class::EQ => mark::EQUALS,
        class::FAT_ARROW => mark::FAT_ARROW,
        class::LPAREN..=class::RPAREN => mark::PARENS,
        class::LBRACKET..=class::RBRACKET => mark::BRACKETS,
        class::LBRACE..=class::RBRACE => mark::BRACES,
        class::LANGLE..=class::RANGLE => mark::ANGLES,
        class::DEC_LITERAL => mark::DECIMAL,
        class::HEX_LITERAL => mark::HEX,
        class::BIN_LITERAL => mark::BINARY,
        class::IDENT => mark::IDENT,
        class::JET => mark::JET,
        class::WITNESS => mark::WITNESS,
        class::PARAM => mark::PARAM,
        class::LEFT => mark::LEFT,
        class::RIGHT => mark::RIGHT,
        class::SOME => mark::SOME,
        class::NONE => mark::NONE,
        class::EITHER => mark::EITHER,
        class::OPTION => mark::OPTION,
        class::LIST => mark::LIST,
        class::UNWRAP_LEFT..=class::UNWRAP | class::INTO..=class::FOLD | class::RAW_HASH =>
            mark::CALLED,
        class::ASSERT..=class::PANIC | class::DBG => mark::RESERVED,
        class::ASSERT_MACRO..=class::DBG_MACRO => mark::MACRO,
        class::LIST_MACRO => mark::LIST_MACRO,
        class::FALSE..=class::TRUE => mark::BOOLEAN,
        class::BOOL_TYPE => mark::BOOL_TYPE,
        class::U1..=class::U256 => mark::UNSIGNED,
        class::CTX8..=class::LAST => mark::BUILTIN,
        _ => 0,
    }
}

// The groups of the marks of a record kind.
#[tactic(auto, using(crate::proofs::Tables::marks_at))]
fn marks(kind: Kind) -> u64
    ensures { result ≡ mark_set (kind_number kind) }
{
    match kind {
        Kind::Function => mark::FUNCTION | mark::PARENS | mark::COMMA,
        Kind::Name => mark::NAMES | mark::JET,
        Kind::Parameter => mark::COLON,
        Kind::Alias => mark::ALIASES,
        Kind::Builtin => mark::BUILTIN,
        Kind::BoolType => mark::BOOL_TYPE,
        Kind::Unsigned => mark::UNSIGNED,
        Kind::EitherType => mark::EITHER | mark::ANGLES | mark::COMMA,
        Kind::OptionType => mark::OPTION | mark::ANGLES,
        Kind::TupleType | Kind::TuplePattern | Kind::Tuple => mark::PARENS | mark::COMMA,
        Kind::ArrayType => mark::BRACKETS | mark::SEMI | mark::DECIMAL,
        Kind::ListType => mark::LIST | mark::ANGLES | mark::COMMA | mark::DECIMAL,
        Kind::IdentifierPattern => mark::NAMES,
        Kind::IgnorePattern => mark::IDENT,
        Kind::ArrayPattern | Kind::Array => mark::BRACKETS | mark::COMMA,
        Kind::Let => mark::LET | mark::COLON | mark::EQUALS,
        Kind::Block => mark::BRACES | mark::SEMI,
        Kind::Left => mark::LEFT | mark::PARENS,
        Kind::Right => mark::RIGHT | mark::PARENS,
        Kind::Some => mark::SOME | mark::PARENS,
        Kind::None => mark::NONE,
        Kind::Boolean => mark::BOOLEAN,
        Kind::Decimal | Kind::Number => mark::DECIMAL,
        Kind::Hexadecimal => mark::HEX,
        Kind::Binary => mark::BINARY,
        Kind::Witness => mark::WITNESS,
        Kind::ParameterValue => mark::PARAM,
        Kind::Variable => mark::VARIABLE,
        Kind::Parenthesised => mark::PARENS,
        Kind::List => mark::LIST_MACRO | mark::BRACKETS | mark::COMMA,
        Kind::EnumConstruction => mark::PATH | mark::PARENS | mark::COMMA,
        Kind::Match | Kind::EnumMatch => mark::MATCH | mark::BRACES,
        Kind::BuiltinArm => mark::LEFT
            | mark::RIGHT
            | mark::NONE
            | mark::SOME
            | mark::BOOLEAN
            | mark::PARENS
            | mark::COLON
            | mark::FAT_ARROW
            | mark::COMMA,
        Kind::EnumArm => mark::PATH | mark::PARENS | mark::COLON | mark::COMMA | mark::FAT_ARROW,
        Kind::Call => mark::CALLED
            | mark::MACRO
            | mark::PATH
            | mark::ANGLES
            | mark::PARENS
            | mark::COMMA,
        Kind::TypeItem => mark::TYPE_WORD | mark::EQUALS | mark::SEMI,
        Kind::Program => 0,
    }
}

// The group of a child kind.
#[tactic(auto, using(crate::proofs::Tables::category_at))]
fn child_group(child: Kind) -> Option<Part>
    ensures { part_or_none result ≡ category_set (kind_number child) }
{
    match child {
        Kind::Function => Some(Part::Function),
        Kind::Name => Some(Part::Name),
        Kind::Parameter => Some(Part::Parameter),
        Kind::Alias
        | Kind::Builtin
        | Kind::BoolType
        | Kind::Unsigned
        | Kind::EitherType
        | Kind::OptionType
        | Kind::TupleType
        | Kind::ArrayType
        | Kind::ListType => Some(Part::Type),
        Kind::IdentifierPattern | Kind::IgnorePattern | Kind::TuplePattern | Kind::ArrayPattern =>
            Some(Part::Pattern),
        Kind::Let => Some(Part::Let),
        Kind::Block => Some(Part::Block),
        Kind::Left
        | Kind::Right
        | Kind::Some
        | Kind::None
        | Kind::Boolean
        | Kind::Decimal
        | Kind::Hexadecimal
        | Kind::Binary
        | Kind::Witness
        | Kind::ParameterValue
        | Kind::Variable
        | Kind::Parenthesised
        | Kind::Tuple
        | Kind::Array
        | Kind::List
        | Kind::EnumConstruction
        | Kind::Match
        | Kind::EnumMatch
        | Kind::Call => Some(Part::Single),
        Kind::BuiltinArm => Some(Part::BuiltinArm),
        Kind::EnumArm => Some(Part::EnumArm),
        Kind::Number => Some(Part::Number),
        Kind::TypeItem => Some(Part::TypeItem),
        Kind::Program => None,
    }
}

// The group of the kind of this number; none, where no kind has it, or it is that of a whole file.
// A kind is a word of a lent buffer, which may hold any number.
#[tactic(auto, using(crate::proofs::Named::no_category))]
pub fn category(child: u32) -> Option<Part>
    ensures { part_or_none result ≡ category_set child }
{
    child_group(Kind::try_from(child).ok()?)
}

// The groups of the children of a record kind; kinds of one token have none.
#[tactic(auto, using(crate::proofs::Tables::parts_at))]
fn parts(kind: Kind) -> u32
    ensures { result ≡ part_set (kind_number kind) }
{
    match kind {
        Kind::Function => part::NAME | part::PARAMETER | part::TYPE | part::BLOCK,
        Kind::Parameter => part::NAME | part::TYPE,
        Kind::EitherType | Kind::OptionType | Kind::TupleType | Kind::ArrayType | Kind::ListType =>
            part::TYPE,
        Kind::TuplePattern | Kind::ArrayPattern => part::PATTERN,
        Kind::Let | Kind::BuiltinArm => part::PATTERN | part::TYPE | part::EXPRESSION,
        Kind::Block => part::LET_STATEMENT | part::EXPRESSION,
        Kind::Left
        | Kind::Right
        | Kind::Some
        | Kind::Parenthesised
        | Kind::Tuple
        | Kind::Array
        | Kind::List => part::EXPRESSION,
        Kind::EnumConstruction => part::NAME | part::EXPRESSION,
        Kind::Match => part::EXPRESSION | part::BUILTIN_ARM,
        Kind::EnumMatch => part::EXPRESSION | part::ENUM_ARM,
        Kind::EnumArm => part::NAME | part::PATTERN | part::TYPE | part::EXPRESSION,
        Kind::Call => part::NAME | part::TYPE | part::NUMBER | part::EXPRESSION,
        Kind::Program => part::FUNCTION_ITEM | part::TYPE_ITEM,
        Kind::TypeItem => part::NAME | part::TYPE,
        Kind::Name
        | Kind::Alias
        | Kind::Builtin
        | Kind::BoolType
        | Kind::Unsigned
        | Kind::IdentifierPattern
        | Kind::IgnorePattern
        | Kind::None
        | Kind::Boolean
        | Kind::Decimal
        | Kind::Hexadecimal
        | Kind::Binary
        | Kind::Witness
        | Kind::ParameterValue
        | Kind::Variable
        | Kind::Number => 0,
    }
}

// Whether a record of the kind may own a token of the class. Both are numbers, as the kind that `category` takes: words of a lent buffer, for each of which
// something is promised.
#[tactic(auto, using(crate::proofs::Tables::owns_at, crate::proofs::Named::owns_none))]
pub fn may_own(kind: u32, class: u32) -> bool
    ensures { result ≡ may_own kind class }
{
    Kind::try_from(kind).is_ok_and(|kind| marks(kind) & group(class) != 0)
}

// Whether a record of the kind may hold a child of that kind. What it shares with `may_own` is one call of the library: one function of both would take the
// sets, words of two widths, as closures.
#[tactic(auto, using(crate::proofs::Tables::holds_at, crate::proofs::Named::holds_none))]
pub fn may_hold(kind: u32, child: u32) -> bool
    ensures { result ≡ may_hold kind child }
{
    Kind::try_from(kind).is_ok_and(|kind| parts(kind) & category(child).map_or(0, u32::from) != 0)
}
