// Groups of child kinds, in the order of `categories` (specs/Groups.antt); the families are those of specs/Families.antt.
// The group of one kind is a `Part`; a set of them is a word, one bit a group, and `|` and `&` are those of words, as mark.rt says.
ghost use Rattle.std.specs.Prelude.{◌≡◌};
ghost use Rattle.kinds.specs.Parts.{part_number};

#[derive(Clone, Copy, PartialEq, Eq, Debug)]
pub enum Part {
    Name = 1 << 0,
    Parameter = 1 << 1,
    Type = 1 << 2,
    Pattern = 1 << 3,
    Let = 1 << 4,
    Block = 1 << 5,
    Single = 1 << 6,
    BuiltinArm = 1 << 7,
    EnumArm = 1 << 8,
    Number = 1 << 9,
    Function = 1 << 10,
    TypeItem = 1 << 11,
}

impl From<Part> for u32 {
    ghost from_gives = { λ p n. n ≡ part_number p };

    fn from(part: Part) -> u32 {
        part as u32
    }
}

// Their words, so that a set in lib.rt is spelled without a cast for each group. Each is that of its `Part`, so that no number stands twice.
pub(crate) const NAME: u32 = Part::Name as u32;

pub(crate) const PARAMETER: u32 = Part::Parameter as u32;

pub(crate) const TYPE: u32 = Part::Type as u32;

pub(crate) const PATTERN: u32 = Part::Pattern as u32;

pub(crate) const LET_STATEMENT: u32 = Part::Let as u32;

pub(crate) const BLOCK: u32 = Part::Block as u32;

pub(crate) const BUILTIN_ARM: u32 = Part::BuiltinArm as u32;

pub(crate) const ENUM_ARM: u32 = Part::EnumArm as u32;

pub(crate) const NUMBER: u32 = Part::Number as u32;

pub(crate) const FUNCTION_ITEM: u32 = Part::Function as u32;

pub(crate) const TYPE_ITEM: u32 = Part::TypeItem as u32;

pub(crate) const EXPRESSION: u32 = BLOCK | Part::Single as u32;
