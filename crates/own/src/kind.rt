// The kinds of records, as specs/Kinds.antt has them. A record's first word is its kind's number.
ghost use Rattle.std.specs.Prelude.{◌≡◌};
ghost use Rattle.own.specs.Numbers.{kind_number, NamesKind};

#[derive(Clone, Copy, PartialEq, Eq, Debug)]
pub enum Kind {
    Function = 1,
    Name = 2,
    Parameter = 3,
    // Types.
    Alias = 4,
    Builtin = 5,
    BoolType = 6,
    Unsigned = 7,
    EitherType = 8,
    OptionType = 9,
    TupleType = 10,
    ArrayType = 11,
    ListType = 12,
    // Patterns; the second is `_`.
    IdentifierPattern = 13,
    IgnorePattern = 14,
    TuplePattern = 15,
    ArrayPattern = 16,
    // A `let`, and a block.
    Let = 17,
    Block = 18,
    // Expressions.
    Left = 19,
    Right = 20,
    Some = 21,
    None = 22,
    Boolean = 23,
    Decimal = 24,
    Hexadecimal = 25,
    Binary = 26,
    Witness = 27,
    ParameterValue = 28,
    Variable = 29,
    Parenthesised = 30,
    Tuple = 31,
    Array = 32,
    List = 33,
    EnumConstruction = 34,
    Match = 35,
    EnumMatch = 36,
    // Arms.
    BuiltinArm = 37,
    EnumArm = 38,
    // A call, and a number in it.
    Call = 39,
    Number = 40,
    // A whole file, and a type item.
    Program = 41,
    TypeItem = 42,
}

// The kinds are 1 to this.
pub const LAST: u32 = Kind::TypeItem as u32;

// A number that no kind has.
#[derive(Clone, Copy, PartialEq, Eq, Debug)]
pub struct NoKind(pub u32);

impl From<Kind> for u32 {
    ghost from_gives = { λ k n. n ≡ kind_number k };

    fn from(kind: Kind) -> u32 {
        kind as u32
    }
}

impl TryFrom<u32> for Kind {
    type Error = NoKind;

    ghost try_from_gives = { NamesKind };

    fn try_from(number: u32) -> Result<Self, NoKind> {
        match number {
            1 => Ok(Kind::Function),
            2 => Ok(Kind::Name),
            3 => Ok(Kind::Parameter),
            4 => Ok(Kind::Alias),
            5 => Ok(Kind::Builtin),
            6 => Ok(Kind::BoolType),
            7 => Ok(Kind::Unsigned),
            8 => Ok(Kind::EitherType),
            9 => Ok(Kind::OptionType),
            10 => Ok(Kind::TupleType),
            11 => Ok(Kind::ArrayType),
            12 => Ok(Kind::ListType),
            13 => Ok(Kind::IdentifierPattern),
            14 => Ok(Kind::IgnorePattern),
            15 => Ok(Kind::TuplePattern),
            16 => Ok(Kind::ArrayPattern),
            17 => Ok(Kind::Let),
            18 => Ok(Kind::Block),
            19 => Ok(Kind::Left),
            20 => Ok(Kind::Right),
            21 => Ok(Kind::Some),
            22 => Ok(Kind::None),
            23 => Ok(Kind::Boolean),
            24 => Ok(Kind::Decimal),
            25 => Ok(Kind::Hexadecimal),
            26 => Ok(Kind::Binary),
            27 => Ok(Kind::Witness),
            28 => Ok(Kind::ParameterValue),
            29 => Ok(Kind::Variable),
            30 => Ok(Kind::Parenthesised),
            31 => Ok(Kind::Tuple),
            32 => Ok(Kind::Array),
            33 => Ok(Kind::List),
            34 => Ok(Kind::EnumConstruction),
            35 => Ok(Kind::Match),
            36 => Ok(Kind::EnumMatch),
            37 => Ok(Kind::BuiltinArm),
            38 => Ok(Kind::EnumArm),
            39 => Ok(Kind::Call),
            40 => Ok(Kind::Number),
            41 => Ok(Kind::Program),
            42 => Ok(Kind::TypeItem),
            _ => Err(NoKind(number)),
        }
    }
}
