// Calls by the low of their record, as specs/Calls.antt has them.
ghost use Rattle.std.specs.Prelude.{◌≡◌};
ghost use Rattle.own.specs.Numbers.{call_number};

#[derive(Clone, Copy, PartialEq, Eq, Debug)]
pub enum CallName {
    Jet = 1,
    UnwrapLeft = 2,
    UnwrapRight = 3,
    Unwrap = 4,
    IsNone = 5,
    Assert = 6,
    Panic = 7,
    Debug = 8,
    TypeCast = 9,
    Custom = 10,
    Fold = 11,
    ArrayFold = 12,
    ForWhile = 13,
    RawHash = 14,
}

impl From<CallName> for u32 {
    ghost from_gives = { λ c n. n ≡ call_number c };

    fn from(call: CallName) -> u32 {
        call as u32
    }
}
