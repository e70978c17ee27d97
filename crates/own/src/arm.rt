// Built-in arms by the low of their record, as specs/Arms.antt has them.
ghost use Rattle.std.specs.Prelude.{◌≡◌};
ghost use Rattle.own.specs.Numbers.{arm_number};

#[derive(Clone, Copy, PartialEq, Eq, Debug)]
pub enum MatchPattern {
    Left = 1,
    Right = 2,
    None = 3,
    Some = 4,
    False = 5,
    True = 6,
}

impl From<MatchPattern> for u32 {
    ghost from_gives = { λ a n. n ≡ arm_number a };

    fn from(arm: MatchPattern) -> u32 {
        arm as u32
    }
}
