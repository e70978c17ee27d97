// The arms of a match: their order as a number, and what follows from it.
ghost use Rattle.std.specs.Prelude.{◌≡◌, ◌≤◌, ◌||◌, if◌then◌else◌, ◌==◌, nat_eq};
ghost use Rattle.own.specs.Arms as arm;
ghost use Rattle.own.specs.Numbers.{kind_number};
ghost use Rattle.parse.specs.Orders as orders;
ghost use Rattle.parse.specs.Infos.{arm_kind, arm_low, arm_high, ArmKind, pair_arm, after_arm, order_kind, order_fault, Arranged};

use crate::heads::NO_NAMES;
use crate::tree::{self, Head};
use own::arm::MatchPattern;
use own::kind::Kind;
use text::refusal::Refusal;

// The order of arms, as specs/Orders.antt has it: a number, since it is one of the two that a step has, and all steps are of one type (lib.rt says why).
// None yet, or one built-in arm, by its low; enum arms;
pub(crate) const NO_ARM: u32 = 0;

const ENUMS: u32 = 7;

// two built-in arms that are partners, in the canonical order and the other way round; two that are no partners;
const PAIRED: u32 = 8;

const TURNED: u32 = 9;

const UNPAIRED: u32 = 10;

// more than two; enum and built-in arms.
const MORE: u32 = 11;

const MIXED: u32 = 12;

// The lows of built-in arms; by `as`, since `From` makes no constant.
const LEFT: u32 = MatchPattern::Left as u32;

const RIGHT: u32 = MatchPattern::Right as u32;

const NONE: u32 = MatchPattern::None as u32;

const SOME: u32 = MatchPattern::Some as u32;

const FALSE: u32 = MatchPattern::False as u32;

const TRUE: u32 = MatchPattern::True as u32;

// The record of an arm: a built-in one where there is no name, otherwise an enum arm. The two numbers are those of its head's step (lib.rt says why there
// are two of them for all steps).
#[tactic(auto, unfolding(crate::specs::Infos::arm_kind, crate::specs::Infos::arm_low, crate::specs::Infos::arm_high))]
pub(crate) fn head(number: u32, other: u32) -> Head
    ensures { (kind_number result.kind ≡ arm_kind number) × (result.low ≡ arm_low number other) × (result.high ≡ arm_high number other) }
{
    if number == NO_NAMES {
        return Head {
            kind: Kind::BuiltinArm,
            low: other,
            high: 0,
        };
    }
    Head {
        kind: Kind::EnumArm,
        low: number,
        high: other,
    }
}

// The order of two built-in arms.
#[tactic(auto, unfolding(crate::specs::Infos::pair_arm, own::specs::Tree::partner))]
fn pair(a: u32, b: u32) -> u32
    requires { (a ≤ arm.True) × (b ≤ arm.True) }
    ensures { result ≡ pair_arm a b }
{
    match (a, b) {
        (LEFT, RIGHT) | (NONE, SOME) | (FALSE, TRUE) => PAIRED,
        (RIGHT, LEFT) | (SOME, NONE) | (TRUE, FALSE) => TURNED,
        _ => UNPAIRED,
    }
}

// The order of arms with one arm more.
// An arm comes as its kind and low, the two numbers of its step.
#[tactic(auto, unfolding(crate::specs::Infos::after_arm))]
pub(crate) fn after(order: u32, kind: u32, low: u32) -> u32
    requires { ArmKind kind low }
    ensures { result ≡ after_arm order kind low }
{
    if kind == u32::from(Kind::EnumArm) {
        return with_enum(order);
    }
    match order {
        NO_ARM => low,
        ENUMS | MIXED => MIXED,
        PAIRED.. => MORE,
        _ => pair(order, low),
    }
}

fn with_enum(order: u32) -> u32
    ensures { result ≡ (if nat_eq order 0 || order == orders.Enums then orders.Enums else orders.Mixed) }
{
    match order {
        NO_ARM | ENUMS => ENUMS,
        _ => MIXED,
    }
}

// The first record after the first arm.
pub(crate) fn first_end(order: u32, mid: u32, out: u32) -> u32
    ensures { result ≡ (if nat_eq order 0 then out else mid) }
{
    if order == NO_ARM { out } else { mid }
}

// The kind of a match: another one with an enum arm among its arms.
#[tactic(auto, unfolding(crate::specs::Infos::order_kind))]
pub(crate) fn kind(order: u32) -> Kind
    ensures { kind_number result ≡ order_kind order }
{
    match order {
        ENUMS | MIXED => Kind::EnumMatch,
        _ => Kind::Match,
    }
}

// The refusal of a match with these arms, if there is one. Three arms answer `None`: as one (`ENUMS | PAIRED | TURNED`, or a range, or put first) they were
// tried, and the case `matches` of bench/reader took 0.5 percent more instructions, more than before the forms of today (docs/DESIGN-PASS.md).
#[tactic(auto, unfolding(crate::specs::Infos::order_fault))]
pub(crate) fn fault(order: u32) -> Option<Refusal>
    ensures { result ≡ order_fault order }
{
    match order {
        NO_ARM => Some(Refusal::NoArms),
        ENUMS => None,
        PAIRED => None,
        TURNED => None,
        UNPAIRED => Some(Refusal::NoPartners),
        MIXED => Some(Refusal::MixedArms),
        _ => Some(Refusal::ArmCount),
    }
}

// Arms that are partners written the other way round are exchanged.
pub(crate) fn arrange(tree: &mut [u32], order: u32, from: u32, mid: u32, to: u32)
    ensures { Arranged order tree.old from mid to tree.new }
{
    if order == TURNED {
        tree::exchange(tree, from, mid, to);
    }
}
