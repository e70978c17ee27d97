// The cue of a child: children that no rule tells apart have the same. Crate `kinds` says which category a kind is of.
ghost use Rattle.std.specs.Prelude.{◌≡◌, ◌<◌};
ghost use Rattle.load.specs.Children.Cue as spec;

use crate::record::Record;
use kinds::part::Part;
use own::arm::MatchPattern;

// A cue is a number, since it is an index into the next states. An enum of cues would be 21 cases here, 21 rows in specs/ that give their numbers and a match
// of the six arms, in place of 15 constants and one sum.
// OTHER is that of a kind that is no child's; then there is one for each category, in their order. ARM is an arm whose low no rule names, ZERO the number 0.
const OTHER: usize = 0;

pub(crate) const NAME: usize = 1;

pub(crate) const PARAMETER: usize = 2;

const TYPE: usize = 3;

pub(crate) const PATTERN: usize = 4;

const LET: usize = 5;

const BLOCK: usize = 6;

const SINGLE: usize = 7;

const ARM: usize = 8;

const ENUM_ARM: usize = 9;

const ZERO: usize = 10;

const FUNCTION: usize = 11;

const TYPE_ITEM: usize = 12;

// The arms that rules name have the cues behind this one, by their low; then a number that is a bound, and any other number but 0.
const ARMS: usize = TYPE_ITEM;

const FIRST_ARM: u32 = MatchPattern::Left as u32;

const LAST_ARM: u32 = MatchPattern::True as u32;

const BOUND: usize = 19;

const SIZE: usize = 20;

// How many there are.
pub(crate) const CUES: usize = 21;

// The cue of a built-in arm.
#[tactic(auto, unfolding(crate::specs::Children::Cue::arm_cue))]
fn arm_cue(low: u32) -> usize
    ensures { result ≡ spec.arm_cue low }
{
    if (FIRST_ARM..=LAST_ARM).contains(&low) {
        ARMS + low as usize
    } else {
        ARM
    }
}

// The cue of a number.
#[tactic(auto, unfolding(crate::specs::Children::Cue::number_cue, num::specs::Bound::bound_ok))]
fn number_cue(n: u64) -> usize
    ensures { result ≡ spec.number_cue n }
{
    if num::is_bound(Some(n)) {
        return BOUND;
    }
    if n == 0 {
        return ZERO;
    }
    SIZE
}

// The cue of a child, by its kind, low and high. Laid out where it is called: what it does not look at is then not read.
#[inline(always)]
#[tactic(auto, using(crate::proofs::CueLaws::cue_by), unfolding(crate::specs::Children::Cue::place_from, crate::specs::Children::Cue::refined))]
pub(crate) fn cue(child: Record) -> usize
    ensures { result ≡ spec.cue child.kind child.low child.high }
{
    match kinds::category(child.kind) {
        None => OTHER,
        Some(Part::Name) => NAME,
        Some(Part::Parameter) => PARAMETER,
        Some(Part::Type) => TYPE,
        Some(Part::Pattern) => PATTERN,
        Some(Part::Let) => LET,
        Some(Part::Block) => BLOCK,
        Some(Part::Single) => SINGLE,
        Some(Part::BuiltinArm) => arm_cue(child.low),
        Some(Part::EnumArm) => ENUM_ARM,
        Some(Part::Number) => number_cue(child.number()),
        Some(Part::Function) => FUNCTION,
        Some(Part::TypeItem) => TYPE_ITEM,
    }
}
