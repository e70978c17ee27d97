// The state that the children of a record begin in, by its kind, low and high; and what low and high say of how many children there are.
ghost use Rattle.std.specs.Prelude.{◌≡◌, ◌<◌};
ghost use Rattle.text.specs.Lists.{has};
ghost use Rattle.load.specs.Children.Begin as spec;
ghost use Rattle.load.specs.Children.Table as table;
ghost use Rattle.load.specs.Checks.Heads.{asked_number, HeadOf, AllHeads};

use crate::record::Record;
use crate::table::HEADS;

// What a kind asks of low and high.
#[derive(Clone, Copy)]
pub(crate) enum Asked {
    // One of its lows, and high 0.
    Low,
    // One of its lows, and high the parameters.
    Parameters,
    // Any number.
    Wide,
    // A bound.
    Bounded,
    // Low the names, and high 0.
    Names,
    // Low the names, and high the pairs.
    Pairs,
    // Low the bits of an unsigned type, and high 0.
    Bits,
}

// What a kind asks of low and high, and the states that the children of such a record begin in, by low.
#[derive(Clone, Copy)]
pub(crate) struct Head {
    pub(crate) asked: Asked,
    pub(crate) begins: &'static [u8],
}

// The state that nothing leads out of. A state of the table like any other, so what follows has no case for it: it leads nowhere and no record ends in it.
const DEAD: usize = 0;

// The unsigned type with the most bits has so many.
const MOST_BITS: u32 = 256;

// Whether there is an unsigned type of so many bits: `u1` to `u256`, powers of two only.
fn is_bits(low: u32) -> bool
    ensures { result ≡ has spec.bits low }
{
    low <= MOST_BITS && low.is_power_of_two()
}

// How many children a record has of the sorts that its low and high may count.
#[derive(Clone, Copy, Default)]
pub(crate) struct Counts {
    pub(crate) names: usize,
    pub(crate) parameters: usize,
    pub(crate) patterns: usize,
}

impl Asked {
    // Which of the lows it is.
    #[tactic(auto, unfolding(crate::specs::Children::Begin::which))]
    fn which(self, low: u32) -> usize
        ensures { result ≡ spec.which (asked_number self) low }
    {
        match self {
            Asked::Low | Asked::Parameters => low as usize,
            _ => 0,
        }
    }

    // What is asked besides, before the children are seen.
    #[tactic(auto, unfolding(crate::specs::Children::Begin::besides, num::specs::Bound::bound_ok))]
    fn besides(self, r: Record) -> bool
        ensures { result ≡ spec.besides (asked_number self) r.low r.high }
    {
        match self {
            Asked::Low | Asked::Names => r.high == 0,
            Asked::Bounded => num::is_bound(Some(r.number())),
            Asked::Bits => is_bits(r.low) && r.high == 0,
            _ => true,
        }
    }

    // Whether the numbers of children are what low and high say.
    #[tactic(auto, unfolding(crate::specs::Children::Begin::agrees))]
    fn agrees(self, r: Record, counts: Counts) -> bool
        ensures { result ≡ spec.agrees (asked_number self) r.low r.high counts.names counts.parameters counts.patterns }
    {
        match self {
            Asked::Parameters => r.high as usize == counts.parameters,
            Asked::Names => r.low as usize == counts.names,
            Asked::Pairs => r.low as usize == counts.names && r.high as usize == counts.patterns,
            _ => true,
        }
    }
}

// The rows of all kinds. They have a function, since specs/ cannot name a static that holds slices.
fn heads() -> &'static [Option<Head>]
    ensures { AllHeads result.now }
{
    &HEADS
}

// The row of a kind, if there is such a kind. A kind is a number, as it stands in its line.
fn head_of(kind: u32) -> Option<Head>
    ensures { HeadOf kind result }
{
    *heads().get(kind as usize)?
}

// The state that the children of a record begin in; the dead one if no form has its low and high.
pub(crate) fn start(r: Record) -> usize
    ensures is { result ≡ spec.start r.kind r.low r.high }
    ensures below { result < table.state_count }
{
    let Some(head) = head_of(r.kind) else {
        return DEAD;
    };
    match head.begins.get(head.asked.which(r.low)) {
        Some(&state) if head.asked.besides(r) => usize::from(state),
        _ => DEAD,
    }
}

// Whether the numbers of children are what the kind, low and high of their record say.
pub(crate) fn agreed(r: Record, counts: Counts) -> bool
    ensures { result ≡ spec.agrees (spec.asked_of r.kind) r.low r.high counts.names counts.parameters counts.patterns }
{
    head_of(r.kind).is_none_or(|head| head.asked.agrees(r, counts))
}
