// The walk over a record's children: each stands inside its place, together they are all that is beneath it, and an automaton takes them in their order.
ghost use Rattle.std.specs.Prelude.{◌≡◌, true, ◌+◌, ◌*◌, ◌<◌, ◌≤◌, length, get_or};
ghost use Rattle.own.specs.Flat.{blank, children};
ghost use Rattle.load.specs.Children.Table as table;
ghost use Rattle.load.specs.Children.Cue.{cues};
ghost use Rattle.load.specs.Children.Automaton.{entry};
ghost use Rattle.load.specs.Children.Run as run;
ghost use Rattle.load.specs.Checks.Listed.{its_records};
ghost use Rattle.load.specs.Checks.Judge as spec;
ghost use Rattle.load.specs.Checks.Judge.{as_rec};
ghost use Rattle.load.specs.Checks.Small.{Small, Below};

use crate::begin::Counts;
use crate::form::Listing;
use crate::record::Record;
use crate::table::STATES;
use crate::{begin, cue};

// What has been found so far: how many records are left beneath the parent, the automaton's state, and how many children there are of the sorts that are
// counted. That the state is one of the table's, `past` asks and `walk` promises: the definitions build what is seen (specs/Checks/Judge.antt), and with that
// fact in this struct each of them would have to prove it.
#[derive(Drop)]
pub(crate) struct Seen {
    pub(crate) left: usize,
    pub(crate) state: usize,
    pub(crate) counts: Counts,
}

// A state of the automaton: by cue the state after a child, and whether a record may end in it. A state is told by its place in the table, as the bytes of
// `next` have it: an enum of them would be so many cases without names.
#[derive(Clone, Copy)]
pub(crate) struct State {
    pub(crate) next: [u8; cue::CUES],
    pub(crate) ends: bool,
}

// The state after a child of this cue.
fn next(state: usize, cue: usize) -> usize
    requires state_lt_state_count { state < table.state_count }
    requires cue_lt_cues { cue < cues }
    ensures is { result ≡ entry state cue }
    ensures below { result < table.state_count }
{
    usize::from(STATES[state].next[cue])
}

// Whether a record may end in this state.
pub(crate) fn ends(state: usize) -> bool
    requires state_lt_state_count { state < table.state_count }
    ensures { result ≡ run.ended state }
{
    STATES[state].ends
}

// Whether a child stands among the records that are left, inside the place of its parent.
#[tactic(auto, unfolding(crate::specs::Checks::Judge::sits))]
fn sits(left: usize, parent: Record, child: Record) -> bool
    ensures { result ≡ spec.sits left (as_rec parent) (as_rec child) }
{
    0 < child.size
        && child.size as usize <= left
        && parent.start <= child.start
        && child.end <= parent.end
}

// What is found past one child more. Laid out where it is called, as `cue` is, which the compiler does by itself for one walk and not for two.
#[inline(always)]
fn past(seen: Seen, child: Record) -> Seen
    requires small { Small seen }
    requires size_nonzero { 0 < child.size }
    requires size_le_left { child.size ≤ seen.left }
    ensures { result ≡ spec.past seen (as_rec child) }
{
    let its = cue::cue(child);
    Seen {
        left: seen.left - child.size as usize,
        state: next(seen.state, its),
        counts: Counts {
            names: seen.counts.names + usize::from(its == cue::NAME),
            parameters: seen.counts.parameters + usize::from(its == cue::PARAMETER),
            patterns: seen.counts.patterns + usize::from(its == cue::PATTERN),
        },
    }
}

// What is seen of all children of the record at line j; nothing, if one of them does not sit. The line of the next child is known when the one before it has
// been read, so no range has their lines. `successors` ends with `None`, both behind the last child and at one that does not sit, so it would have to be
// asked again which of the two it was. An iterator of its own would have the ghost members `next_gives` and `remaining`, and answer a `Result` for a child
// that does not sit, to be taken apart here again.
pub(crate) fn walk<const N: usize>(listing: &Listing<N>, j: usize, parent: Record) -> Option<Seen>
    requires parent_value { as_rec parent ≡ get_or (its_records listing.now) j blank }
    requires size_nonzero { 0 < parent.size }
    requires size_in_bounds { j + parent.size ≤ length (its_records listing.now) }
    ensures is { result ≡ spec.judge (as_rec parent) (spec.begun (as_rec parent)) (children (its_records listing.now) j) }
    ensures below { Below result }
{
    let mut i = j + 1;
    let mut seen = Seen {
        left: parent.size as usize - 1,
        state: begin::start(parent),
        counts: Counts::default(),
    };
    while 0 < seen.left {
        let child = listing.record(i);
        if !sits(seen.left, parent, child) {
            return None;
        }
        i += child.size as usize;
        seen = past(seen, child);
    }
    Some(seen)
}
