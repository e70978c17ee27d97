// Whether the records of a listing form a whole function or program: each is read once for itself, and once as a child.
ghost use Rattle.std.specs.Prelude.{◌≡◌, ◌<◌, length};
ghost use Rattle.load.specs.Function as function;
ghost use Rattle.load.specs.FunctionTest as test;
ghost use Rattle.load.specs.Checks.Listed.{its_records};
ghost use Rattle.load.specs.Checks.Judge as spec;
ghost use Rattle.load.specs.Checks.Judge.{as_rec};
ghost use Rattle.load.specs.Checks.Small.{Below};
ghost use Rattle.load.specs.Checks.Stands as standing;

use crate::form::Listing;
use crate::record::Record;
use crate::walk::Seen;
use crate::{begin, walk};
use own::kind::Kind;

// What the walk over its children says of a record.
#[tactic(auto, unfolding(crate::specs::Checks::Judge::verdict))]
fn verdict(r: Record, walked: Option<Seen>) -> bool
    requires below { Below walked }
    ensures { result ≡ spec.verdict (as_rec r) walked }
{
    walked.is_some_and(|seen| walk::ends(seen.state) && begin::agreed(r, seen.counts))
}

// Whether a record starts before it ends; a program may be empty.
#[tactic(auto, unfolding(crate::specs::FunctionTest::placed))]
fn placed(r: Record) -> bool
    ensures { result ≡ test.placed (as_rec r) }
{
    r.is(Kind::Program) || r.start < r.end
}

// Whether the record of line j stands in the listing with all that it counts, and is right.
fn stands<const N: usize>(listing: &Listing<N>, j: usize) -> bool
    requires { j < length (its_records listing.now) }
    ensures { result ≡ standing.stands (its_records listing.now) j }
{
    let r = listing.record(j);
    let left = listing.count() - j;
    r.size != 0 && r.size as usize <= left && placed(r) && verdict(r, walk::walk(listing, j, r))
}

// Whether a record may be the top of a listing: a function, or a program that starts at 0.
fn is_top(r: Record) -> bool
    ensures { result ≡ function.is_top (as_rec r) }
{
    r.is(Kind::Function) || (r.is(Kind::Program) && r.start == 0)
}

// Whether the records of a listing form a whole function or program.
// A loop over the lines: `all` would take a closure that holds the listing, and the check refuses one that holds a type with a constant among its parameters.
pub(crate) fn is_whole<const N: usize>(listing: &Listing<N>) -> bool
    ensures { result ≡ test.is_whole (its_records listing.now) }
{
    let n = listing.count();
    if n == 0 {
        return false;
    }
    let top = listing.record(0);
    if !is_top(top) {
        return false;
    }
    if top.size as usize != n {
        return false;
    }
    for j in 0..n {
        if !stands(listing, j) {
            return false;
        }
    }
    true
}
