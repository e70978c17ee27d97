// The tree buffer: so many words a record, written where they fit. It stays words and no rows: std says nothing of what `as_chunks_mut` leaves.
ghost use Rattle.std.specs.Prelude.{◌≡◌, ◌-◌};
ghost use Rattle.grammar.specs.Records.Records.{low_half, high_half};
ghost use Rattle.own.specs.Kinds as kind;
ghost use Rattle.own.specs.Numbers.{kind_number, call_number};
ghost use Rattle.own.specs.declared.kind.Kind.TheVariants as kinds;
ghost use Rattle.parse.specs.Contract.{reserved, Put, PutNumber, Turned};

use crate::State;
use own::call::CallName;
use own::kind::Kind;
use text::RECORD_WORDS;

// The state with a record more.
#[tactic(auto, unfolding(crate::specs::Contract::reserved))]
pub(crate) fn reserve(st: State) -> State
    ensures { result ≡ reserved st }
{
    State {
        out: st.out.wrapping_add(1),
        ..st
    }
}

// What a record says of itself beside its place and its size: its kind, and the two numbers that go with the kind.
#[derive(Clone, Copy, PartialEq, Eq, Debug)]
pub(crate) struct Head {
    pub(crate) kind: Kind,
    pub(crate) low: u32,
    pub(crate) high: u32,
}

impl Head {
    // Of a kind alone.
    pub(crate) fn plain(kind: Kind) -> Head
        ensures { result ≡ record { kind = kind; low = 0; high = 0 } }
    {
        Head::with_low(kind, 0)
    }

    // Of a kind and a first number.
    pub(crate) fn with_low(kind: Kind, low: u32) -> Head
        ensures { result ≡ record { kind = kind; low = low; high = 0 } }
    {
        Head { kind, low, high: 0 }
    }

    // Of a call.
    pub(crate) fn of_call(name: CallName) -> Head
        ensures { result ≡ record { kind = kinds.Call; low = call_number name; high = 0 } }
    {
        Head::with_low(Kind::Call, u32::from(name))
    }

    // Of a kind and the two halves of a number. Each half fits a word by the mask or the shift: `u32::try_from` would have an `Err` that never comes.
    #[tactic(auto, unfolding(grammar::specs::Records::Records::low_half, grammar::specs::Records::Records::high_half))]
    fn of_number(kind: Kind, n: u64) -> Head
        ensures { result ≡ record { kind = kind; low = low_half n; high = high_half n } }
    {
        Head {
            kind,
            low: (n & u64::from(u32::MAX)) as u32,
            high: (n >> u32::BITS) as u32,
        }
    }
}

// Writes the record of this number, if it fits: by a test and no `get_mut`, and `text::clear_from` says why.
fn put(tree: &mut [u32], here: u32, head: Head, start: u32, end: u32, size: u32)
    ensures { Put tree.old here (kind_number head.kind) start end head.low head.high size tree.new }
{
    let base = RECORD_WORDS * here as usize;
    if base + RECORD_WORDS <= tree.len() {
        let words = [
            u32::from(head.kind),
            start,
            end,
            head.low,
            head.high,
            size,
            0,
        ];
        tree[base..base + RECORD_WORDS].copy_from_slice(&words);
    }
}

// Writes the record that was reserved at the first state, over all that was read up to the second. This, `close_number`, `child`, `name` and `decimal` take the
// buffer and two states: a struct of the states would be made at each call and taken apart here at once, as lib.rt says of a cursor.
pub(crate) fn close(tree: &mut [u32], from: State, to: State, head: Head)
    ensures { Put tree.old from.out (kind_number head.kind) from.start to.end head.low head.high (to.out - from.out) tree.new }
{
    let size = to.out.saturating_sub(from.out);
    put(tree, from.out, head, from.start, to.end, size);
}

// The same of a record that holds a number. One that is too large has no halves: its draft is refused, and nothing is written.
pub(crate) fn close_number(tree: &mut [u32], from: State, to: State, kind: Kind, v: Option<u64>)
    ensures { PutNumber tree.old from.out (kind_number kind) from.start to.end v (to.out - from.out) tree.new }
{
    let Some(n) = v else {
        return;
    };
    close(tree, from, to, Head::of_number(kind, n));
}

// A record of one token, that of the first state, behind all records up to the second.
fn child(tree: &mut [u32], from: State, to: State, head: Head) -> State
    ensures put { Put tree.old to.out (kind_number head.kind) from.start from.stop head.low head.high 1 tree.new }
    ensures value { result ≡ reserved to }
{
    put(tree, to.out, head, from.start, from.stop, 1);
    reserve(to)
}

// Such a record of a name,
pub(crate) fn name(tree: &mut [u32], from: State, to: State) -> State
    ensures put { Put tree.old to.out kind.Name from.start from.stop 0 0 1 tree.new }
    ensures value { result ≡ reserved to }
{
    child(tree, from, to, Head::plain(Kind::Name))
}

// and of a decimal, which holds its number.
pub(crate) fn decimal(tree: &mut [u32], from: State, to: State, v: Option<u64>) -> State
    ensures put_number { PutNumber tree.old to.out kind.Number from.start from.stop v 1 tree.new }
    ensures value { result ≡ reserved to }
{
    let Some(n) = v else {
        return reserve(to);
    };
    child(tree, from, to, Head::of_number(Kind::Number, n))
}

// The first record, that of a whole file of so many bytes and records.
pub(crate) fn top(tree: &mut [u32], end: u32, size: u32)
    ensures { Put tree.old 0 kind.Program 0 end 0 0 size tree.new }
{
    put(tree, 0, Head::plain(Kind::Program), 0, end, size);
}

// The records from `from` up to `mid` change places with those from `mid` up to `to`.
#[inline(never)]
pub(crate) fn exchange(tree: &mut [u32], from: u32, mid: u32, to: u32)
    ensures { Turned tree.old from mid to tree.new }
{
    let a = from as usize;
    let m = mid as usize;
    let b = to as usize;
    if a <= m && m <= b && b <= tree.len() / RECORD_WORDS {
        let start = RECORD_WORDS * a;
        let end = RECORD_WORDS * b;
        turn::rotate(&mut tree[start..end], RECORD_WORDS * (m - a));
    }
}
