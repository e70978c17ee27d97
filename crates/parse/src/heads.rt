// Heads of arms: `MatchPattern::parser` and `enum_arm_head_parser` of src/parse/grammar/matching.rs. What a head is stands in the two numbers that all steps
// have, as lib.rt says why: no names and which of the six built-in heads it is; or, of an enum path, how many names and how many pairs it has.
ghost use Rattle.std.specs.Prelude.{◌≡◌, if◌then◌else◌, nat_eq};
ghost use Rattle.lexer.specs.Classes as t;
ghost use Rattle.grammar.specs.Shapes.TablesIndex.{n-head, n-head_path, n-pair, n-head_path-optional-LParen, n-tail-pair};
ghost use Rattle.own.specs.Arms as arm;
ghost use Rattle.own.specs.Numbers.{arm_number};
ghost use Rattle.parse.specs.Choice as choice;
ghost use Rattle.parse.specs.Contract.{text, Ready, Moved, Parses, head_sort};
ghost use Rattle.parse.specs.Infos.{Leading, ArmHead, HeadPath, Pairs, ManyPairs, MorePairs};

use crate::token::Source;
use crate::{State, Step, choice, names, pattern, tree, types};
use lexer::classes as class;
use own::arm::MatchPattern;
use own::kind::Kind;

// So many names a built-in head has.
pub(crate) const NO_NAMES: u32 = 0;

// The head of an arm.
pub(crate) fn head(source: &Source, tree: &mut [u32], st: State) -> Step
    requires { Ready (text source.now) st }
    ensures { Parses n-head ArmHead (text source.now) st tree.old tree.new result }
{
    match choice::heads(st.class) {
        choice::FALSE_HEAD => {
            let a = source.advance(st);
            Step::Next(a, NO_NAMES, u32::from(MatchPattern::False))
        }
        choice::TRUE_HEAD => {
            let b = source.advance(st);
            Step::Next(b, NO_NAMES, u32::from(MatchPattern::True))
        }
        choice::NONE_HEAD => none(source, tree, st),
        choice::WRAPPED_HEAD => wrapped(source, tree, st),
        choice::NAMED_HEAD => {
            let d = source.advance(st);
            enum_path(source, tree, st, d)
        }
        _ => Step::Refused(st.at),
    }
}

// `None`, or an enum path that begins with it.
fn none(source: &Source, tree: &mut [u32], st: State) -> Step
    requires ready { Ready (text source.now) st }
    requires class_value { head_sort st.class ≡ choice.NoneHead }
    ensures { Parses n-head ArmHead (text source.now) st tree.old tree.new result }
{
    let a = source.advance(st);
    if a.class != class::DOUBLE_COLON {
        return Step::Next(a, NO_NAMES, u32::from(MatchPattern::None));
    }
    enum_path(source, tree, st, a)
}

// Which built-in head Left, Right or Some is. `names::wrapper` tells an expression's kind by the same words: that is another enum, with other numbers in
// document 01, and has none for other words.
fn wrapper(class: u32) -> MatchPattern
    ensures { arm_number result ≡ (if nat_eq class t.Left then arm.Left else (if nat_eq class t.Right then arm.Right else arm.Some)) }
{
    match class {
        class::LEFT => MatchPattern::Left,
        class::RIGHT => MatchPattern::Right,
        _ => MatchPattern::Some,
    }
}

// `Left(p: T)` and kin, or an enum path that begins with such a word.
fn wrapped(source: &Source, tree: &mut [u32], st: State) -> Step
    requires ready { Ready (text source.now) st }
    requires class_value { head_sort st.class ≡ choice.WrappedHead }
    ensures { Parses n-head ArmHead (text source.now) st tree.old tree.new result }
{
    let a = source.advance(st);
    if a.class != class::LPAREN {
        return enum_path(source, tree, st, a);
    }
    let b = source.advance(a);
    let inner = pair(source, tree, b);
    let Step::Next(d, _, _) = inner else {
        return inner;
    };
    let paren = source.eat(d, class::RPAREN);
    let Step::Next(z, _, _) = paren else {
        return paren;
    };
    Step::Next(z, NO_NAMES, u32::from(wrapper(st.class)))
}

// An enum path: `st` is at its first name, and `a` behind that.
fn enum_path(source: &Source, tree: &mut [u32], st: State, a: State) -> Step
    requires ready { Ready (text source.now) st }
    requires leading { Leading st.class a.class }
    requires moved { Moved (text source.now) st a }
    ensures { Parses n-head ArmHead (text source.now) st tree.old tree.new result }
{
    let c = tree::name(tree, st, a);
    let rest = path(source, tree, c);
    let Step::Next(z, number, many) = rest else {
        return rest;
    };
    Step::Next(z, number + 1, many)
}

// An enum path from its first `::` on; how many names and how many pairs.
fn path(source: &Source, tree: &mut [u32], st: State) -> Step
    requires { Ready (text source.now) st }
    ensures { Parses n-head_path HeadPath (text source.now) st tree.old tree.new result }
{
    let colons = source.eat(st, class::DOUBLE_COLON);
    let Step::Next(a, _, _) = colons else {
        return colons;
    };
    let rest = names::names(source, tree, a);
    let Step::Next(b, number, _) = rest else {
        return rest;
    };
    let inner = pairs(source, tree, b);
    let Step::Next(z, many, _) = inner else {
        return inner;
    };
    Step::Next(z, number, many)
}

// `p: T`
fn pair(source: &Source, tree: &mut [u32], st: State) -> Step
    requires { Ready (text source.now) st }
    ensures { Parses n-pair (Pairs 1) (text source.now) st tree.old tree.new result }
{
    let left = pattern::pattern(source, tree, st);
    let Step::Next(a, _, _) = left else {
        return left;
    };
    let colon = source.eat(a, class::COLON);
    let Step::Next(b, _, _) = colon else {
        return colon;
    };
    let right = types::ty(source, tree, b);
    let Step::Next(z, _, _) = right else {
        return right;
    };
    Step::Next(z, 0, 0)
}

// Nothing, or `(p: T, …)` with one pair at least; and how many.
fn pairs(source: &Source, tree: &mut [u32], st: State) -> Step
    requires { Ready (text source.now) st }
    ensures { Parses n-head_path-optional-LParen ManyPairs (text source.now) st tree.old tree.new result }
{
    if st.class != class::LPAREN {
        return Step::Next(st, 0, 0);
    }
    let a = source.advance(st);
    let first = pair(source, tree, a);
    let Step::Next(b, _, _) = first else {
        return first;
    };
    let rest = more(source, tree, b);
    let Step::Next(d, many, _) = rest else {
        return rest;
    };
    let paren = source.eat(d, class::RPAREN);
    let Step::Next(z, _, _) = paren else {
        return paren;
    };
    Step::Next(z, many, 0)
}

// What follows the first pair, up to the parenthesis; and how many pairs there are with it.
// One pair at least is there, and this begins behind it: no list of those that types.rt speaks of, so a loop of its own.
fn more(source: &Source, tree: &mut [u32], st: State) -> Step
    requires { Ready (text source.now) st }
    ensures { Parses n-tail-pair MorePairs (text source.now) st tree.old tree.new result }
{
    let mut here = st;
    let mut number = 1;
    while here.class == class::COMMA {
        let a = source.advance(here);
        if a.class == class::RPAREN {
            return Step::Next(a, number, 0);
        }
        let next = pair(source, tree, a);
        let Step::Next(b, _, _) = next else {
            return next;
        };
        here = b;
        number += 1;
    }
    Step::Next(here, number, 0)
}
