// Patterns: `Pattern::parser` of src/parse/grammar/statement.rs. A name is read where the pattern stands, the others apart, as in `expr`.
ghost use Rattle.std.specs.Prelude.{◌≡◌};
ghost use Rattle.theory.specs.Machine.{choose};
ghost use Rattle.grammar.specs.Shapes.Tables.{table};
ghost use Rattle.grammar.specs.Shapes.TablesIndex.{n-pattern, n-list-pattern};
ghost use Rattle.parse.specs.Choice as choice;
ghost use Rattle.own.specs.Numbers.{kind_number};
ghost use Rattle.parse.specs.Contract.{text, Ready, Parses, Node, PatternKind, Commas, pattern_kind, pattern_choice};

use crate::token::{Brackets, Source};
use crate::tree::Head;
use crate::{State, Step, choice, names, token, tree};
use lexer::classes as class;
use own::kind::Kind;

// A pattern. For the variable see `expr::single`.
#[cycle(pattern)]
#[inline(always)]
pub(crate) fn pattern(source: &Source, tree: &mut [u32], st: State) -> Step
    requires { Ready (text source.now) st }
    ensures { Parses n-pattern (Node PatternKind) (text source.now) st tree.old tree.new result }
{
    let step = match choice::patterns(st.class) {
        choice::NAME_PATTERN => return named(source, tree, st),
        choice::TUPLE_PATTERN => bracketed(source, tree, st, Brackets::Round),
        choice::ARRAY_PATTERN => bracketed(source, tree, st, Brackets::Square),
        _ => return Step::Refused(st.at),
    };
    step
}

// A name, or `_`.
#[inline(always)]
fn named(source: &Source, tree: &mut [u32], st: State) -> Step
    requires ready { Ready (text source.now) st }
    requires class_value { choose table n-pattern st.class ≡ choice.NamePattern }
    ensures { Parses n-pattern (Node PatternKind) (text source.now) st tree.old tree.new result }
{
    let a = source.advance(tree::reserve(st));
    let kind = names::pattern_name(source, st);
    tree::close(tree, st, a, Head::plain(kind));
    Step::Next(a, 0, 0)
}

// The kind of a pattern in brackets.
fn kind(brackets: Brackets) -> Kind
    ensures { kind_number result ≡ pattern_kind brackets }
{
    match brackets {
        Brackets::Round => Kind::TuplePattern,
        Brackets::Square => Kind::ArrayPattern,
    }
}

// `(p, …)` and `[p, …]`: no one reader with those of types and expressions, as `types::tuple` says.
#[cycle(pattern)]
#[inline(never)]
fn bracketed(source: &Source, tree: &mut [u32], st: State, brackets: Brackets) -> Step
    requires ready { Ready (text source.now) st }
    requires class_value { choose table n-pattern st.class ≡ pattern_choice brackets }
    ensures { Parses n-pattern (Node PatternKind) (text source.now) st tree.old tree.new result }
{
    let a = source.advance(tree::reserve(st));
    let inner = patterns(source, tree, a);
    let Step::Next(b, _, _) = inner else {
        return inner;
    };
    let end = source.eat(b, brackets.end());
    let Step::Next(c, _, _) = end else {
        return end;
    };
    tree::close(tree, st, c, Head::plain(kind(brackets)));
    Step::Next(c, 0, 0)
}

// Patterns with commas between them, up to what closes them: a loop of its own, as `types::types` says.
#[cycle(pattern)]
fn patterns(source: &Source, tree: &mut [u32], st: State) -> Step
    requires { Ready (text source.now) st }
    ensures { Parses n-list-pattern Commas (text source.now) st tree.old tree.new result }
{
    let mut here = st;
    while !token::closes(here.class) {
        let inner = pattern(source, tree, here);
        let Step::Next(a, _, _) = inner else {
            return inner;
        };
        if a.class != class::COMMA {
            return Step::Next(a, 0, 0);
        }
        here = source.advance(a);
    }
    Step::Next(here, 0, 0)
}
