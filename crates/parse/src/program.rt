// The function and its parameters: src/parse/grammar/program.rs.
ghost use Rattle.std.specs.Prelude.{ℕ, List};
ghost use Rattle.lexer.specs.Classes as t;
ghost use Rattle.grammar.specs.Shapes.TablesIndex.{n-function, n-function-optional-Pub, n-function-optional-Arrow, n-block, n-parameter, n-list-parameter};
ghost use Rattle.parse.specs.Contract.{text, Ready, Near, Parses, Node, ExprKind};
ghost use Rattle.parse.specs.Infos.{ParameterKind, FunctionKind, Parameters, Optional, public, typed};

use crate::names::NameSort;
use crate::token::Source;
use crate::tree::Head;
use crate::{State, Step, expr, names, tree, types};
use lexer::classes as class;
use own::kind::Kind;

// A function's low, a word of its record, is the sum of these: for `pub`, and for a result type.
const PUBLIC: u32 = 1;

const RESULT: u32 = 2;

// `name: T`
fn parameter(source: &Source, tree: &mut [u32], st: State) -> Step
    requires { Ready (text source.now) st }
    ensures { Parses n-parameter (Node ParameterKind) (text source.now) st tree.old tree.new result }
{
    let first = names::name(source, tree, tree::reserve(st), NameSort::Identifier);
    let Step::Next(a, _, _) = first else {
        return first;
    };
    let colon = source.eat(a, class::COLON);
    let Step::Next(b, _, _) = colon else {
        return colon;
    };
    let inner = types::ty(source, tree, b);
    let Step::Next(c, _, _) = inner else {
        return inner;
    };
    tree::close(tree, st, c, Head::plain(Kind::Parameter));
    Step::Next(c, 0, 0)
}

// Parameters with commas between them, up to what closes them, and how many. The lists of types, patterns and expressions go as this one but stand in cycles,
// where types.rt says why each is a loop of its own: a list over any item would have this caller alone.
fn parameters(source: &Source, tree: &mut [u32], st: State) -> Step
    requires { Ready (text source.now) st }
    ensures { Parses n-list-parameter Parameters (text source.now) st tree.old tree.new result }
{
    let mut here = st;
    let mut number = 0;
    while here.class != class::RPAREN {
        let inner = parameter(source, tree, here);
        let Step::Next(a, _, _) = inner else {
            return inner;
        };
        number += 1;
        if a.class != class::COMMA {
            return Step::Next(a, number, 0);
        }
        here = source.advance(a);
    }
    Step::Next(here, number, 0)
}

// Nothing, or `pub`; and PUBLIC if it is there.
fn public(source: &Source, st: State) -> Step
    requires { Near (text source.now) st }
    ensures { (l : List ℕ) → Parses n-function-optional-Pub (Optional t.Pub public) (text source.now) st l l result }
{
    if st.class != class::PUB {
        return Step::Next(st, 0, 0);
    }
    let a = source.advance(st);
    Step::Next(a, PUBLIC, 0)
}

// Nothing, or a thin arrow and a type; and RESULT if it is there.
fn result(source: &Source, tree: &mut [u32], st: State) -> Step
    requires { Ready (text source.now) st }
    ensures { Parses n-function-optional-Arrow (Optional t.Arrow typed) (text source.now) st tree.old tree.new result }
{
    if st.class != class::ARROW {
        return Step::Next(st, 0, 0);
    }
    let a = source.advance(st);
    let inner = types::ty(source, tree, a);
    let Step::Next(b, _, _) = inner else {
        return inner;
    };
    Step::Next(b, RESULT, 0)
}

// `pub fn name(parameters) -> T { .. }`
pub(crate) fn function(source: &Source, tree: &mut [u32], st: State) -> Step
    requires { Ready (text source.now) st }
    ensures { Parses n-function (Node FunctionKind) (text source.now) st tree.old tree.new result }
{
    let first = public(source, tree::reserve(st));
    let Step::Next(a, low, _) = first else {
        return first;
    };
    let word = source.eat(a, class::FN);
    let Step::Next(b, _, _) = word else {
        return word;
    };
    let name = names::name(source, tree, b, NameSort::Function);
    let Step::Next(c, _, _) = name else {
        return name;
    };
    let left = source.eat(c, class::LPAREN);
    let Step::Next(d, _, _) = left else {
        return left;
    };
    let inner = parameters(source, tree, d);
    let Step::Next(f, number, _) = inner else {
        return inner;
    };
    let paren = source.eat(f, class::RPAREN);
    let Step::Next(g, _, _) = paren else {
        return paren;
    };
    let arrow = result(source, tree, g);
    let Step::Next(h, more, _) = arrow else {
        return arrow;
    };
    let body = block(source, tree, h);
    let Step::Next(z, _, _) = body else {
        return body;
    };
    let head = Head {
        kind: Kind::Function,
        low: low + more,
        high: number,
    };
    tree::close(tree, st, z, head);
    Step::Next(z, 0, 0)
}

// A block, where one begins.
fn block(source: &Source, tree: &mut [u32], st: State) -> Step
    requires { Ready (text source.now) st }
    ensures { Parses n-block (Node ExprKind) (text source.now) st tree.old tree.new result }
{
    if st.class != class::LBRACE {
        return Step::Refused(st.at);
    }
    expr::block(source, tree, st)
}
