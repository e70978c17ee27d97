// Types: src/parse/grammar/types.rs. A name is read where the type stands, the others apart, as in `expr`.
ghost use Rattle.std.specs.Prelude.{◌≡◌};
ghost use Rattle.theory.specs.Machine.{choose};
ghost use Rattle.grammar.specs.Shapes.Tables.{table};
ghost use Rattle.grammar.specs.Shapes.TablesIndex.{n-type, n-list-type};
ghost use Rattle.parse.specs.Choice as choice;
ghost use Rattle.parse.specs.Contract.{text, Ready, Parses, Node, TypeKind, Commas};

use crate::token::Source;
use crate::tree::Head;
use crate::{State, Step, choice, fault, names, tree};
use lexer::classes as class;
use own::kind::Kind;

// A type. For the variable see `expr::single`.
#[cycle(types)]
#[inline(always)]
pub(crate) fn ty(source: &Source, tree: &mut [u32], st: State) -> Step
    requires { Ready (text source.now) st }
    ensures { Parses n-type (Node TypeKind) (text source.now) st tree.old tree.new result }
{
    let step = match choice::types(st.class) {
        choice::EITHER_TYPE => either(source, tree, st),
        choice::OPTION_TYPE => option(source, tree, st),
        choice::LIST_TYPE => list(source, tree, st),
        choice::NAMED_TYPE => return named(source, tree, st),
        choice::TUPLE_TYPE => tuple(source, tree, st),
        choice::ARRAY_TYPE => array(source, tree, st),
        _ => return Step::Refused(st.at),
    };
    step
}

// A name: an alias, a built-in alias, `bool` or an unsigned type.
#[inline(always)]
fn named(source: &Source, tree: &mut [u32], st: State) -> Step
    requires ready { Ready (text source.now) st }
    requires class_value { choose table n-type st.class ≡ choice.NamedType }
    ensures { Parses n-type (Node TypeKind) (text source.now) st tree.old tree.new result }
{
    let a = source.advance(tree::reserve(st));
    let h = names::type_name(st.class);
    tree::close(tree, st, a, h);
    Step::Next(a, 0, 0)
}

// `Either<A, B>`, or the name alone. `option` and `list` begin with the same lines. A function for them would answer the state behind `<` or the step of the
// alias, so each of the three would take that apart with a `let .. else` and cite a contract over both ways: as many lines as it would save.
#[cycle(types)]
#[inline(never)]
fn either(source: &Source, tree: &mut [u32], st: State) -> Step
    requires ready { Ready (text source.now) st }
    requires class_value { choose table n-type st.class ≡ choice.EitherType }
    ensures { Parses n-type (Node TypeKind) (text source.now) st tree.old tree.new result }
{
    let a = source.advance(tree::reserve(st));
    if a.class != class::LANGLE {
        tree::close(tree, st, a, Head::plain(Kind::Alias));
        return Step::Next(a, 0, 0);
    }
    let b = source.advance(a);
    let left = ty(source, tree, b);
    let Step::Next(c, _, _) = left else {
        return left;
    };
    let comma = source.eat(c, class::COMMA);
    let Step::Next(d, _, _) = comma else {
        return comma;
    };
    let right = ty(source, tree, d);
    let Step::Next(e, _, _) = right else {
        return right;
    };
    let angle = source.eat(e, class::RANGLE);
    let Step::Next(f, _, _) = angle else {
        return angle;
    };
    tree::close(tree, st, f, Head::plain(Kind::EitherType));
    Step::Next(f, 0, 0)
}

// `Option<A>`, or the name alone.
#[cycle(types)]
#[inline(never)]
fn option(source: &Source, tree: &mut [u32], st: State) -> Step
    requires ready { Ready (text source.now) st }
    requires class_value { choose table n-type st.class ≡ choice.OptionType }
    ensures { Parses n-type (Node TypeKind) (text source.now) st tree.old tree.new result }
{
    let a = source.advance(tree::reserve(st));
    if a.class != class::LANGLE {
        tree::close(tree, st, a, Head::plain(Kind::Alias));
        return Step::Next(a, 0, 0);
    }
    let b = source.advance(a);
    let inner = ty(source, tree, b);
    let Step::Next(c, _, _) = inner else {
        return inner;
    };
    let angle = source.eat(c, class::RANGLE);
    let Step::Next(d, _, _) = angle else {
        return angle;
    };
    tree::close(tree, st, d, Head::plain(Kind::OptionType));
    Step::Next(d, 0, 0)
}

// `List<A, n>`, or the name alone.
#[cycle(types)]
#[inline(never)]
fn list(source: &Source, tree: &mut [u32], st: State) -> Step
    requires ready { Ready (text source.now) st }
    requires class_value { choose table n-type st.class ≡ choice.ListType }
    ensures { Parses n-type (Node TypeKind) (text source.now) st tree.old tree.new result }
{
    let a = source.advance(tree::reserve(fault::clean(st)));
    if a.class != class::LANGLE {
        tree::close(tree, st, a, Head::plain(Kind::Alias));
        let z = fault::judged(st, a, None);
        return Step::Next(z, 0, 0);
    }
    let b = source.advance(a);
    let inner = ty(source, tree, b);
    let Step::Next(c, _, _) = inner else {
        return inner;
    };
    let comma = source.eat(c, class::COMMA);
    let Step::Next(d, _, _) = comma else {
        return comma;
    };
    let decimal = source.eat(d, class::DEC_LITERAL);
    let Step::Next(e, _, _) = decimal else {
        return decimal;
    };
    let angle = source.eat(e, class::RANGLE);
    let Step::Next(f, _, _) = angle else {
        return angle;
    };
    let v = source.number(d);
    tree::close_number(tree, st, f, Kind::ListType, v);
    let g = fault::judged(st, f, fault::placed(fault::bound(v), d.start));
    Step::Next(g, 0, 0)
}

// `(A, …)`: the one list in brackets here, since `[A; n]` is none, so there is nothing to choose by `Brackets`. One reader of brackets for types, patterns
// and expressions would be handed what reads an item: the loop that `types` below speaks of.
#[cycle(types)]
#[inline(never)]
fn tuple(source: &Source, tree: &mut [u32], st: State) -> Step
    requires ready { Ready (text source.now) st }
    requires class_value { choose table n-type st.class ≡ choice.TupleType }
    ensures { Parses n-type (Node TypeKind) (text source.now) st tree.old tree.new result }
{
    let a = source.advance(tree::reserve(st));
    let inner = types(source, tree, a);
    let Step::Next(b, _, _) = inner else {
        return inner;
    };
    let paren = source.eat(b, class::RPAREN);
    let Step::Next(c, _, _) = paren else {
        return paren;
    };
    tree::close(tree, st, c, Head::plain(Kind::TupleType));
    Step::Next(c, 0, 0)
}

// `[A; n]`. As in `list`, what is refused inside is kept apart until the number is judged.
#[cycle(types)]
#[inline(never)]
fn array(source: &Source, tree: &mut [u32], st: State) -> Step
    requires ready { Ready (text source.now) st }
    requires class_value { choose table n-type st.class ≡ choice.ArrayType }
    ensures { Parses n-type (Node TypeKind) (text source.now) st tree.old tree.new result }
{
    let a = source.advance(tree::reserve(fault::clean(st)));
    let inner = ty(source, tree, a);
    let Step::Next(b, _, _) = inner else {
        return inner;
    };
    let semi = source.eat(b, class::SEMI);
    let Step::Next(c, _, _) = semi else {
        return semi;
    };
    let decimal = source.eat(c, class::DEC_LITERAL);
    let Step::Next(d, _, _) = decimal else {
        return decimal;
    };
    let bracket = source.eat(d, class::RBRACKET);
    let Step::Next(e, _, _) = bracket else {
        return bracket;
    };
    let v = source.number(c);
    tree::close_number(tree, st, e, Kind::ArrayType, v);
    let f = fault::judged(st, e, fault::placed(fault::array_length(v), c.start));
    Step::Next(f, 0, 0)
}

// Types with commas between them, up to what closes them. Patterns and expressions have loops of their own. One loop was tried in small: over
// a trait's method a cycle of calls gets no proof. Over a closure it does, but a closure there has to state both clauses of its item and to capture
// the place from which it may be called, and no ghost argument can name its rule: each would be as long as its loop.
#[cycle(types)]
fn types(source: &Source, tree: &mut [u32], st: State) -> Step
    requires { Ready (text source.now) st }
    ensures { Parses n-list-type Commas (text source.now) st tree.old tree.new result }
{
    let mut here = st;
    while here.class != class::RPAREN {
        let inner = ty(source, tree, here);
        let Step::Next(a, _, _) = inner else {
            return inner;
        };
        if a.class != class::COMMA {
            return Step::Next(a, 0, 0);
        }
        here = source.advance(a);
    }
    Step::Next(here, 0, 0)
}
