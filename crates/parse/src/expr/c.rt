// Calls, wrappers and enum constructions: what begins with a name, a macro, a jet or `<`, within the cycle of expressions.
ghost use Rattle.std.specs.Prelude.{◌≡◌, Some};
ghost use Rattle.lexer.specs.Classes as t;
ghost use Rattle.theory.specs.Machine.{choose};
ghost use Rattle.grammar.specs.Shapes.Tables.{table};
ghost use Rattle.grammar.specs.Shapes.TablesIndex.{n-single, n-arguments, n-path};
ghost use Rattle.parse.specs.Choice as choice;
ghost use Rattle.parse.specs.Contract.{text, Ready, Near, Moved, reserved, Parses, Node, ExprKind, Wraps};
ghost use Rattle.parse.specs.Infos.{Begun, Angled, Uncalled, Leads, Args, Path, CallEnds, AngleEnds};

use crate::names::NameSort;
use crate::token::Source;
use crate::tree::Head;
use crate::{State, Step, expr, fault, names, tree, types};
use lexer::classes as class;
use own::call::CallName;
use own::kind::Kind;

// The calls that `::<..>` may belong to, by what stands in it: a type, a function and a number, or a function. `generic` stands in the cycle: a closure in
// place of this would state both clauses of its step, as `types::types` says.
#[derive(Clone, Copy, PartialEq, Eq, Debug)]
pub(crate) enum GenericCall {
    Typed,
    Folding,
    ForWhile,
}

// `(e, …)`; and whether it is one expression without a comma, as `exprs` says it.
#[cycle(expression)]
#[inline(always)]
fn args(source: &Source, tree: &mut [u32], st: State) -> Step
    requires { Near (text source.now) st }
    ensures { Parses n-arguments Args (text source.now) st tree.old tree.new result }
{
    let open = source.eat(st, class::LPAREN);
    let Step::Next(a, _, _) = open else {
        return open;
    };
    let inner = expr::exprs(source, tree, a);
    let Step::Next(b, lone, _) = inner else {
        return inner;
    };
    let paren = source.eat(b, class::RPAREN);
    let Step::Next(z, _, _) = paren else {
        return paren;
    };
    Step::Next(z, lone, 0)
}

// The arguments of a call, and then its record: that begins at `st`, whose class says which call it is.
#[cycle(expression)]
#[inline(always)]
fn close_call(source: &Source, tree: &mut [u32], st: State, a: State) -> Step
    requires { Near (text source.now) a }
    ensures { CallEnds (text source.now) st a tree.old tree.new result }
{
    let inner = args(source, tree, a);
    let Step::Next(z, _, _) = inner else {
        return inner;
    };
    tree::close(tree, st, z, Head::of_call(names::call(st.class)));
    Step::Next(z, 0, 0)
}

// The same behind the `>` of `::<..>`.
#[cycle(expression)]
#[inline(always)]
fn close_angled(source: &Source, tree: &mut [u32], st: State, a: State) -> Step
    requires { Near (text source.now) a }
    ensures { AngleEnds (text source.now) st a tree.old tree.new result }
{
    let angle = source.eat(a, class::RANGLE);
    let Step::Next(b, _, _) = angle else {
        return angle;
    };
    close_call(source, tree, st, b)
}

// A macro or a jet, called.
#[cycle(expression)]
#[inline(never)]
pub(crate) fn simple(source: &Source, tree: &mut [u32], st: State) -> Step
    requires ready { Ready (text source.now) st }
    requires class_value { choose table n-single st.class ≡ choice.SimpleCall }
    ensures { Parses n-single (Node ExprKind) (text source.now) st tree.old tree.new result }
{
    let a = source.advance(tree::reserve(st));
    let b = names::callee(tree, st, a);
    close_call(source, tree, st, b)
}

// `<T>::into(e, …)`
#[cycle(expression)]
#[inline(never)]
pub(crate) fn cast(source: &Source, tree: &mut [u32], st: State) -> Step
    requires ready { Ready (text source.now) st }
    requires class_value { choose table n-single st.class ≡ choice.CastCall }
    ensures { Parses n-single (Node ExprKind) (text source.now) st tree.old tree.new result }
{
    let a = source.advance(tree::reserve(st));
    let inner = types::ty(source, tree, a);
    let Step::Next(b, _, _) = inner else {
        return inner;
    };
    let angle = source.eat(b, class::RANGLE);
    let Step::Next(d, _, _) = angle else {
        return angle;
    };
    let colons = source.eat(d, class::DOUBLE_COLON);
    let Step::Next(f, _, _) = colons else {
        return colons;
    };
    let into = source.eat(f, class::INTO);
    let Step::Next(g, _, _) = into else {
        return into;
    };
    close_call(source, tree, st, g)
}

// A name: a call, a wrapper, an enum construction or a variable. For the variable `step` see `expr::single`.
#[cycle(expression)]
#[inline(always)]
pub(crate) fn named(source: &Source, tree: &mut [u32], st: State) -> Step
    requires ready { Ready (text source.now) st }
    requires class_value { choose table n-single st.class ≡ choice.Named }
    ensures { Parses n-single (Node ExprKind) (text source.now) st tree.old tree.new result }
{
    let a = source.advance(tree::reserve(st));
    let class = a.class;
    let step = match class {
        class::LPAREN => called(source, tree, st, a),
        class::DOUBLE_COLON => {
            let b = source.advance(a);
            built(source, tree, st, b)
        }
        _ => {
            tree::close(tree, st, a, Head::plain(Kind::Variable));
            return Step::Next(a, 0, 0);
        }
    };
    step
}

// A call of a name, from its arguments on; a wrapper where it is one expression and no comma. The record begins at `st`, the name, and reading goes on
// at `a`. Two states go together here, in the functions below and in `heads::enum_path`. A struct of both and the source could say what is required of them
// in a ghost field, but each call would make one and each function take it apart, as lib.rt says of a cursor.
#[cycle(expression)]
#[inline(never)]
fn called(source: &Source, tree: &mut [u32], st: State, a: State) -> Step
    requires ready { Ready (text source.now) st }
    requires class_value { choose table n-single st.class ≡ choice.Named }
    requires moved { Moved (text source.now) (reserved st) a }
    requires class_value_2 { a.class ≡ t.LParen }
    ensures { Parses n-single (Node ExprKind) (text source.now) st tree.old tree.new result }
{
    if let Some(kind) = names::wrapper(st.class) {
        return wrap(source, tree, st, a, kind);
    }
    let b = names::callee(tree, st, a);
    close_call(source, tree, st, b)
}

// `Left(e)` and kin; or a call of that name, whose record is put before the arguments.
#[cycle(expression)]
fn wrap(source: &Source, tree: &mut [u32], st: State, a: State, kind: Kind) -> Step
    requires ready { Ready (text source.now) st }
    requires wraps { Wraps st.class (Some kind) }
    requires moved { Moved (text source.now) (reserved st) a }
    requires class_value { a.class ≡ t.LParen }
    ensures { Parses n-single (Node ExprKind) (text source.now) st tree.old tree.new result }
{
    let inner = args(source, tree, a);
    let Step::Next(b, lone, _) = inner else {
        return inner;
    };
    if lone == expr::LONE {
        tree::close(tree, st, b, Head::plain(kind));
        return Step::Next(b, 0, 0);
    }
    let z = tree::name(tree, st, b);
    tree::exchange(tree, a.out, b.out, z.out);
    tree::close(tree, st, z, Head::of_call(CallName::Custom));
    Step::Next(z, 0, 0)
}

// An enum construction, from behind its first `::` on: the name before that is a record too.
#[cycle(expression)]
#[inline(never)]
fn built(source: &Source, tree: &mut [u32], st: State, b: State) -> Step
    requires ready { Ready (text source.now) st }
    requires leads { Leads st.class b.class }
    requires begun { Begun (text source.now) (reserved st) b }
    ensures { Parses n-single (Node ExprKind) (text source.now) st tree.old tree.new result }
{
    let d = tree::name(tree, st, b);
    let rest = path(source, tree, d);
    let Step::Next(z, number, _) = rest else {
        return rest;
    };
    tree::close(
        tree,
        st,
        z,
        Head::with_low(Kind::EnumConstruction, number + 1),
    );
    Step::Next(z, 0, 0)
}

// What follows the first `::` of an enum construction; and how many names.
#[cycle(expression)]
fn path(source: &Source, tree: &mut [u32], st: State) -> Step
    requires { Ready (text source.now) st }
    ensures { Parses n-path Path (text source.now) st tree.old tree.new result }
{
    let inner = names::names(source, tree, st);
    let Step::Next(a, number, _) = inner else {
        return inner;
    };
    if a.class != class::LPAREN {
        return Step::Next(a, number, 0);
    }
    let rest = args(source, tree, a);
    let Step::Next(z, _, _) = rest else {
        return rest;
    };
    Step::Next(z, number, 0)
}

// A name that no argument list may follow right away: `None`, a variable, an enum construction or, of those with a `call`, that call behind `::<..>`.
#[cycle(expression)]
#[inline(never)]
pub(crate) fn generic(
    source: &Source,
    tree: &mut [u32],
    st: State,
    call: Option<GenericCall>,
) -> Step
    requires ready { Ready (text source.now) st }
    requires uncalled { Uncalled st.class call }
    ensures { Parses n-single (Node ExprKind) (text source.now) st tree.old tree.new result }
{
    let a = source.advance(tree::reserve(st));
    if a.class != class::DOUBLE_COLON {
        tree::close(tree, st, a, Head::plain(names::alone(st.class)));
        return Step::Next(a, 0, 0);
    }
    let b = source.advance(a);
    if b.class != class::LANGLE {
        return built(source, tree, st, b);
    }
    match call {
        Some(GenericCall::Typed) => of_type(source, tree, st, b),
        Some(GenericCall::Folding) => bound(source, tree, st, b),
        Some(GenericCall::ForWhile) => loops(source, tree, st, b),
        None => built(source, tree, st, b),
    }
}

// `unwrap_left::<T>(e, …)` and kin, from `<` on. That `b` is there (`Angled`) is a clause of these three, and no ghost field, as `called` says of two states.
#[cycle(expression)]
fn of_type(source: &Source, tree: &mut [u32], st: State, b: State) -> Step
    requires ready { Ready (text source.now) st }
    requires class_value { choose table n-single st.class ≡ choice.Typed }
    requires angled { Angled (text source.now) (reserved st) b }
    ensures { Parses n-single (Node ExprKind) (text source.now) st tree.old tree.new result }
{
    let d = source.advance(b);
    let inner = types::ty(source, tree, d);
    let Step::Next(f, _, _) = inner else {
        return inner;
    };
    close_angled(source, tree, st, f)
}

// `fold::<f, n>(e, …)` and `array_fold::<f, n>(e, …)`, from `<` on. What is refused inside is kept apart.
#[cycle(expression)]
fn bound(source: &Source, tree: &mut [u32], st: State, b: State) -> Step
    requires ready { Ready (text source.now) st }
    requires class_value { choose table n-single st.class ≡ choice.Folding }
    requires angled { Angled (text source.now) (reserved st) b }
    ensures { Parses n-single (Node ExprKind) (text source.now) st tree.old tree.new result }
{
    let d = source.advance(fault::clean(b));
    let inner = names::name(source, tree, d, NameSort::Function);
    let Step::Next(f, _, _) = inner else {
        return inner;
    };
    let comma = source.eat(f, class::COMMA);
    let Step::Next(g, _, _) = comma else {
        return comma;
    };
    let size = names::decimal(source, tree, g);
    let Step::Next(h, _, _) = size else {
        return size;
    };
    let rest = close_angled(source, tree, st, h);
    let Step::Next(y, _, _) = rest else {
        return rest;
    };
    let n = source.number(g);
    let own = fault::placed(names::size_fault(st.class, n), g.start);
    let z = fault::judged(st, y, own);
    Step::Next(z, 0, 0)
}

// `for_while::<f>(e, …)`, from `<` on. It differs from `of_type` in what stands between the angles. One function would match on `GenericCall` again, as
// `generic` has just done, and its contract would have to speak of two alternatives.
#[cycle(expression)]
fn loops(source: &Source, tree: &mut [u32], st: State, b: State) -> Step
    requires ready { Ready (text source.now) st }
    requires class_value { choose table n-single st.class ≡ choice.ForWhile }
    requires angled { Angled (text source.now) (reserved st) b }
    ensures { Parses n-single (Node ExprKind) (text source.now) st tree.old tree.new result }
{
    let d = source.advance(b);
    let inner = names::name(source, tree, d, NameSort::Function);
    let Step::Next(f, _, _) = inner else {
        return inner;
    };
    close_angled(source, tree, st, f)
}
