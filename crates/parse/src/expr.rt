// The cycle of expressions, which document 01 names: an expression may hold a block, a block statements, a statement an expression again. docs/DECISIONS.md
// says which file of the Rust each function comes from.
// What is read most often is inlined where it is called. The rest stands apart, and takes no room in the frames of the others.
ghost use Rattle.std.specs.Prelude.{◌≡◌, ◌<◌, if◌then◌else◌, nat_eq};
ghost use Rattle.lexer.specs.Classes as t;
ghost use Rattle.own.specs.Numbers.{kind_number};
ghost use Rattle.theory.specs.Machine.{choose};
ghost use Rattle.grammar.specs.Shapes.Tables.{table};
ghost use Rattle.grammar.specs.Shapes.TablesIndex.{n-expression, n-block, n-elements, n-assignment, n-single, n-list-expression, n-many-arm, n-arm, n-arm-choice};
ghost use Rattle.parse.specs.Choice as choice;
ghost use Rattle.parse.specs.Contract.{text, Ready, Parses, Node, ExprKind, single_choice, single_kind};
ghost use Rattle.parse.specs.Infos.{LetKind, Elements, Lone, Arms, Arm, Body};

mod c;

use crate::token::{Brackets, Source};
use crate::tree::Head;
use crate::{State, Step, arms, choice, fault, heads, names, pattern, token, tree, types};
use c::GenericCall;
use lexer::classes as class;
use own::kind::Kind;

// What a list of expressions is, as a number, since it is one of the two that a step has (lib.rt says why): none, one without a comma, or any other.
const EMPTY: u32 = 0;

const LONE: u32 = 1;

const LISTED: u32 = 2;

// The kind of what brackets enclose.
fn kind(brackets: Brackets, lone: u32) -> Kind
    ensures { kind_number result ≡ single_kind brackets lone }
{
    match (brackets, lone) {
        (Brackets::Round, LONE) => Kind::Parenthesised,
        (Brackets::Round, _) => Kind::Tuple,
        (Brackets::Square, _) => Kind::Array,
    }
}

// The same number at the end of a list without a comma behind the last item.
fn first(lone: u32) -> u32
    ensures { result ≡ (if nat_eq lone 0 then 1 else 2) }
{
    if lone == EMPTY { LONE } else { LISTED }
}

// A boolean, a number, a witness or a parameter.
#[inline(always)]
fn literal(source: &Source, tree: &mut [u32], st: State) -> Step
    requires ready { Ready (text source.now) st }
    requires class_value { choose table n-single st.class ≡ choice.Literal }
    ensures { Parses n-single (Node ExprKind) (text source.now) st tree.old tree.new result }
{
    let a = source.advance(tree::reserve(st));
    tree::close(tree, st, a, names::literal(st.class));
    Step::Next(a, 0, 0)
}

// An expression: a block or any other. `Expression::parser`. For the variable see `single`.
#[cycle(expression)]
#[inline(always)]
pub(crate) fn expr(source: &Source, tree: &mut [u32], st: State) -> Step
    requires { Ready (text source.now) st }
    ensures { Parses n-expression (Node ExprKind) (text source.now) st tree.old tree.new result }
{
    if st.class == class::LBRACE {
        let step = block(source, tree, st);
        return step;
    }
    single(source, tree, st)
}

// `{ elements }`. `Expression::parser`.
#[cycle(expression)]
#[inline(never)]
pub(crate) fn block(source: &Source, tree: &mut [u32], st: State) -> Step
    requires ready { Ready (text source.now) st }
    requires class_value { st.class ≡ t.LBrace }
    ensures { Parses n-block (Node ExprKind) (text source.now) st tree.old tree.new result }
{
    let a = source.advance(tree::reserve(st));
    let inner = elems(source, tree, a);
    let Step::Next(b, last, _) = inner else {
        return inner;
    };
    let brace = source.eat(b, class::RBRACE);
    let Step::Next(z, _, _) = brace else {
        return brace;
    };
    tree::close(tree, st, z, Head::with_low(Kind::Block, last));
    Step::Next(z, 0, 0)
}

// A block's low, a word of its record: this where its last element is an expression without `;`, else 0.
const LAST_EXPRESSION: u32 = 1;

// What stands between the braces of a block, and its low. `split_block_body`, `Statement::parser`.
#[cycle(expression)]
#[inline(always)]
fn elems(source: &Source, tree: &mut [u32], st: State) -> Step
    requires { Ready (text source.now) st }
    ensures { Parses n-elements Elements (text source.now) st tree.old tree.new result }
{
    let mut here = st;
    while here.class != class::RBRACE {
        if here.class == class::LET {
            let statement = assign(source, tree, here);
            let Step::Next(a, _, _) = statement else {
                return statement;
            };
            let semi = source.eat(a, class::SEMI);
            let Step::Next(b, _, _) = semi else {
                return semi;
            };
            here = b;
        } else {
            let inner = expr(source, tree, here);
            let Step::Next(d, _, _) = inner else {
                return inner;
            };
            if d.class != class::SEMI {
                return Step::Next(d, LAST_EXPRESSION, 0);
            }
            here = source.advance(d);
        }
    }
    Step::Next(here, 0, 0)
}

// `let p: T = e`. `Assignment::parser`.
#[cycle(expression)]
#[inline(always)]
fn assign(source: &Source, tree: &mut [u32], st: State) -> Step
    requires ready { Ready (text source.now) st }
    requires class_value { st.class ≡ t.Let }
    ensures { Parses n-assignment (Node LetKind) (text source.now) st tree.old tree.new result }
{
    let a = source.advance(tree::reserve(st));
    let left = pattern::pattern(source, tree, a);
    let Step::Next(b, _, _) = left else {
        return left;
    };
    let colon = source.eat(b, class::COLON);
    let Step::Next(d, _, _) = colon else {
        return colon;
    };
    let middle = types::ty(source, tree, d);
    let Step::Next(f, _, _) = middle else {
        return middle;
    };
    let equal = source.eat(f, class::EQ);
    let Step::Next(g, _, _) = equal else {
        return equal;
    };
    let right = expr(source, tree, g);
    let Step::Next(z, _, _) = right else {
        return right;
    };
    tree::close(tree, st, z, Head::plain(Kind::Let));
    Step::Next(z, 0, 0)
}

// An expression that is no block. `SingleExpression::parser`. What a function that stands apart answers has a variable of its own: so the
// other answers stay in registers. Each function called here asks that the class chooses its own alternatives, so that is a clause of each and no
// fact of a state.
#[cycle(expression)]
#[inline(always)]
pub(crate) fn single(source: &Source, tree: &mut [u32], st: State) -> Step
    requires { Ready (text source.now) st }
    ensures { Parses n-single (Node ExprKind) (text source.now) st tree.old tree.new result }
{
    let step = match choice::singles(st.class) {
        choice::LITERAL => return literal(source, tree, st),
        choice::PARENS => bracketed(source, tree, st, Brackets::Round),
        choice::ARRAY => bracketed(source, tree, st, Brackets::Square),
        choice::LIST => list(source, tree, st),
        choice::MATCH => cases(source, tree, st),
        choice::SIMPLE_CALL => c::simple(source, tree, st),
        choice::CAST_CALL => c::cast(source, tree, st),
        choice::NAMED => return c::named(source, tree, st),
        choice::BARE => c::generic(source, tree, st, None),
        choice::TYPED => c::generic(source, tree, st, Some(GenericCall::Typed)),
        choice::FOLDING => c::generic(source, tree, st, Some(GenericCall::Folding)),
        choice::FOR_WHILE => c::generic(source, tree, st, Some(GenericCall::ForWhile)),
        _ => return Step::Refused(st.at),
    };
    step
}

// `(e)`, a tuple `(e, …)` or an array `[e, …]`: no one reader with those of types and patterns, as `types::tuple` says.
#[cycle(expression)]
#[inline(never)]
fn bracketed(source: &Source, tree: &mut [u32], st: State, brackets: Brackets) -> Step
    requires ready { Ready (text source.now) st }
    requires class_value { choose table n-single st.class ≡ single_choice brackets }
    ensures { Parses n-single (Node ExprKind) (text source.now) st tree.old tree.new result }
{
    let a = source.advance(tree::reserve(st));
    let inner = exprs(source, tree, a);
    let Step::Next(b, lone, _) = inner else {
        return inner;
    };
    let end = source.eat(b, brackets.end());
    let Step::Next(z, _, _) = end else {
        return end;
    };
    tree::close(tree, st, z, Head::plain(kind(brackets, lone)));
    Step::Next(z, 0, 0)
}

// `list![e, …]`. In `bracketed` it would be a third bracket, and a branch before the list for the bracket behind its word.
#[cycle(expression)]
#[inline(never)]
fn list(source: &Source, tree: &mut [u32], st: State) -> Step
    requires ready { Ready (text source.now) st }
    requires class_value { choose table n-single st.class ≡ choice.List }
    ensures { Parses n-single (Node ExprKind) (text source.now) st tree.old tree.new result }
{
    let a = source.advance(tree::reserve(st));
    let open = source.eat(a, class::LBRACKET);
    let Step::Next(b, _, _) = open else {
        return open;
    };
    let inner = exprs(source, tree, b);
    let Step::Next(d, _, _) = inner else {
        return inner;
    };
    let bracket = source.eat(d, class::RBRACKET);
    let Step::Next(z, _, _) = bracket else {
        return bracket;
    };
    tree::close(tree, st, z, Head::plain(Kind::List));
    Step::Next(z, 0, 0)
}

// Expressions with commas between them, up to what closes them, and whether it is one without a comma: a loop of its own, as `types::types` says.
#[cycle(expression)]
#[inline(always)]
pub(crate) fn exprs(source: &Source, tree: &mut [u32], st: State) -> Step
    requires { Ready (text source.now) st }
    ensures { Parses n-list-expression Lone (text source.now) st tree.old tree.new result }
{
    let mut here = st;
    let mut lone = EMPTY;
    while !token::closes(here.class) {
        let inner = expr(source, tree, here);
        let Step::Next(a, _, _) = inner else {
            return inner;
        };
        if a.class != class::COMMA {
            return Step::Next(a, first(lone), 0);
        }
        here = source.advance(a);
        lone = LISTED;
    }
    Step::Next(here, lone, 0)
}

// `match e { arms }`. `match_expr_parser`, `assemble_match_arms`.
#[cycle(expression)]
#[inline(never)]
fn cases(source: &Source, tree: &mut [u32], st: State) -> Step
    requires ready { Ready (text source.now) st }
    requires class_value { choose table n-single st.class ≡ choice.Match }
    ensures { Parses n-single (Node ExprKind) (text source.now) st tree.old tree.new result }
{
    let a = source.advance(tree::reserve(fault::clean(st)));
    let inner = expr(source, tree, a);
    let Step::Next(b, _, _) = inner else {
        return inner;
    };
    let open = source.eat(b, class::LBRACE);
    let Step::Next(d, _, _) = open else {
        return open;
    };
    let rest = arms(source, tree, d);
    let Step::Next(f, order, mid) = rest else {
        return rest;
    };
    let brace = source.eat(f, class::RBRACE);
    let Step::Next(g, _, _) = brace else {
        return brace;
    };
    arms::arrange(tree, order, b.out, mid, g.out);
    tree::close(tree, st, g, Head::plain(arms::kind(order)));
    let z = fault::judged(st, g, fault::placed(arms::fault(order), st.start));
    Step::Next(z, 0, 0)
}

// Arms, up to the brace that closes them; their order, and the first record after the first of them.
#[cycle(expression)]
#[inline(always)]
fn arms(source: &Source, tree: &mut [u32], st: State) -> Step
    requires ready { Ready (text source.now) st }
    requires out_lt_at { st.out < st.at }
    ensures { Parses n-many-arm (Arms st) (text source.now) st tree.old tree.new result }
{
    let mut here = st;
    let mut order = arms::NO_ARM;
    let mut mid = st.out;
    while here.class != class::RBRACE {
        let inner = arm(source, tree, here);
        let Step::Next(a, kind, low) = inner else {
            return inner;
        };
        mid = arms::first_end(order, mid, a.out);
        order = arms::after(order, kind, low);
        here = a;
    }
    Step::Next(here, order, mid)
}

// An arm; its kind and low. `match_arm_parser`.
#[cycle(expression)]
#[inline(always)]
fn arm(source: &Source, tree: &mut [u32], st: State) -> Step
    requires ready { Ready (text source.now) st }
    requires out_lt_at { st.out < st.at }
    ensures { Parses n-arm Arm (text source.now) st tree.old tree.new result }
{
    let head = heads::head(source, tree, tree::reserve(st));
    let Step::Next(a, number, other) = head else {
        return head;
    };
    let arrow = source.eat(a, class::FAT_ARROW);
    let Step::Next(b, _, _) = arrow else {
        return arrow;
    };
    let rest = body(source, tree, b);
    let Step::Next(z, _, _) = rest else {
        return rest;
    };
    let h = arms::head(number, other);
    tree::close(tree, st, z, h);
    Step::Next(z, u32::from(h.kind), h.low)
}

// What an arm has behind its fat arrow: a block, or an expression and a comma; after a block the comma may be missing.
#[cycle(expression)]
#[inline(always)]
fn body(source: &Source, tree: &mut [u32], st: State) -> Step
    requires { Ready (text source.now) st }
    ensures { Parses n-arm-choice Body (text source.now) st tree.old tree.new result }
{
    if st.class == class::LBRACE {
        let inner = block(source, tree, st);
        let Step::Next(a, _, _) = inner else {
            return inner;
        };
        if a.class == class::COMMA {
            let b = source.advance(a);
            return Step::Next(b, 0, 0);
        }
        return Step::Next(a, 0, 0);
    }
    let other = single(source, tree, st);
    let Step::Next(d, _, _) = other else {
        return other;
    };
    let comma = source.eat(d, class::COMMA);
    let Step::Next(z, _, _) = comma else {
        return comma;
    };
    Step::Next(z, 0, 0)
}
