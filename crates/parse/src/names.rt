// Names: those that are records of their own, and what names say of types, patterns and calls.
ghost use Rattle.std.specs.Prelude.{◌≡◌, [], ◌∷◌, if◌then◌else◌, nat_eq};
ghost use Rattle.text.specs.Part.{part_of};
ghost use Rattle.theory.specs.Grammar.{tok, nt};
ghost use Rattle.lexer.specs.Classes as t;
ghost use Rattle.own.specs.Numbers.{kind_number, call_number};
ghost use Rattle.grammar.specs.Shapes.TablesIndex.{n-identifier, n-path-many-DoubleColon};
ghost use Rattle.grammar.specs.Records.Records.{head, plain, type_name_head, pattern_name_head, literal_head, call_head, alone_head};
ghost use Rattle.parse.specs.Contract.{text, name_nt, is_name, Ready, Near, Parsed, Parses, as_items, NameAt, Decimal, Names, Called, Wraps, bound_fault, size_fault};

use crate::token::Source;
use crate::tree::Head;
use crate::{State, Step, choice, fault, tree};
use lexer::classes as class;
use own::call::CallName;
use own::kind::Kind;
use text::refusal::Refusal;

// The names that are records of their own. It tells `name` which nonterminal is read (`name_nt`), and so which classes a table allows.
#[derive(Clone, Copy, PartialEq, Eq, Debug)]
pub(crate) enum NameSort {
    Identifier,
    Function,
    Alias,
}

// Whether a token of this class is such a name.
fn is_name(class: u32, sort: NameSort) -> bool
    ensures { result ≡ is_name sort class }
{
    match sort {
        NameSort::Identifier => choice::names(class) != choice::ABSENT,
        NameSort::Function => choice::names(class) == choice::FUNCTION_NAME,
        NameSort::Alias => choice::aliases(class) != choice::ABSENT,
    }
}

// A name, as a record. Inlined: called, it took ten instructions more for each name.
#[inline(always)]
pub(crate) fn name(source: &Source, tree: &mut [u32], st: State, sort: NameSort) -> Step
    requires { Near (text source.now) st }
    ensures { Parses (name_nt sort) (NameAt (text source.now) st.at) (text source.now) st tree.old tree.new result }
{
    if !is_name(st.class, sort) {
        return Step::Refused(st.at);
    }
    let a = source.advance(st);
    let b = tree::name(tree, st, a);
    Step::Next(b, 0, 0)
}

// Names joined by `::`, each a record, and how many. No token closes them: no list of those that types.rt speaks of, so a loop of its own.
pub(crate) fn names(source: &Source, tree: &mut [u32], st: State) -> Step
    requires { Ready (text source.now) st }
    ensures { Parsed (text source.now) (nt n-identifier ∷ nt n-path-many-DoubleColon ∷ []) as_items Names st tree.old tree.new result }
{
    let first = name(source, tree, st, NameSort::Identifier);
    let Step::Next(a, _, _) = first else {
        return first;
    };
    let mut here = a;
    let mut number = 1;
    while here.class == class::DOUBLE_COLON {
        let b = source.advance(here);
        let next = name(source, tree, b, NameSort::Identifier);
        let Step::Next(c, _, _) = next else {
            return next;
        };
        here = c;
        number += 1;
    }
    Step::Next(here, number, 0)
}

// What a name is as a type: an alias, `bool`, an unsigned type or a built-in alias.
#[tactic(auto, unfolding(grammar::specs::Records::Records::type_name_head, grammar::specs::Records::Records::place_in, text::specs::Lists::has))]
pub(crate) fn type_name(class: u32) -> Head
    ensures { head (kind_number result.kind) result.low result.high ≡ type_name_head class }
{
    match class {
        class::BOOL_TYPE => Head::plain(Kind::BoolType),
        class::U1..=class::U256 => Head::with_low(Kind::Unsigned, 1 << (class - class::U1)),
        class::CTX8..=class::LAST => Head::with_low(Kind::Builtin, class - class::CTX8),
        _ => Head::plain(Kind::Alias),
    }
}

// What a name is as a pattern: an identifier, or `_`.
pub(crate) fn pattern_name(source: &Source, st: State) -> Kind
    ensures { plain (kind_number result) ≡ pattern_name_head (part_of source.now.draft.now st.start st.stop) st.class }
{
    if st.class != class::IDENT {
        return Kind::IdentifierPattern;
    }
    if source.part(st) == b"_".as_slice() {
        return Kind::IgnorePattern;
    }
    Kind::IdentifierPattern
}

// A literal: its kind, and 1 for `true`.
#[tactic(auto, unfolding(grammar::specs::Records::Records::literal_head))]
#[inline(always)]
pub(crate) fn literal(class: u32) -> Head
    ensures { head (kind_number result.kind) result.low result.high ≡ literal_head class }
{
    let kind = match class {
        class::FALSE | class::TRUE => Kind::Boolean,
        class::DEC_LITERAL => Kind::Decimal,
        class::HEX_LITERAL => Kind::Hexadecimal,
        class::BIN_LITERAL => Kind::Binary,
        class::WITNESS => Kind::Witness,
        _ => Kind::ParameterValue,
    };
    Head::with_low(kind, u32::from(class == class::TRUE))
}

// Which of the fourteen calls begins with a token of this class: a custom function where no other does.
#[tactic(auto, unfolding(grammar::specs::Records::Records::call_head, grammar::specs::Records::Records::place_in, text::specs::Lists::has))]
pub(crate) fn call(class: u32) -> CallName
    ensures { call_number result ≡ (call_head class).low }
{
    match class {
        class::JET => CallName::Jet,
        class::UNWRAP_LEFT => CallName::UnwrapLeft,
        class::UNWRAP_RIGHT => CallName::UnwrapRight,
        class::UNWRAP => CallName::Unwrap,
        class::IS_NONE => CallName::IsNone,
        class::ASSERT_MACRO => CallName::Assert,
        class::PANIC_MACRO => CallName::Panic,
        class::DBG_MACRO => CallName::Debug,
        class::LANGLE => CallName::TypeCast,
        class::FOLD => CallName::Fold,
        class::ARRAY_FOLD => CallName::ArrayFold,
        class::FOR_WHILE => CallName::ForWhile,
        class::RAW_HASH => CallName::RawHash,
        _ => CallName::Custom,
    }
}

// The kind of a name that stands alone: `None`, otherwise a variable.
#[tactic(auto, unfolding(grammar::specs::Records::Records::alone_head))]
pub(crate) fn alone(class: u32) -> Kind
    ensures { plain (kind_number result) ≡ alone_head class }
{
    if class == class::NONE {
        Kind::None
    } else {
        Kind::Variable
    }
}

// The kind of a wrapper, Left, Right or Some; none for any other class. As a head of an arm such a word has a number of its own (`heads::wrapper`).
#[tactic(auto, unfolding(grammar::specs::Records::Records::wrapper_head, grammar::specs::Records::Records::place_in, text::specs::Lists::has))]
pub(crate) fn wrapper(class: u32) -> Option<Kind>
    ensures { Wraps class result }
{
    match class {
        class::LEFT => Some(Kind::Left),
        class::RIGHT => Some(Kind::Right),
        class::SOME => Some(Kind::Some),
        _ => None,
    }
}

// The name of a call: a record where it is a jet's token or a function's name, otherwise a mark of the call.
pub(crate) fn callee(tree: &mut [u32], st: State, a: State) -> State
    ensures { Called st a tree.old tree.new result }
{
    if st.class == class::JET || choice::names(st.class) == choice::FUNCTION_NAME {
        return tree::name(tree, st, a);
    }
    a
}

// A decimal, as a record that holds its number.
pub(crate) fn decimal(source: &Source, tree: &mut [u32], st: State) -> Step
    requires { Ready (text source.now) st }
    ensures { Parsed (text source.now) (tok t.DecLiteral ∷ []) as_items (Decimal (text source.now) st.at) st tree.old tree.new result }
{
    if st.class != class::DEC_LITERAL {
        return Step::Refused(st.at);
    }
    let a = source.advance(st);
    let b = tree::decimal(tree, st, a, source.number(st));
    Step::Next(b, 0, 0)
}

// The refusal of the number of a fold or an `array_fold`, if there is one.
pub(crate) fn size_fault(class: u32, v: Option<u64>) -> Option<Refusal>
    ensures { result ≡ (if nat_eq class t.array_fold then size_fault v else bound_fault v) }
{
    if class == class::ARRAY_FOLD {
        return fault::size(v);
    }
    fault::bound(v)
}
