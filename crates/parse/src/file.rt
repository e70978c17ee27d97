// The items of a file, functions and type items: src/parse/grammar/program.rs. Above them stands the record of the whole file.
ghost use Rattle.std.specs.Prelude.{◌≡◌, ◌<◌, length};
ghost use Rattle.lexer.specs.Classes as t;
ghost use Rattle.grammar.specs.Shapes.TablesIndex.{n-type_item, n-file};
ghost use Rattle.parse.specs.Contract.{text, Ready, Parses, Node, u32_count};
ghost use Rattle.parse.specs.Infos.{TypeItemKind, ItemKind, item_at, FileItems, behind, FileRead};

use crate::names::NameSort;
use crate::token::{END, Source};
use crate::tree::Head;
use crate::{State, Step, names, program, tree, types};
use lexer::classes as class;
use own::kind::Kind;
use text::RECORD_WORDS;

// `type name = T;`, where `type` stands.
fn type_item(source: &Source, tree: &mut [u32], st: State) -> Step
    requires ready { Ready (text source.now) st }
    requires class_value { st.class ≡ t.«Type» }
    ensures { Parses n-type_item (Node TypeItemKind) (text source.now) st tree.old tree.new result }
{
    let a = source.advance(tree::reserve(st));
    let name = names::name(source, tree, a, NameSort::Alias);
    let Step::Next(b, _, _) = name else {
        return name;
    };
    let equals = source.eat(b, class::EQ);
    let Step::Next(d, _, _) = equals else {
        return equals;
    };
    let inner = types::ty(source, tree, d);
    let Step::Next(f, _, _) = inner else {
        return inner;
    };
    let semi = source.eat(f, class::SEMI);
    let Step::Next(z, _, _) = semi else {
        return semi;
    };
    tree::close(tree, st, z, Head::plain(Kind::TypeItem));
    Step::Next(z, 0, 0)
}

// A type item where `type` stands, otherwise a function.
#[tactic(auto, using(crate::proofs::file::Forms::as_type_item, crate::proofs::file::Forms::as_function))]
fn item(source: &Source, tree: &mut [u32], st: State) -> Step
    requires { Ready (text source.now) st }
    ensures { Parses (item_at st.class) (Node ItemKind) (text source.now) st tree.old tree.new result }
{
    if st.class == class::TYPE {
        return type_item(source, tree, st);
    }
    program::function(source, tree, st)
}

// Items one after the other, up to the end.
fn items(source: &Source, tree: &mut [u32], st: State) -> Step
    requires { Ready (text source.now) st }
    ensures { Parses n-file FileItems (text source.now) st tree.old tree.new result }
{
    let mut here = st;
    while here.class != END {
        let inner = item(source, tree, here);
        let Step::Next(a, _, _) = inner else {
            return inner;
        };
        here = a;
    }
    Step::Next(here, 0, 0)
}

// Where the words behind the first record begin, in a buffer of so many; its end if it is shorter.
#[tactic(auto, unfolding(crate::specs::Infos::behind))]
fn first_words(size: usize) -> usize
    ensures { result ≡ behind size }
{
    size.min(RECORD_WORDS)
}

// A whole file: its items behind the first record, and then that record, over all of the draft.
pub(crate) fn file(source: &Source, tree: &mut [u32], st: State) -> Step
    requires ready { Ready (text source.now) st }
    requires draft_len_bound { length source.now.draft.now < u32_count }
    ensures { FileRead (text source.now) (length source.now.draft.now) st tree.old tree.new result }
{
    let from = first_words(tree.len());
    let step = items(source, &mut tree[from..], st);
    let Step::Next(z, _, _) = step else {
        return step;
    };
    let all = tree::reserve(z);
    // Its length is a word, as `too_long` has seen: `u32::try_from` again would have an `Err` here that never comes.
    tree::top(tree, source.draft.len() as u32, all.out);
    Step::Next(all, 0, 0)
}
