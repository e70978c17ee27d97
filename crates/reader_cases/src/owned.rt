// Whether the records of an accepted draft own its tokens (document 01, "Records and the marks they own"; document 02, order 3), by trying every place.
// A record owns what its place holds and no child's does.
// Check 1: one record alone owns each token; no other that holds it has as few bytes; its kind may own the token's class.
// Check 2: a child is of a kind that its record may hold, and in its place; the children's sizes and one more are the record's size; a child's way up
// leads back to its record, and that of the first record is 0.
// Check 3: the tokens that each record owns add up to the tokens.
// Check 4: of two built-in arms of one match the first is odd, and the second one more.
ghost use Rattle.std.specs.Prelude.{◌≤◌, length};
ghost use Rattle.std.specs.Iterator.{at_most};

use own::arm::MatchPattern;
use own::kind::Kind;
use parse::ReadAs;
use text::{RECORD_WORDS, TOKEN_WORDS};

// The words of a token and of a record.
pub(crate) type TokenWords = [u32; TOKEN_WORDS];

pub(crate) type RecordWords = [u32; RECORD_WORDS];

// The bytes of a draft from start to end.
#[derive(Clone, Copy, PartialEq, Eq, Debug)]
struct Place {
    start: usize,
    end: usize,
}

impl Place {
    fn holds(self, other: Place) -> bool {
        self.start <= other.start && other.end <= self.end
    }

    fn bytes(self) -> usize {
        self.end.saturating_sub(self.start)
    }
}

// A token by its words. Its kind stays a number, as `lexer::class` takes it.
#[derive(Clone, Copy, PartialEq, Eq, Debug)]
struct Token {
    kind: u32,
    place: Place,
}

impl From<&TokenWords> for Token {
    fn from(words: &TokenWords) -> Token {
        let [kind, start, end] = *words;
        Token {
            kind,
            place: Place {
                start: start as usize,
                end: end as usize,
            },
        }
    }
}

// A record by all its seven words; the record of `load` is the six that a line of every form has, and stays in its crate.
// The kind stays a number, since a wrong reader may write any number there: `kinds::may_hold` and `may_own` take numbers and refuse those of no kind, so an
// `Option<Kind>` would be turned back at each of their calls.
#[derive(Clone, Copy, PartialEq, Eq, Debug)]
struct Record {
    kind: u32,
    place: Place,
    low: u32,
    high: u32,
    size: usize,
    up: usize,
}

impl From<&RecordWords> for Record {
    fn from(words: &RecordWords) -> Record {
        let [kind, start, end, low, high, size, up] = *words;
        Record {
            kind,
            place: Place {
                start: start as usize,
                end: end as usize,
            },
            low,
            high,
            size: size as usize,
            up: up as usize,
        }
    }
}

impl Record {
    fn is(self, kind: Kind) -> bool {
        self.kind == u32::from(kind)
    }
}

// A record, and the records beneath it; all behind it if its size is 0 or says more than there are.
#[derive(Clone, Copy)]
struct Node<'a> {
    record: Record,
    beneath: &'a [RecordWords],
}

impl<'a> Node<'a> {
    fn new(words: &RecordWords, behind: &'a [RecordWords]) -> Node<'a>
        ensures { length result.beneath.now ≤ length behind.now }
    {
        let record = Record::from(words);
        let below = record.size.checked_sub(1).unwrap_or(behind.len());
        Node {
            record,
            beneath: &behind[..below.min(behind.len())],
        }
    }
}

// Records that lie one behind the other, each with what is beneath it. An iterator beside `Nodes`: one of both would be handed a flag for the one line in which
// they differ.
#[derive(Drop)]
struct Children<'a>(&'a [RecordWords]);

impl<'a> Iterator for Children<'a> {
    type Item = Node<'a>;

    ghost remaining = { λ children. at_most (length children.0.now) };

    fn next(&mut self) -> Option<Node<'a>> {
        let (words, behind) = self.0.split_first()?;
        let node = Node::new(words, behind);
        self.0 = &behind[node.beneath.len()..];
        Some(node)
    }
}

// Every record, with what is beneath it.
#[derive(Drop)]
struct Nodes<'a>(&'a [RecordWords]);

impl<'a> Iterator for Nodes<'a> {
    type Item = Node<'a>;

    ghost remaining = { λ nodes. at_most (length nodes.0.now) };

    fn next(&mut self) -> Option<Node<'a>> {
        let (words, behind) = self.0.split_first()?;
        self.0 = behind;
        Some(Node::new(words, behind))
    }
}

// Whether two children side by side, if both are built-in arms, are a pair in its order.
fn are_paired(one: Record, next: Record) -> bool {
    !one.is(Kind::BuiltinArm)
        || !next.is(Kind::BuiltinArm)
        || [
            (MatchPattern::Left, MatchPattern::Right),
            (MatchPattern::None, MatchPattern::Some),
            (MatchPattern::False, MatchPattern::True),
        ]
        .iter()
        .any(|(first, second)| one.low == u32::from(*first) && next.low == u32::from(*second))
}

impl<'a> Node<'a> {
    fn children(self) -> Children<'a> {
        Children(self.beneath)
    }

    fn owns(self, place: Place) -> bool {
        self.record.place.holds(place)
            && !self.children().any(|child| child.record.place.holds(place))
    }

    // How many tokens the record owns.
    fn count_owned(self, tokens: &[TokenWords]) -> usize {
        tokens
            .iter()
            .filter(|token| self.owns(Token::from(*token).place))
            .count()
    }

    // Whether a child is of a kind that the record may hold, has its place within the record's, and counts the records beneath it.
    fn may_hold(self, child: Node<'_>) -> bool {
        kinds::may_hold(self.record.kind, child.record.kind)
            && self.record.place.holds(child.record.place)
            && child.record.size.checked_sub(1) == Some(child.beneath.len())
    }

    // Check 2 of a record.
    fn children_fit(self) -> bool {
        let mut way = 1usize;
        for child in self.children() {
            if child.record.up != way || !self.may_hold(child) {
                return false;
            }
            way = way.saturating_add(child.record.size);
        }
        way == self.record.size
    }

    // Check 4 of a record.
    fn arms_in_order(self) -> bool {
        self.children()
            .zip(self.children().skip(1))
            .all(|(one, next)| are_paired(one.record, next.record))
    }

    // Checks 2 and 4 of a record.
    fn fits(self) -> bool {
        self.children_fit() && (!self.record.is(Kind::Match) || self.arms_in_order())
    }
}

// Whether one record alone holds a place and has no more bytes than so many.
fn is_narrowest(records: &[RecordWords], place: Place, bytes: usize) -> bool {
    records
        .iter()
        .filter(|words| {
            let held = Record::from(*words).place;
            held.holds(place) && held.bytes() <= bytes
        })
        .count()
        == 1
}

// An accepted draft, with its tokens and records.
#[derive(Clone, Copy)]
pub(crate) struct Accepted<'a> {
    pub(crate) draft: &'a [u8],
    pub(crate) tokens: &'a [TokenWords],
    pub(crate) records: &'a [RecordWords],
}

impl<'a> Accepted<'a> {
    // Check 1 of a token.
    fn is_owned(self, token: Token) -> bool {
        let place = token.place;
        let mut owners = Nodes(self.records).filter(|node| node.owns(place));
        let (Some(owner), None) = (owners.next(), owners.next()) else {
            return false;
        };
        let class = lexer::class(self.draft, token.kind, place.start, place.end);
        is_narrowest(self.records, place, owner.record.place.bytes())
            && kinds::may_own(owner.record.kind, class)
    }

    // Check 3.
    fn counts_agree(self) -> bool {
        Nodes(self.records).try_fold(self.tokens.len(), |left, node| {
            left.checked_sub(node.count_owned(self.tokens))
        }) == Some(0)
    }

    // Whether all four checks hold of trees side by side.
    fn trees_owned(self) -> bool {
        Nodes(self.records).all(|node| node.fits())
            && self
                .tokens
                .iter()
                .all(|token| self.is_owned(Token::from(token)))
            && self.counts_agree()
    }

    pub(crate) fn is_owned_as(self, what: ReadAs) -> bool {
        match what {
            ReadAs::Function => self.is_function_owned(),
            ReadAs::File => self.is_file_owned(),
        }
    }

    // Whether they hold of one tree: the first record's size is the number of records.
    fn is_function_owned(self) -> bool {
        let Some(first) = self.records.first().map(Record::from) else {
            return false;
        };
        first.size == self.records.len() && first.up == 0 && self.trees_owned()
    }

    // Whether they hold of a file: the first record, which is no other's kind, counts all records, owns no token and holds its items; the four checks hold of
    // all others.
    fn is_file_owned(self) -> bool {
        let Some((words, records)) = self.records.split_first() else {
            return false;
        };
        let first = Node::new(words, records);
        let program = Record {
            kind: u32::from(Kind::Program),
            place: Place {
                start: 0,
                end: self.draft.len(),
            },
            low: 0,
            high: 0,
            size: self.records.len(),
            up: 0,
        };
        let items = Accepted { records, ..self };
        first.record == program
            && first.children_fit()
            && first.count_owned(self.tokens) == 0
            && items.trees_owned()
    }
}
