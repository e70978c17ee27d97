// Brackets open and `match` tokens in a row, counted while lexing: refusal 7 is found in the same pass as the tokens.
ghost use Rattle.std.specs.Prelude.{◌≡◌, ◌+◌, ◌-◌, ◌≤◌, MatchOption};
ghost use Rattle.lexer.specs.Limits.{most_open, depth_after, row_after};

use crate::classes as class;

// How many brackets may be open, and how many `match` tokens may stand in a row.
const MOST_OPEN: usize = 48;

const MOST_IN_ROW: usize = 8;

// Brackets open and `match` tokens in a row, where no limit is passed.
#[derive(Clone, Copy)]
pub(crate) struct Counts {
    depth: usize,
    row: usize,
    ghost few: { depth ≤ most_open },
}

impl Counts {
    ghost use Rattle.lexer.specs.Nesting.{Passes, Counted};

    // Behind a bracket that opens; none where that passes the limit.
    fn opened(self) -> Option<Counts>
        ensures { MatchOption result (Passes (self.depth + 1) 0) (λ c. Counted (self.depth + 1) 0 c.depth c.row) }
    {
        if self.depth == MOST_OPEN {
            return None;
        }
        Some(Counts {
            depth: self.depth + 1,
            row: 0,
        })
    }

    // Behind a bracket that closes: one less, never below 0.
    fn closed(self) -> Counts
        ensures { (result.depth ≡ self.depth - 1) × (result.row ≡ 0) }
    {
        Counts {
            depth: self.depth.saturating_sub(1),
            row: 0,
        }
    }

    // Behind `match`; none where that passes the limit.
    fn matched(self) -> Option<Counts>
        ensures { MatchOption result (Passes self.depth (self.row + 1)) (λ c. Counted self.depth (self.row + 1) c.depth c.row) }
    {
        if self.row >= MOST_IN_ROW {
            return None;
        }
        Some(Counts {
            depth: self.depth,
            row: self.row + 1,
        })
    }

    // Behind a token that only ends a row.
    fn ended(self) -> Counts
        ensures { (result.depth ≡ self.depth) × (result.row ≡ 0) }
    {
        Counts {
            depth: self.depth,
            row: 0,
        }
    }

    // Behind a token of a kind; none where that passes a limit.
    fn after(self, kind: u32) -> Option<Counts>
        ensures { MatchOption result (Passes (depth_after kind self.depth) (row_after kind self.row)) (λ c. Counted (depth_after kind self.depth) (row_after kind self.row) c.depth c.row) }
    {
        match kind {
            class::LPAREN | class::LBRACKET | class::LBRACE | class::LANGLE => self.opened(),
            class::RPAREN | class::RBRACKET | class::RBRACE | class::RANGLE => Some(self.closed()),
            class::MATCH => self.matched(),
            _ => Some(self.ended()),
        }
    }
}

// What is known behind some tokens: the counts, or, once a limit is passed, where it was. It is no `Result`: a limit that is passed is no error that is handed
// up at once, since the loop goes on with it to look for a refusal of the bytes.
#[derive(Clone, Copy)]
pub(crate) enum Nest {
    Within(Counts),
    Past(usize),
}

impl Nest {
    ghost use Rattle.std.specs.Prelude.{ℕ};
    ghost use Rattle.lexer.specs.Nesting.{Uncounted, known, nest_after, outermost};

    // Before all tokens.
    pub(crate) fn outside() -> Self
        ensures { known result ≡ outermost }
    {
        Nest::Within(Counts { depth: 0, row: 0 })
    }

    // Behind a token that only ends a row. Once a limit is passed, the place alone is handed on: with `other => other` in its place the lexing loop
    // kept the row beside it, and names took 2 percent more instructions.
    fn ended(self) -> Nest
        ensures { (k : ℕ) → (i : ℕ) → Uncounted k → known result ≡ nest_after (known self) k i }
    {
        match self {
            Nest::Within(counts) => Nest::Within(counts.ended()),
            Nest::Past(place) => Nest::Past(place),
        }
    }

    // Behind a bracket or `match`. Once a limit is passed, nothing is counted any longer: the first token that did is the refused one.
    fn counted(self, kind: u32, start: usize) -> Nest
        ensures { known result ≡ nest_after (known self) kind start }
    {
        let Nest::Within(counts) = self else {
            return self;
        };
        match counts.after(kind) {
            Some(counts) => Nest::Within(counts),
            None => Nest::Past(start),
        }
    }

    // Behind one token more. Names and numbers, the most frequent, have kinds behind those of brackets, so one test sets them apart. With one `match` over
    // the brackets' range and `match` in place of the three tests, names took 4 percent more instructions, digits 4.5; with that of `Counts::after` alone,
    // names 15.
    #[inline(always)]
    pub(crate) fn after(self, kind: u32, start: usize) -> Nest
        ensures { known result ≡ nest_after (known self) kind start }
    {
        if kind > class::RANGLE {
            return self.ended();
        }
        if kind >= class::LPAREN {
            return self.counted(kind, start);
        }
        if kind == class::MATCH {
            return self.counted(kind, start);
        }
        self.ended()
    }
}
