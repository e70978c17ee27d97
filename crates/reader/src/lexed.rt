// The tokens of a draft as the lexer leaves them in a buffer: what the parser is lent.
ghost use Rattle.std.specs.Prelude.{◌≡◌, length};
ghost use Rattle.text.specs.Answers.{accepted};
ghost use Rattle.lexer.specs.Lexemes.{lexemes};
ghost use Rattle.lexer.specs.Limits.{limits_for, lexed_of, tokens_of};
ghost use Rattle.lexer.specs.Buffer.{tokens_in};

use lexer::Limits;

// The words are all of the buffer, whose length is in what is answered, so the number of tokens stands beside them, and so do the limits that they are within.
#[derive(Clone, Copy)]
pub(crate) struct Lexed<'a> {
    pub(crate) draft: &'a [u8],
    pub(crate) words: &'a [u32],
    pub(crate) count: usize,
    pub(crate) limits: Limits,
    ghost counted: { lexed_of (limits_for limits) draft.now (length words.now) ≡ accepted count 0 },
    ghost held: { tokens_in count words.now ≡ tokens_of (lexemes draft.now) },
}
