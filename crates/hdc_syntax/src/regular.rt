//! Tokens that a grammar may have.

ghost use Rattle.std.specs.Prelude.{◌≡◌};
ghost use Rattle.hdc_syntax.specs.Regular as spec;

use hdc_base::{Token, Word};

/// How many tokens stand before the first name of symbols that begins with `:`.
pub fn regular_count(tokens: &[Token]) -> usize
    ensures { result ≡ spec.regular_count tokens.now }
{
    tokens.iter().take_while(|token| is_regular(token)).count()
}

fn is_regular(token: &Token) -> bool
    ensures { result ≡ spec.regular token.now }
{
    match &token.word {
        Word::Sym(text) => match text.as_slice() {
            [] => true,
            [first, ..] => *first != b':',
        },
        _ => true,
    }
}
