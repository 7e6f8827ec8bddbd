//! What tokens are to the nesting.

ghost use Rattle.std.specs.Prelude.{◌≡◌};
ghost use Rattle.hdc_nesting.specs.Roles.{key_role, role_of};

use hdc_base::{Key, Word};

/// What a token is to the nesting.
#[derive(Clone, Copy, Debug, PartialEq, Eq)]
pub enum Role {
    /// It opens a bracket or a brace.
    Opens,
    /// It closes a bracket or a brace.
    Closes,
    /// It counts in what it stands in.
    Counts,
    /// Behind it nothing before it counts in what it stands in.
    Separates,
    /// Any other token.
    Other,
}

/// What a token of the word is to the nesting.
pub fn role_of(word: &Word) -> Role
    ensures { result ≡ role_of word.now }
{
    match word {
        Word::Key(key) => key_role(*key),
        _ => Role::Other,
    }
}

fn key_role(key: Key) -> Role
    ensures { result ≡ key_role key }
{
    match key {
        Key::KOpenParen => Role::Opens,
        Key::KOpenBracket => Role::Opens,
        Key::KOpenBrace => Role::Opens,
        Key::KCloseParen => Role::Closes,
        Key::KCloseBracket => Role::Closes,
        Key::KCloseBrace => Role::Closes,
        Key::KBackslash => Role::Counts,
        Key::KAt => Role::Counts,
        Key::KIf => Role::Counts,
        Key::KCase => Role::Counts,
        Key::KLet => Role::Counts,
        Key::KSemicolon => Role::Separates,
        Key::KComma => Role::Separates,
        _ => Role::Other,
    }
}
