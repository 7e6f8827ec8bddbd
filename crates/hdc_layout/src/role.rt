//! What tokens are to the layout.

ghost use Rattle.std.specs.Prelude.{◌≡◌};
ghost use Rattle.hdc_layout.specs.Roles.{answers, begins_block, is_open_brace, is_where, key_role, role_of};

use hdc_base::{Key, Word};

/// What a token is to the layout.
#[derive(Clone, Copy, Debug, PartialEq, Eq)]
pub enum Role {
    /// A `{`.
    OpenBrace,
    /// A `}`.
    CloseBrace,
    /// An opener.
    Opens(Opener),
    /// The answer to an opener.
    Answers(Answer),
    /// The word `where`.
    Where,
    /// The word `module`.
    Module,
    /// Any other token.
    Other,
}

/// A token that waits for its answer.
#[derive(Clone, Copy, Debug, PartialEq, Eq)]
pub enum Opener {
    Let,
    If,
    Then,
    Case,
    Paren,
    Bracket,
}

/// A token that answers an opener.
#[derive(Clone, Copy, Debug, PartialEq, Eq)]
pub enum Answer {
    In,
    Then,
    Else,
    Of,
    CloseParen,
    CloseBracket,
    Comma,
}

/// What a token of the word is to the layout.
pub fn role_of(word: &Word) -> Role
    ensures { result ≡ role_of word.now }
{
    match word {
        Word::Key(key) => key_role(*key),
        _ => Role::Other,
    }
}

fn key_role(key: Key) -> Role
    ensures { result ≡ key_role key }
{
    match key {
        Key::KOpenBrace => Role::OpenBrace,
        Key::KCloseBrace => Role::CloseBrace,
        Key::KLet => Role::Opens(Opener::Let),
        Key::KIf => Role::Opens(Opener::If),
        Key::KCase => Role::Opens(Opener::Case),
        Key::KOpenParen => Role::Opens(Opener::Paren),
        Key::KOpenBracket => Role::Opens(Opener::Bracket),
        Key::KIn => Role::Answers(Answer::In),
        Key::KThen => Role::Answers(Answer::Then),
        Key::KElse => Role::Answers(Answer::Else),
        Key::KOf => Role::Answers(Answer::Of),
        Key::KCloseParen => Role::Answers(Answer::CloseParen),
        Key::KCloseBracket => Role::Answers(Answer::CloseBracket),
        Key::KComma => Role::Answers(Answer::Comma),
        Key::KWhere => Role::Where,
        Key::KModule => Role::Module,
        _ => Role::Other,
    }
}

/// Whether a block begins behind the token, where no `{` comes next.
pub fn begins_block(role: Role) -> bool
    ensures { result ≡ begins_block role }
{
    matches!(
        role,
        Role::Opens(Opener::Let) | Role::Where | Role::Answers(Answer::Of)
    )
}

/// Whether the token is a `{`.
pub fn is_open_brace(role: Role) -> bool
    ensures { result ≡ is_open_brace role }
{
    matches!(role, Role::OpenBrace)
}

/// Whether the token is `where`.
pub fn is_where(role: Role) -> bool
    ensures { result ≡ is_where role }
{
    matches!(role, Role::Where)
}

/// Whether the token answers such an opener.
pub fn answers(answer: Answer, opener: Opener) -> bool
    ensures { result ≡ answers answer opener }
{
    match answer {
        Answer::In => matches!(opener, Opener::Let),
        Answer::Then => matches!(opener, Opener::If),
        Answer::Else => matches!(opener, Opener::Then),
        Answer::Of => matches!(opener, Opener::Case),
        Answer::CloseParen => matches!(opener, Opener::Paren),
        Answer::CloseBracket => matches!(opener, Opener::Bracket),
        Answer::Comma => matches!(opener, Opener::Paren | Opener::Bracket),
    }
}
