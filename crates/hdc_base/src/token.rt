//! Tokens.

use crate::place::At;
use crate::text::{Runes, Text};
use sqlite_items::Items;

/// A token, with the place of its first byte.
#[derive(Debug, Drop)]
pub struct Token {
    pub at: At,
    pub word: Word,
}

/// A list of tokens.
pub type Tokens = Items<Token>;

/// What a token is.
#[derive(Debug, Drop)]
pub enum Word {
    /// A name that begins with a small letter or `_`.
    Var(Text),
    /// A name that begins with a capital letter.
    Con(Text),
    /// A name of symbols.
    Sym(Text),
    /// A number, of at most 9,223,372,036,854,775,808.
    Num(u64),
    /// A character, by its code of at most 1,114,111.
    Chr(u32),
    /// A string, by the codes of its characters.
    Str(Runes),
    /// A reserved word, a reserved operator or a special byte.
    Key(Key),
}

/// The reserved words, the reserved operators and the special bytes.
#[derive(Clone, Copy, Debug, PartialEq, Eq)]
pub enum Key {
    KCase,
    KClass,
    KData,
    KDefault,
    KDeriving,
    KDo,
    KElse,
    KIf,
    KImport,
    KIn,
    KInfix,
    KInfixl,
    KInfixr,
    KInstance,
    KLet,
    KModule,
    KNewtype,
    KOf,
    KThen,
    KType,
    KWhere,
    KUnderscore,
    KDots,
    KColon,
    KDoubleColon,
    KEqual,
    KBackslash,
    KBar,
    KLeftArrow,
    KRightArrow,
    KAt,
    KTilde,
    KDoubleArrow,
    KOpenParen,
    KCloseParen,
    KComma,
    KSemicolon,
    KOpenBracket,
    KCloseBracket,
    KOpenBrace,
    KCloseBrace,
    KBackquote,
}
