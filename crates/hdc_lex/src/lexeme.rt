//! What stands at the front of a text.

use hdc_base::Word;

/// Which lexemes a text may have.
#[derive(Clone, Copy, Debug, PartialEq, Eq)]
pub enum Form {
    /// Those of a program.
    Program,
    /// Those of an input, in which 9,223,372,036,854,775,808 may follow a `-`.
    Input,
}

/// What is wrong where no piece of a text begins.
#[derive(Clone, Copy, Debug, PartialEq, Eq)]
pub enum Fault {
    /// A byte, so many bytes further, begins no lexeme or may not stand in a literal.
    Byte(usize),
    /// A malformed or too large literal.
    Literal,
    /// A comment, a string or a character that is cut off.
    Unclosed,
}

/// A piece of a text.
#[derive(Debug, Drop)]
pub enum Piece {
    White,
    Comment,
    Lexeme(Word),
}
