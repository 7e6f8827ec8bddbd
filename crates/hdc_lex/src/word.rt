//! Names and what is reserved.

ghost use Rattle.std.specs.Prelude.{◌≡◌, IfOk};
ghost use Rattle.hdc_lex.specs.Words.{key_under, reserved_operators, reserved_words, symbol, variable};

use hdc_base::{Key, Text, Want, Word};
use std::alloc::Global;

/// The variable or the reserved word that a name is.
pub fn variable(alloc: Global, name: &[u8]) -> Result<Word, Want>
    ensures { IfOk result (λ w. w ≡ variable name.now) }
{
    match reserved_word(name) {
        Some(key) => Ok(Word::Key(key)),
        None => Ok(Word::Var(Text::from_slice(alloc, name)?)),
    }
}

/// The name of symbols or the reserved operator that some symbols are.
pub fn symbol(alloc: Global, name: &[u8]) -> Result<Word, Want>
    ensures { IfOk result (λ w. w ≡ symbol name.now) }
{
    match reserved_operator(name) {
        Some(key) => Ok(Word::Key(key)),
        None => Ok(Word::Sym(Text::from_slice(alloc, name)?)),
    }
}

fn reserved_word(name: &[u8]) -> Option<Key>
    ensures { result ≡ key_under reserved_words name.now }
{
    match name {
        _ if name == b"case".as_slice() => Some(Key::KCase),
        _ if name == b"class".as_slice() => Some(Key::KClass),
        _ if name == b"data".as_slice() => Some(Key::KData),
        _ if name == b"default".as_slice() => Some(Key::KDefault),
        _ if name == b"deriving".as_slice() => Some(Key::KDeriving),
        _ if name == b"do".as_slice() => Some(Key::KDo),
        _ if name == b"else".as_slice() => Some(Key::KElse),
        _ if name == b"if".as_slice() => Some(Key::KIf),
        _ if name == b"import".as_slice() => Some(Key::KImport),
        _ if name == b"in".as_slice() => Some(Key::KIn),
        _ if name == b"infix".as_slice() => Some(Key::KInfix),
        _ if name == b"infixl".as_slice() => Some(Key::KInfixl),
        _ if name == b"infixr".as_slice() => Some(Key::KInfixr),
        _ if name == b"instance".as_slice() => Some(Key::KInstance),
        _ if name == b"let".as_slice() => Some(Key::KLet),
        _ if name == b"module".as_slice() => Some(Key::KModule),
        _ if name == b"newtype".as_slice() => Some(Key::KNewtype),
        _ if name == b"of".as_slice() => Some(Key::KOf),
        _ if name == b"then".as_slice() => Some(Key::KThen),
        _ if name == b"type".as_slice() => Some(Key::KType),
        _ if name == b"where".as_slice() => Some(Key::KWhere),
        _ if name == b"_".as_slice() => Some(Key::KUnderscore),
        _ => None,
    }
}

fn reserved_operator(name: &[u8]) -> Option<Key>
    ensures { result ≡ key_under reserved_operators name.now }
{
    match name {
        _ if name == b"..".as_slice() => Some(Key::KDots),
        _ if name == b":".as_slice() => Some(Key::KColon),
        _ if name == b"::".as_slice() => Some(Key::KDoubleColon),
        _ if name == b"=".as_slice() => Some(Key::KEqual),
        _ if name == b"\\".as_slice() => Some(Key::KBackslash),
        _ if name == b"|".as_slice() => Some(Key::KBar),
        _ if name == b"<-".as_slice() => Some(Key::KLeftArrow),
        _ if name == b"->".as_slice() => Some(Key::KRightArrow),
        _ if name == b"@".as_slice() => Some(Key::KAt),
        _ if name == b"~".as_slice() => Some(Key::KTilde),
        _ if name == b"=>".as_slice() => Some(Key::KDoubleArrow),
        _ => None,
    }
}
