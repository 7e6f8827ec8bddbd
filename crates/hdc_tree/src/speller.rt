//! Tokens that are put before others.

ghost use Rattle.std.specs.Prelude.{◌≡◌, [], ◌∷◌, OnOk, IfOk};
ghost use Rattle.hdc_tree.specs.NameSpelling.{capital_onto, comma_var_onto, each_onto, sign_onto, key_onto, literal_onto, minus_onto, op_onto, small_onto, symbol_onto, var_onto, var_op_onto, word_onto, literal_word};

use crate::name::{CommaVar, Literal, Name, Op, Sign, Var, VarOp};
use hdc_base::{At, Key, Runes, Text, Token, Tokens, Want, Word};
use std::alloc::Global;
use std::marker::Model;

/// The tokens behind a place of a tree, which contracts see as their list. In memory the first one is
/// the last.
#[derive(Drop)]
pub struct Speller {
    alloc: Global,
    tokens: Vec<Token>,
}

impl Model for Speller {
    ghost use Rattle.std.specs.Prelude.{List, reverse};
    ghost use Rattle.hdc_base.specs.declared.token.Token.{Token};

    ghost Value = { List Token };

    ghost view = { λ a. reverse a.tokens.items };
}

impl Speller {
    /// No tokens.
    pub fn new(alloc: Global) -> Speller
        ensures { result ≡ [] }
    {
        Speller {
            alloc,
            tokens: Vec::new(alloc),
        }
    }

    /// The tokens.
    pub fn tokens(self) -> Result<Tokens, Want>
        ensures { IfOk result (λ tokens. tokens ≡ self) }
    {
        let Speller { alloc, mut tokens } = self;
        let mut in_order = Vec::with_capacity(alloc, tokens.len())?;
        while let Some(token) = tokens.pop() {
            in_order.push(token)?;
        }
        Ok(Tokens::from_vec(in_order))
    }

    /// A word before the tokens.
    pub fn word(&mut self, at: At, word: Word) -> Result<(), Want>
        ensures { OnOk result (self.new ≡ word_onto at word self.old) }
    {
        self.tokens.push(Token { at, word })?;
        Ok(())
    }

    /// A key before the tokens.
    pub fn key(&mut self, at: At, key: Key) -> Result<(), Want>
        ensures { OnOk result (self.new ≡ key_onto at key self.old) }
    {
        self.word(at, Word::Key(key))
    }

    /// A name that begins with a small letter.
    pub fn small(&mut self, name: &Name) -> Result<(), Want>
        ensures { OnOk result (self.new ≡ small_onto name.now self.old) }
    {
        let text = Text::from_slice(self.alloc, name.text.as_slice())?;
        self.word(name.at, Word::Var(text))
    }

    /// A name that begins with a capital letter.
    pub fn capital(&mut self, name: &Name) -> Result<(), Want>
        ensures { OnOk result (self.new ≡ capital_onto name.now self.old) }
    {
        let text = Text::from_slice(self.alloc, name.text.as_slice())?;
        self.word(name.at, Word::Con(text))
    }

    /// A name of symbols.
    pub fn symbol(&mut self, name: &Name) -> Result<(), Want>
        ensures { OnOk result (self.new ≡ symbol_onto name.now self.old) }
    {
        let text = Text::from_slice(self.alloc, name.text.as_slice())?;
        self.word(name.at, Word::Sym(text))
    }

    /// The sign `-`.
    pub fn minus(&mut self, at: At) -> Result<(), Want>
        ensures { OnOk result (self.new ≡ minus_onto at self.old) }
    {
        let text = Text::from_slice(self.alloc, b"-")?;
        self.word(at, Word::Sym(text))
    }

    /// A variable.
    pub fn var(&mut self, var: &Var) -> Result<(), Want>
        ensures { OnOk result (self.new ≡ var_onto var.now self.old) }
    {
        match var {
            Var::Plain(name) => self.small(name),
            Var::Operator(open_at, name, close_at) => {
                self.key(*close_at, Key::KCloseParen)?;
                self.symbol(name)?;
                self.key(*open_at, Key::KOpenParen)
            }
        }
    }

    /// An operator that is a variable.
    pub fn var_op(&mut self, op: &VarOp) -> Result<(), Want>
        ensures { OnOk result (self.new ≡ var_op_onto op.now self.old) }
    {
        match op {
            VarOp::Symbol(name) => self.symbol(name),
            VarOp::Quoted(open_at, name, close_at) => {
                self.key(*close_at, Key::KBackquote)?;
                self.small(name)?;
                self.key(*open_at, Key::KBackquote)
            }
        }
    }

    /// An operator.
    pub fn op(&mut self, op: &Op) -> Result<(), Want>
        ensures { OnOk result (self.new ≡ op_onto op.now self.old) }
    {
        match op {
            Op::Var(var) => self.var_op(var),
            Op::Cons(at) => self.key(*at, Key::KColon),
            Op::Con(open_at, name, close_at) => {
                self.key(*close_at, Key::KBackquote)?;
                self.capital(name)?;
                self.key(*open_at, Key::KBackquote)
            }
        }
    }

    /// A literal.
    pub fn literal(&mut self, at: At, literal: &Literal) -> Result<(), Want>
        ensures { OnOk result (self.new ≡ literal_onto at literal.now self.old) }
    {
        match literal {
            Literal::Num(n) => self.word(at, Word::Num(*n)),
            Literal::Chr(code) => self.word(at, Word::Chr(*code)),
            Literal::Str(codes) => {
                let codes = Runes::from_slice(self.alloc, codes.as_slice())?;
                self.word(at, Word::Str(codes))
            }
        }
    }

    /// A `-`, or nothing.
    pub fn sign(&mut self, sign: &Sign) -> Result<(), Want>
        ensures { OnOk result (self.new ≡ sign_onto sign.now self.old) }
    {
        match sign {
            Sign::Absent => Ok(()),
            Sign::Minus(at) => self.minus(*at),
        }
    }

    /// Variables with `,` before each.
    pub fn comma_vars(&mut self, parts: &[CommaVar]) -> Result<(), Want>
        ensures { OnOk result (self.new ≡ each_onto comma_var_onto parts.now self.old) }
    {
        let mut count = parts.len();
        while count > 0 {
            count -= 1;
            let part = &parts[count];
            self.var(&part.var)?;
            self.key(part.comma, Key::KComma)?;
        }
        Ok(())
    }
}
