//! Variables and operators.

ghost use Rattle.hdc_syntax.specs.Parser as parser;
ghost use Rattle.hdc_syntax.specs.Names as names;
ghost use Rattle.hdc_syntax.specs.Results.{Reads};
ghost use Rattle.std.specs.Prelude.{◌≡◌};

use crate::cursor::Cursor;
use crate::stop::Stop;
use hdc_base::{At, Key};
use hdc_tree::{Op, Var, VarOp};

impl<'a> Cursor<'a> {
    #[tactic(auto, unfolding(crate::specs::Names::operator_var))]
    fn operator_var(&mut self) -> Result<Var, Stop>
        ensures { Reads (names.operator_var self.old.rest.now) result self.new.rest.now }
    {
        let open_at = self.key(Key::KOpenParen)?;
        let name = self.symbol()?;
        let close_at = self.key(Key::KCloseParen)?;
        Ok(Var::Operator(open_at, name, close_at))
    }

    /// A variable.
    #[tactic(auto, unfolding(crate::specs::Names::var))]
    pub fn var(&mut self) -> Result<Var, Stop>
        ensures { Reads (names.var self.old.rest.now) result self.new.rest.now }
    {
        if self.sees(Key::KOpenParen) {
            return self.operator_var();
        }
        Ok(Var::Plain(self.small()?))
    }

    /// The next token begins an operator that is a variable.
    pub fn sees_var_op(&self) -> bool
        ensures { result ≡ names.starts_var_op (parser.head self.now.rest.now) }
    {
        self.sees_symbol() || self.sees(Key::KBackquote)
    }

    #[tactic(auto, unfolding(crate::specs::Names::quoted_var))]
    fn quoted_var(&mut self) -> Result<VarOp, Stop>
        ensures { Reads (names.quoted_var self.old.rest.now) result self.new.rest.now }
    {
        let open_at = self.key(Key::KBackquote)?;
        let name = self.small()?;
        let close_at = self.key(Key::KBackquote)?;
        Ok(VarOp::Quoted(open_at, name, close_at))
    }

    /// An operator that is a variable.
    #[tactic(auto, unfolding(crate::specs::Names::var_op))]
    pub fn var_op(&mut self) -> Result<VarOp, Stop>
        ensures { Reads (names.var_op self.old.rest.now) result self.new.rest.now }
    {
        if self.sees(Key::KBackquote) {
            return self.quoted_var();
        }
        Ok(VarOp::Symbol(self.symbol()?))
    }

    /// The next token begins an operator.
    pub fn sees_op(&self) -> bool
        ensures { result ≡ names.starts_op (parser.head self.now.rest.now) }
    {
        self.sees(Key::KColon) || self.sees_var_op()
    }

    fn quoted_capital(&mut self, open_at: At) -> Result<Op, Stop>
        ensures { Reads (names.quoted_capital open_at self.old.rest.now) result self.new.rest.now }
    {
        let name = self.capital()?;
        let close_at = self.key(Key::KBackquote)?;
        Ok(Op::Con(open_at, name, close_at))
    }

    fn quoted_small(&mut self, open_at: At) -> Result<Op, Stop>
        ensures { Reads (names.quoted_small open_at self.old.rest.now) result self.new.rest.now }
    {
        let name = self.small()?;
        let close_at = self.key(Key::KBackquote)?;
        Ok(Op::Var(VarOp::Quoted(open_at, name, close_at)))
    }

    /// An operator in backquotes.
    #[tactic(auto, unfolding(crate::specs::Names::quoted_op))]
    pub fn quoted_op(&mut self) -> Result<Op, Stop>
        ensures { Reads (names.quoted_op self.old.rest.now) result self.new.rest.now }
    {
        let open_at = self.key(Key::KBackquote)?;
        if self.sees_capital() {
            self.quoted_capital(open_at)
        } else {
            self.quoted_small(open_at)
        }
    }

    /// An operator.
    #[tactic(auto, unfolding(crate::specs::Names::op))]
    pub fn op(&mut self) -> Result<Op, Stop>
        ensures { Reads (names.op self.old.rest.now) result self.new.rest.now }
    {
        if self.sees(Key::KColon) {
            return Ok(Op::Cons(self.key(Key::KColon)?));
        }
        if self.sees(Key::KBackquote) {
            return self.quoted_op();
        }
        Ok(Op::Var(VarOp::Symbol(self.symbol()?)))
    }
}
