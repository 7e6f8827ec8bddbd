//! Laws of the definitions.

ghost use Rattle.std.specs.Prelude.{ℕ, List};
ghost use Rattle.hdc_lex.specs.Lexing.{OneAnswer};
ghost use Rattle.hdc_lex.specs.declared.lexeme.Form.{Form};

/// A text has one answer, but for want of memory.
pub fn one_answer()
    ensures { (form : Form) (text : List ℕ) → OneAnswer form text }
{}
