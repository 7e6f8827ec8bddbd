//! What holds of every tree.

ghost use Rattle.std.specs.Prelude.{◌≡◌, ◌+◌, true, List, length};
ghost use Rattle.hdc_base.specs.declared.token.Token.{Token};
ghost use Rattle.hdc_nesting.specs.Nesting.{NonePasses};
ghost use Rattle.hdc_tree.specs.declared.program.Tree.{Tree};
ghost use Rattle.hdc_tree.specs.ProgramForm.{formed_tree};
ghost use Rattle.hdc_tree.specs.ProgramSpelling.{spell};
ghost use Rattle.hdc_syntax.specs.Regular.{all_regular};
ghost use Rattle.hdc_parse.specs.Exact.{ExactFor};
ghost use Rattle.hdc_parse.specs.ProgramReader.{program};

/// No two well-formed trees have one spelling.
pub fn one_spelling()
    ensures { (first second : Tree) → formed_tree first ≡ true → formed_tree second ≡ true → spell first ≡ spell second → first ≡ second }
{}

/// Of tokens that nest no deeper than 256, none of which is a name of symbols that begins with `:`, the
/// rules read a well-formed tree exactly where they spell it, and refuse the others exactly at the least token
/// with which no spelling goes on, or at the end. The number of turns and the depth that they are given
/// suffice.
pub fn exact_rules()
    ensures { (tokens : List Token) → all_regular tokens ≡ true → NonePasses 256 tokens → ExactFor tokens (program (length tokens + 1) 258 tokens) }
{}
