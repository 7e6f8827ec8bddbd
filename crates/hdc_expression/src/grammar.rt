//! The parser of what nests in a rule, by which the rules are given.

ghost use Rattle.hdc_syntax.specs.Results.{Reads};
ghost use Rattle.hdc_syntax.specs.PatternReader as patterns;
ghost use Rattle.hdc_expression.specs.ExpressionReader as reader;
ghost use Rattle.hdc_expression.specs.Nested.{nested};
ghost use Rattle.hdc_expression.specs.Nests.{Nests};

use hdc_syntax::{Cursor, Stop};
use hdc_tree::{Alts, Apat, Block, Expression, Op, Pat, Sign};
use sqlite_items::Items;

/// The rules at one depth, by the parsers of what nests in them. Each of these is told the turns, the depth,
/// and that of expressions whether an operator may end one, before a closing parenthesis, and the sign of
/// its first operand where that is read.
#[derive(Clone, Copy)]
pub struct Grammar<E, B, A> {
    /// A bound on the turns of each loop.
    pub turns: usize,
    /// How deep what nests in the rules may nest.
    pub depth: usize,
    pub exp: E,
    pub block: B,
    pub alts: A,
}

impl<
    E: Fn(&mut Cursor<'_>, usize, usize, bool, Sign) -> Result<(Expression, Option<Op>), Stop>,
    B: Fn(&mut Cursor<'_>, usize, usize) -> Result<Block, Stop>,
    A: Fn(&mut Cursor<'_>, usize, usize) -> Result<Alts, Stop>,
> Grammar<E, B, A> {
    /// An expression that nests, with the operator that ends it.
    pub(crate) fn exp(
        &self,
        tokens: &mut Cursor<'_>,
        section: bool,
        taken: Sign,
    ) -> Result<(Expression, Option<Op>), Stop>
        requires { Nests self.now.turns self.now.depth (E.pre self.now.exp) (E.post self.now.exp) (B.pre self.now.block) (B.post self.now.block) (A.pre self.now.alts) (A.post self.now.alts) }
        ensures { Reads ((nested self.now.turns self.now.depth).exp section taken tokens.old.rest.now) result tokens.new.rest.now }
    {
        (self.exp)(tokens, self.turns, self.depth, section, taken)
    }

    /// Declarations in braces that nest.
    pub fn inner_block(&self, tokens: &mut Cursor<'_>) -> Result<Block, Stop>
        requires { Nests self.now.turns self.now.depth (E.pre self.now.exp) (E.post self.now.exp) (B.pre self.now.block) (B.post self.now.block) (A.pre self.now.alts) (A.post self.now.alts) }
        ensures { Reads ((nested self.now.turns self.now.depth).block tokens.old.rest.now) result tokens.new.rest.now }
    {
        (self.block)(tokens, self.turns, self.depth)
    }

    /// Alternatives in braces that nest.
    pub(crate) fn inner_alts(&self, tokens: &mut Cursor<'_>) -> Result<Alts, Stop>
        requires { Nests self.now.turns self.now.depth (E.pre self.now.exp) (E.post self.now.exp) (B.pre self.now.block) (B.post self.now.block) (A.pre self.now.alts) (A.post self.now.alts) }
        ensures { Reads ((nested self.now.turns self.now.depth).alts tokens.old.rest.now) result tokens.new.rest.now }
    {
        (self.alts)(tokens, self.turns, self.depth)
    }

    /// A pattern that may be an argument.
    #[tactic(auto, using(crate::proofs::NestedPatterns::nested_apat))]
    pub fn apat(&self, tokens: &mut Cursor<'_>) -> Result<Apat, Stop>
        ensures { Reads ((nested self.now.turns self.now.depth).apat tokens.old.rest.now) result tokens.new.rest.now }
    {
        hdc_syntax::apat(tokens, self.turns, self.depth)
    }

    /// Patterns that may be arguments, as many as there are.
    #[tactic(auto, using(crate::proofs::NestedPatterns::nested_apat))]
    pub fn apats(&self, tokens: &mut Cursor<'_>) -> Result<Items<Apat>, Stop>
        ensures { Reads (patterns.apats self.now.turns (nested self.now.turns self.now.depth).apat tokens.old.rest.now) result tokens.new.rest.now }
    {
        hdc_syntax::apats(tokens, self.turns, self.depth)
    }

    /// A pattern.
    #[tactic(auto, using(crate::proofs::NestedPatterns::nested_apat))]
    pub fn pat(&self, tokens: &mut Cursor<'_>) -> Result<Pat, Stop>
        ensures { Reads (patterns.pat self.now.turns (nested self.now.turns self.now.depth).apat tokens.old.rest.now) result tokens.new.rest.now }
    {
        hdc_syntax::pat(tokens, self.turns, self.depth)
    }

    /// An expression that no operator follows.
    #[tactic(auto, unfolding(crate::specs::ExpressionReader::whole))]
    pub fn whole(&self, tokens: &mut Cursor<'_>) -> Result<Expression, Stop>
        requires { Nests self.now.turns self.now.depth (E.pre self.now.exp) (E.post self.now.exp) (B.pre self.now.block) (B.post self.now.block) (A.pre self.now.alts) (A.post self.now.alts) }
        ensures { Reads (reader.whole self.now.turns (nested self.now.turns self.now.depth) tokens.old.rest.now) result tokens.new.rest.now }
    {
        let (whole, _) = self.exp(tokens, false, Sign::Absent)?;
        Ok(whole)
    }
}
