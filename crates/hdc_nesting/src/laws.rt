//! What is true of each nesting.

ghost use Rattle.std.specs.Prelude.{◌≡◌, ◌↔◌, ℕ, ◌≤◌, List, take};
ghost use Rattle.hdc_base.specs.declared.token.Token.{Token};
ghost use Rattle.hdc_nesting.specs.Nesting.{Inside, Levels, insides, nesting};
ghost use Rattle.hdc_nesting.specs.Standing.{Stands};

/// The nesting of a token is at most the number of tokens before it.
pub fn at_most_the_tokens_before()
    ensures { (tokens : List Token) (i : ℕ) → nesting tokens i ≤ i }
{}

/// The nesting of a token depends on the tokens before it alone.
pub fn up_to_the_token_alone()
    ensures { (tokens others : List Token) (i : ℕ) → take i tokens ≡ take i others → nesting tokens i ≡ nesting others i }
{}

/// What stands directly in the open brackets, as it is read from left to right, is what stands there as
/// the brackets match.
pub fn stands_as_the_brackets_match()
    ensures { (tokens : List Token) (levels : Levels Inside) → Stands tokens levels ↔ (insides tokens ≡ levels) }
{}
