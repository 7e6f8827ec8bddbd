//! What is true of each layout.

ghost use Rattle.std.specs.Prelude.{List};
ghost use Rattle.hdc_base.specs.declared.place.At.{At};
ghost use Rattle.hdc_base.specs.declared.token.Token.{Token};
ghost use Rattle.hdc_layout.specs.LaidOut.{KeepsTokens, PlacesInserted};

/// Without the inserted tokens the laid-out tokens are those that were given.
pub fn keeps_tokens()
    ensures { (tokens : List Token) (end : At) → KeepsTokens tokens end }
{}

/// The inserted tokens are braces and semicolons. Each has the place of the token of the text before
/// which it stands, or of the end.
pub fn places_inserted()
    ensures { (tokens : List Token) (end : At) → PlacesInserted tokens end }
{}
