//! Laws of the definitions.

ghost use Rattle.std.specs.Prelude.{◌≡◌, ℕ, List};
ghost use Rattle.hdc_top.specs.Due.{IsDue};

/// One status and one text are due for words and a text.
pub fn one_due()
    ensures status { (words : List (List ℕ)) (text : List ℕ) (first second : ℕ) (bytes others : List ℕ) → IsDue words text first bytes → IsDue words text second others → first ≡ second }
    ensures bytes { (words : List (List ℕ)) (text : List ℕ) (first second : ℕ) (bytes others : List ℕ) → IsDue words text first bytes → IsDue words text second others → bytes ≡ others }
{}
