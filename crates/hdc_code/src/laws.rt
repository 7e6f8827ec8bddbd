//! Laws of the machine.

ghost use Rattle.std.specs.Prelude.{◌≡◌, ◌≤◌, ℕ, List};
ghost use Rattle.hdc_value.specs.declared.outcome.Outcome.{Outcome};
ghost use Rattle.hdc_code.specs.declared.instr.Instr.{Instr};
ghost use Rattle.hdc_code.specs.Machine.{Config};
ghost use Rattle.hdc_code.specs.Sound.{Reaches, EndsWith, IsSound};

/// Code that reaches an end is sound.
pub fn completes()
    ensures { (code : List Instr) (result : Outcome) (ticks : ℕ) → EndsWith code result ticks → IsSound code }
{}

/// Code reaches one end at most, and counts no more on the way to it.
pub fn one_path()
    ensures counted { (code : List Instr) (result : Outcome) (ticks : ℕ) → EndsWith code result ticks → (c : Config) → Reaches code c → c.ticks ≤ ticks }
    ensures outcome { (code : List Instr) (first second : Outcome) (ticks others : ℕ) → EndsWith code first ticks → EndsWith code second others → first ≡ second }
    ensures ticks { (code : List Instr) (first second : Outcome) (ticks others : ℕ) → EndsWith code first ticks → EndsWith code second others → ticks ≡ others }
{}
