//! What holds of the numbers of every prelude and program.

ghost use Rattle.std.specs.Prelude.{◌≡◌, ◌≤◌, ℕ, Bool, List, Some};
ghost use Rattle.std.specs.List.{slice_get};
ghost use Rattle.hdc_bindings.specs.Resolving as behind;
ghost use Rattle.hdc_bindings.specs.Tops.{all_bindings, prelude_walk, program_walk};
ghost use Rattle.hdc_bindings.specs.Tops as tops;
ghost use Rattle.hdc_datas.specs.Datas.{all_datas};
ghost use Rattle.hdc_names.specs.Chain.{Tree};
ghost use Rattle.hdc_names.specs.declared.chain.NextOperand.{NextOperand};
ghost use Rattle.hdc_numbers.specs.Binders.{AllBindAnew};
ghost use Rattle.hdc_numbers.specs.Numbers.{synonym_names, data_names, binding_names, IsConstructor, HaveNumbers};
ghost use Rattle.hdc_resolved.specs.declared.name.Constructor.{Constructor};
ghost use Rattle.hdc_resolved.specs.declared.name.Name.TheVariants as what;
ghost use Rattle.hdc_resolving.specs.Grouped.{Joining, by_trees};
ghost use Rattle.hdc_resolving.specs.Numbering.{entered, moved};
ghost use Rattle.hdc_resolving.specs.Standing.{prelude_named, program_named, prelude_constructors, program_constructors};
ghost use Rattle.hdc_resolving.specs.declared.walk.Counter.{Counter};
ghost use Rattle.hdc_resolving.specs.declared.walk.Walk.{Walk};
ghost use Rattle.hdc_tree.specs.declared.name.Name as written_name;
ghost use Rattle.hdc_tree.specs.declared.program.Top.{Top};
ghost use Rattle.hdc_type_names.specs.TypeNames.{prelude_types, program_types};
ghost use Rattle.hdc_type_names.specs.declared.type_name.TypeName.TheVariants as type_name;
ghost use Rattle.hdc_written.specs.Scopes.{standing_for};
ghost use Rattle.hdc_written.specs.Written as written;

/// A name that stands for a synonym in a prelude, or in a program behind it, is that of the synonym with this place among all
/// synonyms; and one that stands for a data type that of the data type with this place.
pub fn types_have_places()
    ensures synonym_in_prelude { (ps ts : List Top) (x : List ℕ) (n : ℕ) → standing_for x (prelude_types ps) ≡ Some (type_name.Synonym n) → slice_get (synonym_names ps ts) n ≡ Some x }
    ensures synonym_in_program { (ps ts : List Top) (x : List ℕ) (n : ℕ) → standing_for x (program_types ps ts) ≡ Some (type_name.Synonym n) → slice_get (synonym_names ps ts) n ≡ Some x }
    ensures data_in_prelude { (ps ts : List Top) (x : List ℕ) (n : ℕ) → standing_for x (prelude_types ps) ≡ Some (type_name.Data n) → slice_get (data_names ps ts) n ≡ Some x }
    ensures data_in_program { (ps ts : List Top) (x : List ℕ) (n : ℕ) → standing_for x (program_types ps ts) ≡ Some (type_name.Data n) → slice_get (data_names ps ts) n ≡ Some x }
{}

/// A name that stands for a binding at the top is that of the binding with this place among all bindings, however chains are
/// joined and blocks are ordered.
pub fn bindings_have_places()
    ensures in_prelude { (join : Joining) (orders : List (List ℕ)) (ps ts : List Top) (x : List ℕ) (n : ℕ) → standing_for x (prelude_named ps).scope ≡ Some (what.Top n) → slice_get (binding_names join orders ps ts) n ≡ Some x }
    ensures in_program { (join : Joining) (orders : List (List ℕ)) (ps ts : List Top) (x : List ℕ) (n : ℕ) → standing_for x (program_named ps ts).scope ≡ Some (what.Top n) → slice_get (binding_names join orders ps ts) n ≡ Some x }
{}

/// What a name of a constructor stands for is the constructor of this name that has this place in the data type of this number,
/// and so many fields.
pub fn constructors_have_places()
    ensures in_prelude { (ps ts : List Top) (x : List ℕ) (c : Constructor) → standing_for x (prelude_constructors ps).scope ≡ Some c → IsConstructor (all_datas ps ts) x c }
    ensures in_program { (ps ts : List Top) (x : List ℕ) (c : Constructor) → standing_for x (program_constructors ps ts).scope ≡ Some c → IsConstructor (all_datas ps ts) x c }
{}

/// Of the names that are in scope no two stand for one local number, at the top of a prelude and of a program, where more names
/// have come into scope, and where more numbers are taken.
pub fn locals_have_numbers()
    ensures in_prelude { (ps : List Top) → HaveNumbers (prelude_walk ps) }
    ensures in_program { (ps ts : List Top) → HaveNumbers (program_walk ps ts) }
    ensures entered { (xs : List written_name.Name) (w : Walk) → HaveNumbers w → HaveNumbers (entered xs w) }
    ensures moved { (c : Counter) (w : Walk) → w.counter.numbers ≤ c.numbers → HaveNumbers w → HaveNumbers (moved c w) }
{}

/// Behind each part of a text at least as many numbers are taken as before it.
pub fn numbers_go_on()
    ensures expression { (e : written.Expression) (c : Counter) → c.numbers ≤ (behind.behind_expression e c).numbers }
    ensures links { (ls : written.Links) (c : Counter) → c.numbers ≤ (behind.behind_links ls c).numbers }
    ensures operand { (a : written.Operand) (c : Counter) → c.numbers ≤ (behind.behind_operand a c).numbers }
    ensures alternative { (b : written.Alternative) (c : Counter) → c.numbers ≤ (behind.behind_alternative b c).numbers }
    ensures right_side { (r : written.RightSide) (c : Counter) → c.numbers ≤ (behind.behind_right_side r c).numbers }
    ensures declaration { (d : written.Declaration) (c : Counter) → c.numbers ≤ (behind.behind_declaration d c).numbers }
    ensures declarations { (ds : written.Declarations) (c : Counter) → c.numbers ≤ (behind.behind_declarations ds c).numbers }
    ensures top { (t : Top) (c : Counter) → c.numbers ≤ (tops.behind_declared t c).numbers }
{}

/// No part of the resolved tree binds a number that is bound around it, however blocks are ordered: this holds for any trees
/// by which the operands of chains are grouped.
pub fn numbers_are_bound_once()
    ensures { (trees : Bool → List NextOperand → Tree) (ps ts : List Top) (orders : List (List ℕ)) → AllBindAnew (all_bindings (by_trees trees) ps ts orders) }
{}
