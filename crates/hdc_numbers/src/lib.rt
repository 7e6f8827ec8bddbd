//! The laws on the numbers that the resolved tree has in place of names.
//!
//! A binding at the top, a data type, a synonym and a constructor have the number of their place in their list, from 0: so say
//! `bindings_have_places`, `types_have_places` and `constructors_have_places` of all that names stand for in a prelude and in a
//! program behind it. Of local names that are in scope at one place no two have one number: so say `locals_have_numbers`,
//! `numbers_go_on`, that what is counted never falls, and `numbers_are_bound_once`, that no part of the resolved tree binds a
//! number that is bound around it. Nothing here is run.
#![tactic(auto)]

mod laws;

pub use laws::{
    bindings_have_places, constructors_have_places, locals_have_numbers, numbers_are_bound_once,
    numbers_go_on, types_have_places,
};
