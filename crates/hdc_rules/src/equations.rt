//! Equations that belong together: adjacent ones of one function, which has parameters.

ghost use Rattle.std.specs.Prelude.{◌≡◌, ◌++◌, None, OnOk};
ghost use Rattle.hdc_written.specs.Breaches.{all_noted};
ghost use Rattle.hdc_written.specs.Mirror as mirror;
ghost use Rattle.hdc_written.specs.Written.{count_patterns};
ghost use Rattle.hdc_rules.specs.Adjacent as adjacent;
ghost use Rattle.hdc_rules.specs.Bindings as spec;

use crate::names::Names;
use hdc_base::At;
use hdc_tree::{Apat, Head, Name};
use hdc_written::{Found, first_of_head, head_name};
use std::alloc::AllocError;
use std::marker::Model;

/// The function whose equations may go on, if there is one.
#[derive(Drop)]
pub(crate) struct OpenFunction<'t> {
    function: Option<Function<'t>>,
}

// The name in the first equation of a function, and the number of its parameters.
#[derive(Clone, Copy)]
struct Function<'t> {
    name: &'t Name,
    count: usize,
}

impl<'t> Model for OpenFunction<'t> {
    ghost use Rattle.std.specs.Prelude.{Option};
    ghost use Rattle.hdc_rules.specs.Adjacent.{open_of};
    ghost use Rattle.hdc_rules.specs.Bindings.{Open};

    ghost Value = { Option Open };

    ghost view = { λ g. open_of g.function };
}

impl<'t> OpenFunction<'t> {
    /// No equations may go on.
    pub(crate) fn none() -> OpenFunction<'t>
        ensures { result ≡ None }
    {
        OpenFunction { function: None }
    }

    /// No equations may go on any longer.
    pub(crate) fn close(&mut self)
        ensures { self.new ≡ None }
    {
        self.function = None;
    }

    /// The name of one more equation is bound, unless the equation goes on with the function.
    #[tactic(auto, using(crate::proofs::Listing::in_order))]
    pub(crate) fn add_equation(
        &mut self,
        names: &mut Names<'t>,
        head: &'t Head,
    ) -> Result<(), AllocError>
        ensures added { OnOk result (names.new ≡ names.old ++ adjacent.bound_by self.old (mirror.head_name head.now) (count_patterns (mirror.head_patterns head.now))) }
        ensures behind { OnOk result (self.new ≡ adjacent.behind_equation self.old (mirror.head_name head.now).text (count_patterns (mirror.head_patterns head.now))) }
    {
        let name = head_name(head);
        let count = head_params(head);
        if !self.goes_on(name, count) {
            names.push(name)?;
            self.begin(name, count);
        }
        Ok(())
    }

    /// An equation that goes on with the function has as many parameters.
    pub(crate) fn note_equation(&mut self, found: &mut Found, head: &'t Head)
        ensures noted { found.new ≡ all_noted found.old (adjacent.uneven_by self.old (mirror.head_name head.now).text (count_patterns (mirror.head_patterns head.now)) (mirror.first_of_head head.now)) }
        ensures behind { self.new ≡ adjacent.behind_equation self.old (mirror.head_name head.now).text (count_patterns (mirror.head_patterns head.now)) }
    {
        let name = head_name(head);
        let count = head_params(head);
        if self.goes_on(name, count) {
            self.note_uneven(found, count, first_of_head(head));
        } else {
            self.begin(name, count);
        }
    }

    // Whether an equation goes on with the function.
    #[tactic(auto, using(crate::proofs::Adjacent::has_none, crate::proofs::Adjacent::has_one))]
    fn goes_on(&self, name: &Name, count: usize) -> bool
        ensures { result ≡ spec.goes_on self.now name.now.text count }
    {
        match &self.function {
            None => false,
            Some(function) => name.text.as_slice() == function.name.text.as_slice() && count > 0,
        }
    }

    // An equation begins a function, or has no parameters.
    #[tactic(auto, using(crate::proofs::Adjacent::opened_none, crate::proofs::Adjacent::opened_some))]
    fn begin(&mut self, name: &'t Name, count: usize)
        ensures { self.new ≡ spec.opened name.now.text count }
    {
        if count > 0 {
            self.function = Some(Function { name, count });
        } else {
            self.function = None;
        }
    }

    // The number of the parameters of an equation is that of the function.
    fn note_uneven(&self, found: &mut Found, count: usize, at: At)
        ensures { found.new ≡ all_noted found.old (spec.uneven self.now count at) }
    {
        match &self.function {
            None => {}
            Some(function) => {
                if function.count != count {
                    found.note(4, at);
                }
            }
        }
    }
}

// The number of the parameters of an equation.
#[tactic(auto, using(crate::proofs::Adjacent::count_patterns_each))]
fn head_params(head: &Head) -> usize
    ensures { result ≡ count_patterns (mirror.head_patterns head.now) }
{
    match head {
        Head::Prefix(_var, params) => params.as_slice().len(),
        Head::Infix(_left, _op, _right) => 2,
        Head::Paren(_open_at, _left, _op, _right, _close_at, _first, rest) => rest.as_slice().len()
            + 3,
    }
}
