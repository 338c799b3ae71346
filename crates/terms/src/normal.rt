// Normal forms: the variables that a term has an odd number of times, and its constants joined.
ghost use Rattle.std.specs.Prelude.{◌≡◌, ◌<◌};
ghost use Rattle.terms.specs.Decisions.{Decides};
ghost use Rattle.terms.specs.Limits.{most_variables};
ghost use Rattle.terms.specs.NormalForms.{SameNormal, of_constant, of_variable, zero_form, joined};

use crate::sets::VarSet;
use kinds::Kind;

#[derive(Clone, Copy)]
pub struct Normal<K> {
    pub vars: VarSet,
    pub constant: K,
}

impl<K: Kind> Normal<K> {
    // Named, as the next: `From` of a number alone would not say that it is a variable's.
    pub fn of_constant(constant: K) -> Normal<K>
        ensures { result ≡ of_constant constant }
    {
        Normal {
            vars: VarSet::empty(),
            constant,
        }
    }

    // The normal form of the variable `v`. Asks that it is one.
    pub fn of_variable(v: usize) -> Normal<K>
        requires { v < most_variables }
        ensures { result ≡ of_variable K.ops v }
    {
        Normal {
            vars: VarSet::singleton(v),
            constant: K::zero(),
        }
    }

    pub fn zero() -> Normal<K>
        ensures { result ≡ zero_form K.ops }
    {
        Normal::of_constant(K::zero())
    }

    pub fn join(self, other: Normal<K>) -> Normal<K>
        ensures { result ≡ joined K.ops self other }
    {
        Normal {
            vars: self.vars.symmetric_difference(other.vars),
            constant: self.constant.join(other.constant),
        }
    }

    // By the kind's sameness of constants, which a derived `==` would not ask.
    pub fn same(self, other: Normal<K>) -> bool
        ensures { Decides result (SameNormal K.ops self other) }
    {
        self.vars == other.vars && self.constant.same(&other.constant)
    }
}
