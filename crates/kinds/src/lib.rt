// Kinds of constant: what keys, nonces and masks are made of, as far as joining them by exclusive or goes.
// A kind has a zero, a join and a sameness, and owes the laws of exclusive or up to that sameness. Everything above
// is written for any kind and may use the laws alone.
#![tactic(auto)]

ghost use Rattle.std.specs.Prelude.{◌≡◌};
ghost use Rattle.kinds.specs.Kinds.{Operations, Lawful};

pub mod blocks;
pub mod names;
pub mod pair;

// A kind of constant. `Copy`, since a constant is a plain value that tables, slots and ledgers hold by the thousand.
pub trait Kind: Copy {
    // what the three functions mean
    ghost ops: { Operations Self };

    fn zero() -> Self
        ensures { result ≡ ops.zero };

    fn join(self, other: Self) -> Self
        ensures { result ≡ ops.join self other };

    // A function of the trait and no `==`: a kind may take for the same what has other fields, and a derived `==` would
    // have to agree with this on every list that could stand for a block, also one of another length.
    fn same(&self, other: &Self) -> bool
        ensures { result ≡ ops.same self.now other.now };

    // the laws of exclusive or, up to sameness
    ghost lawful: { Lawful ops };
}
