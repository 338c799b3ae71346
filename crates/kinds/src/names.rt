// The kind of names: a constant is a set of names, numbered 0 to 63.
ghost use Rattle.std.specs.Prelude.{◌≡◌, ℕ, ◌<◌};
ghost use Rattle.kinds.specs.Names.{names, has_name, one_name, most_names, differs};
ghost use Rattle.kinds.specs.NameLaws.{names_lawful};

use crate::Kind;
use word_sets::WordSet;

// The most names that there can be; they are numbered from 0.
pub const MOST_NAMES: usize = 64;

// A set of names, kept as the set of their numbers.
#[derive(Clone, Copy, Debug, PartialEq, Eq)]
pub struct Names {
    members: WordSet,
}

impl Names {
    // The name `number` alone. Asks that it is one of the 64 names.
    pub fn one(number: usize) -> Names
        requires { number < most_names }
        ensures { result ≡ one_name number }
    {
        Names {
            members: WordSet::singleton(number),
        }
    }

    // Whether the name `number` is in the set.
    pub fn contains(self, number: usize) -> bool
        ensures { result ≡ has_name self number }
    {
        self.members.contains(number)
    }
}

impl Kind for Names {
    ghost ops = { names };

    ghost lawful = { names_lawful };

    fn zero() -> Names {
        Names {
            members: WordSet::empty(),
        }
    }

    #[tactic(auto, using(word_sets::proofs::SetFacts::has_difference))]
    fn join(self, other: Names) -> Names
        ensures value { result ≡ names.join self other }
        ensures members { (i : ℕ) → has_name result i ≡ differs (has_name self i) (has_name other i) }
    {
        Names {
            members: self.members.symmetric_difference(other.members),
        }
    }

    #[tactic(auto, unfolding(word_sets::specs::Sets::equal))]
    fn same(&self, other: &Names) -> bool {
        self == other
    }
}
