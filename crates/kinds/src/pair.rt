// The pair of any two kinds: a constant is one of each, side by side.
ghost use Rattle.std.specs.Prelude.{◌≡◌};
ghost use Rattle.kinds.specs.Pairs.{pairs};
ghost use Rattle.kinds.specs.PairLaws.{pairs_lawful};

use crate::Kind;

#[derive(Clone, Copy)]
pub struct Pair<A, B> {
    pub first: A,
    pub second: B,
}

impl<A: Kind, B: Kind> Kind for Pair<A, B> {
    ghost ops = { pairs A.Kind.ops B.Kind.ops };

    ghost lawful = { pairs_lawful A.Kind.ops B.Kind.ops A.Kind.lawful B.Kind.lawful };

    fn zero() -> Pair<A, B> {
        Pair {
            first: A::zero(),
            second: B::zero(),
        }
    }

    fn join(self, other: Pair<A, B>) -> Pair<A, B> {
        Pair {
            first: self.first.join(other.first),
            second: self.second.join(other.second),
        }
    }

    // by the sameness of either kind, which a derived `==` would not ask
    fn same(&self, other: &Pair<A, B>) -> bool {
        self.first.same(&other.first) && self.second.same(&other.second)
    }
}
