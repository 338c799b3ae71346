// Kinds that serve only to try the laws: one with a single constant, so that nobody assumes a second, and one whose
// sameness is coarser than equality. The tests compare messages over these and over the real kinds.
#![tactic(auto)]

ghost use Rattle.std.specs.Prelude.{◌≡◌};
ghost use Rattle.trials.specs.Kinds.{single, low_bytes};
ghost use Rattle.trials.specs.Laws.{single_lawful, low_bytes_lawful};

use kinds::Kind;

// The only constant of its kind.
#[derive(Clone, Copy, Debug, PartialEq, Eq)]
pub struct Single {}

impl Kind for Single {
    ghost ops = { single };

    ghost lawful = { single_lawful };

    fn zero() -> Single {
        Single {}
    }

    fn join(self, _other: Single) -> Single {
        self
    }

    fn same(&self, other: &Single) -> bool {
        self == other
    }
}

// A word of which only the low byte counts.
#[derive(Clone, Copy, Debug, PartialEq, Eq)]
pub struct LowByte {
    pub word: u64,
}

impl Kind for LowByte {
    ghost ops = { low_bytes };

    ghost lawful = { low_bytes_lawful };

    fn zero() -> LowByte {
        LowByte { word: 0 }
    }

    fn join(self, other: LowByte) -> LowByte {
        LowByte {
            word: self.word ^ other.word,
        }
    }

    // coarser than `==`, which is what this kind is for
    fn same(&self, other: &LowByte) -> bool {
        self.word % 256 == other.word % 256
    }
}

#[cfg(test)]
mod tests;
