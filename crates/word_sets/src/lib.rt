// Sets of small numbers, each kept in one word of 64 bits, by a small interface of set facts. Nothing outside this crate
// knows how a set is kept.
#![tactic(auto, unfolding(crate::specs::Sets::has, crate::specs::Sets::empty, crate::specs::Sets::singleton, crate::specs::Sets::symmetric_difference))]

ghost use Rattle.std.specs.Prelude.{◌≡◌, ◌<◌, MatchOption};
ghost use Rattle.word_sets.specs.Sets.{capacity, has, empty, singleton, symmetric_difference, Highest};

// The numbers of a set are below this.
pub const CAPACITY: usize = 64;

// A set of numbers below `CAPACITY`, a bit for each: number v is in it where bit v is set.
#[derive(Clone, Copy, Debug, Default, PartialEq, Eq, PartialOrd, Ord)]
pub struct WordSet {
    bits: u64,
}

impl WordSet {
    pub fn empty() -> WordSet
        ensures { result ≡ empty }
    {
        WordSet { bits: 0 }
    }

    // The set of `v` alone. Asks that it is below `CAPACITY`.
    pub fn singleton(v: usize) -> WordSet
        requires { v < capacity }
        ensures { result ≡ singleton v }
    {
        WordSet { bits: 1 << v }
    }

    // Whether `v` is in the set. No number from `CAPACITY` on is.
    #[tactic(auto, using(crate::proofs::SetFacts::none_above), unfolding(crate::specs::Sets::has))]
    pub fn contains(self, v: usize) -> bool
        ensures { result ≡ has self v }
    {
        v < CAPACITY && (self.bits >> v) % 2 == 1
    }

    // The numbers in exactly one of the two sets.
    pub fn symmetric_difference(self, other: WordSet) -> WordSet
        ensures { result ≡ symmetric_difference self other }
    {
        WordSet {
            bits: self.bits ^ other.bits,
        }
    }

    // The highest number of the set, if it has one.
    #[tactic(auto, using(crate::proofs::SetFacts::leading_there, crate::proofs::SetFacts::leading_most), unfolding(crate::specs::Sets::empty))]
    pub fn highest(self) -> Option<usize>
        ensures { MatchOption result (self ≡ empty) (λ v. Highest self v × (v < capacity)) }
    {
        if self.bits == 0 {
            None
        } else {
            Some(63 - self.bits.leading_zeros() as usize)
        }
    }

    // Takes the highest number out of the set, if it has one.
    pub fn pop_highest(&mut self) -> Option<usize>
        ensures { MatchOption result ((self.old ≡ empty) × (self.new ≡ self.old)) (λ v. Highest self.old v × (v < capacity) × (self.new ≡ symmetric_difference self.old (singleton v))) }
    {
        let v = self.highest()?;
        *self = self.symmetric_difference(WordSet::singleton(v));
        Some(v)
    }
}
