// A dictionary: entering words, looking them up and cutting it back.
ghost use Rattle.std.specs.Prelude.{◌≡◌, ◌<◌, ◌≤◌, ◌↔◌, [], length, take, IsTrue, IsSome, IfSome, IfNone, slice_index_or};
ghost use Rattle.words.specs.Limits.{longest_word};
ghost use Rattle.words.specs.Words.{index_of, Pushed};

use copy_vecs::CopyVec;
use std::marker::Model;

// The most bytes of a word.
pub const LONGEST_WORD: usize = 8;

// A word of at most eight bytes.
pub type Word = CopyVec<u8, LONGEST_WORD>;

// Why a word was not entered: there is no place for one more.
#[derive(Clone, Copy, Debug, PartialEq, Eq)]
pub struct Full;

// At most `N` words, numbered from 0. Clauses see the list of their bytes, in the order of the numbers.
#[derive(Drop)]
pub struct Dictionary<const N: usize> {
    words: CopyVec<Word, N>,
}

impl<const N: usize> Model for Dictionary<N> {
    ghost use Rattle.std.specs.Prelude.{ℕ, List};
    ghost use Rattle.words.specs.Texts.{texts};

    ghost Value = { List (List ℕ) };

    ghost view = { λ d. texts d.words };
}

impl<const N: usize> Dictionary<N> {
    pub fn new() -> Dictionary<N>
        ensures { result ≡ [] }
    {
        Dictionary {
            words: CopyVec::new(),
        }
    }

    // How many words there are.
    pub fn len(&self) -> usize
        ensures value { result ≡ length self.now }
        ensures within { result ≤ N }
    {
        self.words.len()
    }

    // Whether there is no word.
    pub fn is_empty(&self) -> bool
        ensures { IsTrue result ↔ (self.now ≡ []) }
    {
        self.words.is_empty()
    }

    // The number of a word, where it is one of the words: that of the first, where it was entered more than once.
    pub fn number(&self, word: &[u8]) -> Option<usize>
        ensures first { IfSome result (λ i. i ≡ index_of self.now word.now) }
        ensures within { IfSome result (λ i. i < length self.now) }
        ensures unknown { IfNone result (index_of self.now word.now ≡ length self.now) }
    {
        // Most words differ in length or at their end, so these are looked at first.
        self.words.iter().position(|known| known.len() == word.len()
            && known.last() == word.last()
            && known.as_slice() == word)
    }

    // The word of a number, where there is one.
    pub fn word(&self, number: usize) -> Option<&[u8]>
        ensures known { IsSome result ↔ (number < length self.now) }
        ensures value { IfSome result (λ w. w.now ≡ slice_index_or self.now number []) }
        ensures short { IfSome result (λ w. length w.now ≤ longest_word) }
    {
        self.words.get(number).map(|word| word.as_slice())
    }

    // Enters a word at the end, where there is a place for one more. Asks that the word has at most eight bytes.
    pub fn push(&mut self, word: &[u8]) -> Result<(), Full>
        requires { length word.now ≤ longest_word }
        ensures { Pushed N self.old word.now result self.new }
    {
        let word = Word::try_from(word).unwrap();
        self.words.try_push(word).map_err(|_| Full)
    }

    // Forgets all words but the first `count`.
    pub fn cut(&mut self, count: usize)
        ensures { self.new ≡ take count self.old }
    {
        self.words.truncate(count);
    }
}
