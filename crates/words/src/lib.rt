// Words in the order of their first reading: what the variables and names of a text are numbered by.
// A dictionary keeps a bounded number of words of at most eight bytes, and nothing is allocated. Which words may be
// entered, and when, is not known here.
#![tactic(auto)]

ghost use Rattle.std.specs.Prelude.{◌≡◌, ◌≤◌, []};
ghost use Rattle.words.specs.Limits.{variable_words, name_words};
ghost use Rattle.words.specs.Words.{known, counts_of, cut_back};

use crate::dictionary::Dictionary;

pub mod dictionary;

// The most words for variables.
pub const VARIABLE_WORDS: usize = 64;

// The most words for names.
pub const NAME_WORDS: usize = 64;

// The words of a text, its variables and its names apart.
#[derive(Drop)]
pub struct Words {
    pub variables: Dictionary<VARIABLE_WORDS>,
    pub names: Dictionary<NAME_WORDS>,
}

// How many words of each sort there are.
#[derive(Clone, Copy, Debug, PartialEq, Eq)]
pub struct Counts {
    pub variables: usize,
    pub names: usize,
}

impl Words {
    pub fn new() -> Words
        ensures { known result ≡ record { variables = []; names = [] } }
    {
        Words {
            variables: Dictionary::new(),
            names: Dictionary::new(),
        }
    }

    pub fn counts(&self) -> Counts
        ensures value { result ≡ counts_of (known self.now) }
        ensures within { (result.variables ≤ variable_words) × (result.names ≤ name_words) }
    {
        Counts {
            variables: self.variables.len(),
            names: self.names.len(),
        }
    }

    // Forgets all words but the first of each sort, as many as `counts` says. With the counts from before a refused
    // line, none of its words is left.
    pub fn cut(&mut self, counts: Counts)
        ensures { known self.new ≡ cut_back counts (known self.old) }
    {
        self.variables.cut(counts.variables);
        self.names.cut(counts.names);
    }
}
