// Written kinds: kinds of constant that are read and written as text.
// A constant is written as literals: names, which stand here by their numbers, and at most one block of hexadecimal
// digits. A kind says which sorts of literal it takes and what each stands for, and spells its constants so that they
// read back as the same. Words, separators and lines are not known here.
#![tactic(auto)]

ghost use Rattle.std.specs.Prelude.{◌≡◌, ℕ, ◌+◌, ◌<◌, ◌≤◌, true};
ghost use Rattle.kinds.specs.Kinds.{SameConstant};
ghost use Rattle.kinds.specs.Names.{most_names, has_name};
ghost use Rattle.written.specs.Scripts.{Script, Allowed, taken, spelled_value, widest, longest_spelling};

use kinds::Kind;
use kinds::blocks::Block;
use kinds::names::Names;

pub mod blocks;
pub mod hex;
pub mod names;
pub mod pair;

// The most bytes that a constant of any written kind is written with.
pub const LONGEST_SPELLING: usize = 737;

// A literal as it is read: a name by its number, or a block by its digits.
#[derive(Clone, Copy, Debug, PartialEq, Eq)]
pub enum Literal<'a> {
    Name(usize),
    Block(&'a [u8]),
}

// A constant as it is written: its names by number, then its block, if any.
#[derive(Clone, Copy, Debug, PartialEq, Eq)]
pub struct Spelling {
    pub names: Names,
    pub block: Option<Block>,
}

// Made by a function, since only what takes a set by value is told by its type which numbers it can have.
impl Spelling {
    // The spelling of these parts. That every name has a number below 64 is known of each set, as it is one word.
    pub fn new(names: Names, block: Option<Block>) -> Spelling
        ensures value { result ≡ record { names = names; block = block } }
        ensures numbered { (i : ℕ) → has_name names i ≡ true → i < most_names }
    {
        Spelling { names, block }
    }
}

// A kind whose constants are read and written as text.
pub trait WrittenKind: Kind {
    // the most bytes that a constant is written with
    const LONGEST: usize;

    ghost LONGEST: { ℕ };

    // what the functions mean
    ghost script: { Script Self };

    // What a literal stands for, where the kind takes its sort.
    fn take(literal: Literal) -> Option<Self>
        ensures { result ≡ taken script literal.entry };

    // How a constant is written. What is written reads back as the same constant.
    fn spell(&self) -> Spelling
        ensures spelling { result ≡ script.spell self.now }
        ensures back { SameConstant Self.Kind.ops (spelled_value Self.Kind.ops script result) self.now }
        ensures allowed { Allowed script result }
        ensures short { widest result ≤ script.longest + 3 };

    // the constant `LONGEST` is what the script says
    ghost longest: { LONGEST ≡ script.longest };

    // no kind is written longer than any may be
    ghost most: { LONGEST ≤ longest_spelling };
}
