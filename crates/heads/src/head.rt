// The plain head of an open session: its counts and its marks.
ghost use Rattle.heads.specs.Heads.{NewHead, Marking, Unmarking};

use copy_vecs::CopyVec;
use refusals::Refusal;

// The most marks that are held.
pub const MOST_MARKS: usize = 32;

#[derive(Clone, Copy, Debug, PartialEq, Eq)]
pub struct Head {
    // the number of variables
    pub size: usize,
    // the number of standing equations, each with its ledger entry
    pub standing: usize,
    // the number of ledger entries that may be used
    pub usable: usize,
    // the marks, the latest last: at each the number of equations that stood then
    pub marks: CopyVec<usize, MOST_MARKS>,
}

impl Head {
    // The head of a session just opened: no equation stands, and no mark is held.
    pub fn new(size: usize, usable: usize) -> Head
        ensures { NewHead size usable result }
    {
        Head {
            size,
            standing: 0,
            usable,
            marks: CopyVec::new(),
        }
    }

    // One mark more, at the number of standing equations.
    pub fn mark(&mut self) -> Result<(), Refusal>
        ensures { Marking self.old result self.new }
    {
        self.marks
            .try_push(self.standing)
            .map_err(|_| Refusal::MarksFull)
    }

    // The latest mark, which goes: the number of equations that stood then.
    pub fn unmark(&mut self) -> Result<usize, Refusal>
        ensures { Unmarking self.old result self.new }
    {
        self.marks.pop().ok_or(Refusal::NoMark)
    }
}
