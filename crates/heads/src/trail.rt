// The trail of a session: the bindings that were made, one for each bound variable, in the order in which they were made.
ghost use Rattle.std.specs.Prelude.{◌≡◌, []};
ghost use Rattle.heads.specs.Heads.{bindings_of, Noting, Popping};

use copy_vecs::CopyVec;
use steps::{Binding, Taken};
use terms::sets::MOST_VARIABLES;

#[derive(Clone, Copy, Debug, PartialEq, Eq)]
pub struct Trail {
    pub bindings: CopyVec<Binding, MOST_VARIABLES>,
}

impl Trail {
    // No binding.
    pub fn empty() -> Trail
        ensures { bindings_of result ≡ [] }
    {
        Trail {
            bindings: CopyVec::new(),
        }
    }

    // The binding that a ledger entry made, if it made one and there is room.
    pub fn note(&mut self, taken: Taken, entry: usize)
        ensures { Noting self.old taken entry self.new }
    {
        if let Taken::Binds(variable, changed) = taken {
            let _ = self.bindings.try_push(Binding {
                variable,
                entry,
                changed,
            });
        }
    }

    // The latest binding, which goes, if a ledger entry from `mark` on made it.
    pub fn pop_since(&mut self, mark: usize) -> Option<Binding>
        ensures { Popping mark self.old result self.new }
    {
        if self.bindings.last()?.entry < mark {
            return None;
        }
        self.bindings.pop()
    }
}
