// Names as text: each name of a set is a literal.
ghost use Rattle.std.specs.Prelude.{◌≡◌, refl};
ghost use Rattle.std.proofs.Math.Dec.{lit≤};
ghost use Rattle.written.specs.Scripts.{named, names_script};

use crate::{Literal, Spelling, WrittenKind};
use kinds::Kind;
use kinds::names::{MOST_NAMES, Names};

// The name of a number alone, or no name where there is none of that number. No option: the empty set is what such a number
// stands for, and each caller would put it back.
pub(crate) fn name_of(number: usize) -> Names
    ensures { result ≡ named number }
{
    if number < MOST_NAMES {
        Names::one(number)
    } else {
        Names::zero()
    }
}

impl WrittenKind for Names {
    const LONGEST: usize = 701;

    ghost LONGEST = { names_script.longest };

    ghost script = { names_script };

    fn take(literal: Literal) -> Option<Names> {
        match literal {
            Literal::Name(number) => Some(name_of(number)),
            Literal::Block(_) => None,
        }
    }

    fn spell(&self) -> Spelling {
        Spelling::new(*self, None)
    }

    ghost longest = { refl };

    ghost most = { lit≤ tt };
}
