// Whole rows of images: a ledger solved from the start, which is the plain way to take equations out, and two rows
// compared.
#![tactic(auto)]

ghost use Rattle.std.specs.Prelude.{ℕ, ◌≤◌, length, min};
ghost use Rattle.solving.specs.Substitutions.{SameSubstitution};
ghost use Rattle.steps.specs.Rows.{images, Resolves};
ghost use Rattle.terms.specs.Decisions.{Decides};
ghost use Rattle.terms.specs.Limits.{most_variables};

use kinds::Kind;
use steps::{restart, take_in};
use terms::normal::Normal;

// Whether two rows give the variables of both the same images.
pub fn same_images<K: Kind>(row: &[Normal<K>], other: &[Normal<K>]) -> bool
    ensures { Decides result (SameSubstitution K.ops (min (length row.now) (length other.now)) (images K.ops row.now) (images K.ops other.now)) }
{
    for (ours, theirs) in row.iter().zip(other) {
        if !ours.same(*theirs) {
            return false;
        }
    }
    true
}

// Makes the row the solved form of a whole ledger, from the start, if some substitution clears it. This is the plain way
// to take equations out, by solving those that stay once more. Asks that there can be so many variables, as the steps do:
// a slice has no place for that.
pub fn solve_all<K: Kind>(row: &mut [Normal<K>], ledger: &[Normal<K>])
    requires { length row.old ≤ most_variables }
    ensures { Resolves K.ops (length row.old) ledger.now ledger.now row.new }
{
    restart(row);
    for form in ledger {
        take_in(row, *form);
    }
}
