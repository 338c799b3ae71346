// Solving equations of exclusive or: substitutions, and the solved form of a list of equations, which is unique. This is
// the theory on which the solver stands; its one function has the theorems as its contract. Nothing here knows sessions.
#![tactic(auto)]

ghost use Rattle.solving.specs.Theorems.{EmptySolved, Follows, Clashes, Binds, OneOfThree, SolvedOrNone, Canonical, Respects, Recorded};

use kinds::Kind;

// The theorems, for any kind. It does nothing: to call it is to have them.
pub fn theory<K: Kind>()
    ensures empty { EmptySolved K.ops }
    ensures follows { Follows K.ops }
    ensures clashes { Clashes K.ops }
    ensures binds { Binds K.ops }
    ensures one_of_three { OneOfThree K.ops }
    ensures solved_or_none { SolvedOrNone K.ops }
    ensures canonical { Canonical K.ops }
    ensures respects { Respects K.ops }
    ensures recorded { Recorded K.ops }
{}
