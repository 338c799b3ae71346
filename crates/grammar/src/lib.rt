// The grammar of an equation's tokens: which lists of tokens are equations, which token of another list is the leftmost
// at fault, and that an equation has one tree on each side. This is the theory on which readers stand; its one function
// has the theorems as its contract. Nothing here knows bytes or lines.
#![tactic(auto)]

ghost use Rattle.grammar.specs.Theorems.{Accepts, Runs, Stops, Deeper};
ghost use Rattle.grammar.specs.Faults.{Leftmost};
ghost use Rattle.grammar.specs.Trees.{Unambiguous};

// The theorems. It does nothing: to call it is to have them.
pub fn theory()
    ensures accepts { Accepts }
    ensures runs { Runs }
    ensures stops { Stops }
    ensures deeper { Deeper }
    ensures leftmost { Leftmost }
    ensures unambiguous { Unambiguous }
{}
