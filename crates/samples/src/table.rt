// The table of samples, as theorems about the definitions.
ghost use Rattle.samples.specs.Samples.{samples, Holds};
ghost use Rattle.samples.specs.Sessions.{session_samples, Replays};
ghost use Rattle.solving.specs.Equations.{Every};

// Every sample of the table holds: the normal forms, and the sessions. It does nothing: its contract is the table.
pub(crate) fn table_of_samples()
    ensures forms { Every Holds samples }
    ensures sessions { Every Replays session_samples }
{}
