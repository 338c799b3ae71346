// The answer to a query.
ghost use Rattle.std.specs.Prelude.{Some};
ghost use Rattle.steps.specs.Verdicts.{word_of};

use std::fmt;

// Which of the solutions meet an equation: all of them, none, or only some. Three answers, none of them an error or a lack.
#[derive(Clone, Copy, Debug, PartialEq, Eq)]
pub enum Verdict {
    Forced,
    Never,
    Open,
}

// The word that a verdict is told by.
impl fmt::Display for Verdict {
    ghost output = { λ w. Some (word_of w) };

    fn fmt<W: fmt::Write>(&self, f: &mut fmt::Formatter<W>) -> fmt::Result {
        f.write_str(match self {
            Verdict::Forced => "forced",
            Verdict::Never => "never",
            Verdict::Open => "open",
        })
    }
}
