// Messages over names as text, for the programs that print samples. Reading and writing proper is not this crate's task.
#![tactic(auto)]

use kinds::names::Names;
use std::fmt;
use terms::normal::Normal;
use terms::sets::MOST_VARIABLES;

// A message in the variables X0, X1, .. and the names a, b, .., as it is printed.
#[derive(Clone, Copy)]
pub struct Message(pub Normal<Names>);

// A part of a message.
#[derive(Clone, Copy, Debug, PartialEq, Eq)]
enum Part {
    Variable(usize),
    Name(char),
}

impl fmt::Display for Part {
    fn fmt<W: fmt::Write>(&self, f: &mut fmt::Formatter<W>) -> fmt::Result {
        match self {
            Part::Variable(v) => write!(f, "X{v}"),
            Part::Name(letter) => write!(f, "{letter}"),
        }
    }
}

impl fmt::Display for Message {
    fn fmt<W: fmt::Write>(&self, f: &mut fmt::Formatter<W>) -> fmt::Result {
        let Normal { vars, constant } = self.0;
        let variables = (0..MOST_VARIABLES)
            .filter(|&v| vars.contains(v))
            .map(Part::Variable);
        let names = ('a'..='z')
            .enumerate()
            .filter(|&(number, _)| constant.contains(number))
            .map(|(_, letter)| Part::Name(letter));
        let mut parts = variables.chain(names);
        match parts.next() {
            None => f.write_str("0"),
            Some(first) => {
                first.fmt(f)?;
                // in one piece with what stands before, which is faster than two
                for part in parts {
                    match part {
                        Part::Variable(v) => write!(f, " ^ X{v}")?,
                        Part::Name(letter) => write!(f, " ^ {letter}")?,
                    }
                }
                Ok(())
            }
        }
    }
}
