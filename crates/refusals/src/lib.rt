// The closed list of refusals. A call that cannot do what it is asked gives one of these; its number and its place
// say why and where, and both reach the top unchanged. What each call refuses, and in which order, stands with the
// call.
#![tactic(auto)]

ghost use Rattle.std.specs.Prelude.{◌≡◌, Some};
ghost use Rattle.refusals.specs.Refusals.{number_of, place_of, told};

use std::fmt;

// Why a call was refused. A case that has a place holds it; the place of any other is 0.
#[derive(Clone, Copy, Debug, PartialEq, Eq)]
pub enum Refusal {
    // a table with no node or too many
    TableSize,
    // a node whose form is none of the three; place: the node
    WrongForm(usize),
    // a variable that is not below the size; place: the node
    WrongVariable(usize),
    // a join whose left or right is not a lower node; place: the node
    WrongOperand(usize),
    // a side that is not in the table; place: the side
    NoSuchSide(usize),
    // a size that is out of range
    BadSize,
    // fewer slots than variables
    FewSlots,
    // memory too short for its task; place: the number that is needed
    ShortMemory(usize),
    // a session that is not open
    Closed,
    // an output too short for any line
    ShortOutput,
    // the usable ledger is all standing
    LedgerFull,
    // no substitution meets the equation together with the standing ones
    Contradiction,
    // as many marks as can be held
    MarksFull,
    // no mark to return to
    NoMark,
    // no such variable to show, or a word missing
    NothingToShow,
    // a byte that begins no token; place: the byte
    NoToken(usize),
    // a token or a byte that may not stand there; place: it, or the line's length
    NotAllowed(usize),
    // a bracket too deep; place: the bracket
    TooDeep(usize),
    // a word or a block of a wrong length; place: its first byte
    WrongLength(usize),
    // a literal that the kind denies; place: its first byte
    DeniedLiteral(usize),
    // a variable or a name too many; place: its first byte
    WordsFull(usize),
    // no kind yet, or a second one
    KindChoice,
    // a line too long; place: the most bytes that a line may have
    LineTooLong(usize),
}

impl Refusal {
    // The number that the case has in the list, by which it is told.
    pub fn number(self) -> u32
        ensures { result ≡ number_of self }
    {
        match self {
            Refusal::TableSize => 1,
            Refusal::WrongForm(_) => 2,
            Refusal::WrongVariable(_) => 3,
            Refusal::WrongOperand(_) => 4,
            Refusal::NoSuchSide(_) => 5,
            Refusal::BadSize => 6,
            Refusal::FewSlots => 7,
            Refusal::ShortMemory(_) => 8,
            Refusal::Closed => 9,
            Refusal::ShortOutput => 10,
            Refusal::LedgerFull => 11,
            Refusal::Contradiction => 12,
            Refusal::MarksFull => 13,
            Refusal::NoMark => 14,
            Refusal::NothingToShow => 15,
            Refusal::NoToken(_) => 16,
            Refusal::NotAllowed(_) => 17,
            Refusal::TooDeep(_) => 18,
            Refusal::WrongLength(_) => 19,
            Refusal::DeniedLiteral(_) => 20,
            Refusal::WordsFull(_) => 21,
            Refusal::KindChoice => 22,
            Refusal::LineTooLong(_) => 23,
        }
    }

    // The place, a number for each case: it is told of each, and it is 0 where the list has none.
    pub fn place(self) -> usize
        ensures { result ≡ place_of self }
    {
        match self {
            Refusal::WrongForm(place)
            | Refusal::WrongVariable(place)
            | Refusal::WrongOperand(place)
            | Refusal::NoSuchSide(place)
            | Refusal::ShortMemory(place)
            | Refusal::NoToken(place)
            | Refusal::NotAllowed(place)
            | Refusal::TooDeep(place)
            | Refusal::WrongLength(place)
            | Refusal::DeniedLiteral(place)
            | Refusal::WordsFull(place)
            | Refusal::LineTooLong(place) => place,
            _ => 0,
        }
    }
}

// A refusal as it is told: the word no, its number and its place.
impl fmt::Display for Refusal {
    ghost output = { λ q. Some (told q) };

    fn fmt<W: fmt::Write>(&self, f: &mut fmt::Formatter<W>) -> fmt::Result {
        let number = self.number();
        let place = self.place();
        write!(f, "no {number} {place}")
    }
}
