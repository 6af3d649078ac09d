// Refusals, each with its place where it has one.
ghost use Rattle.std.specs.Prelude.{◌≡◌};
ghost use Rattle.rules.specs.Refused.{verdict_of};

use std::error::Error;
use std::fmt;

// Why an answer is refused, in the order of the numbers.
#[derive(Clone, Copy, Debug, PartialEq, Eq)]
pub enum Refusal {
    Tables,
    Section(u32),
    Doubled(u32),
    Degree(u32),
    Turn(u32),
    SecondTurn(u32),
    Length,
    Start,
    Finish,
    Room,
    Labels,
    NoRoute,
    Buffer,
    NoTurn,
    NoPullOut,
    Claim,
    Label(u32),
    StartLabel,
    File(u32),
}

impl Refusal {
    // The refusal's number. 13 is not given.
    pub fn number(self) -> u32
        ensures { result ≡ (verdict_of self).number }
    {
        match self {
            Refusal::Tables => 1,
            Refusal::Section(_) => 2,
            Refusal::Doubled(_) => 3,
            Refusal::Degree(_) => 4,
            Refusal::Turn(_) => 5,
            Refusal::SecondTurn(_) => 6,
            Refusal::Length => 7,
            Refusal::Start => 8,
            Refusal::Finish => 9,
            Refusal::Room => 10,
            Refusal::Labels => 11,
            Refusal::NoRoute => 12,
            Refusal::Buffer => 14,
            Refusal::NoTurn => 15,
            Refusal::NoPullOut => 16,
            Refusal::Claim => 17,
            Refusal::Label(_) => 18,
            Refusal::StartLabel => 19,
            Refusal::File(_) => 20,
        }
    }

    // The place at which it applies, or 0.
    pub fn place(self) -> u32
        ensures { result ≡ (verdict_of self).place }
    {
        match self {
            Refusal::Section(place) => place,
            Refusal::Doubled(place) => place,
            Refusal::Degree(place) => place,
            Refusal::Turn(place) => place,
            Refusal::SecondTurn(place) => place,
            Refusal::Label(place) => place,
            Refusal::File(place) => place,
            _ => 0,
        }
    }
}

// As planners read it: its number and its place.
impl fmt::Display for Refusal {
    fn fmt<W: fmt::Write>(&self, f: &mut fmt::Formatter<W>) -> fmt::Result {
        write!(f, "{} {}", self.number(), self.place())
    }
}

impl Error for Refusal {}
