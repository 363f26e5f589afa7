// Why a call is refused, and the number that answers it.
#![tactic(auto)]

ghost use Rattle.std.specs.Prelude.{◌≡◌};
ghost use Rattle.answers.specs.Answers.{answer_of, number};

use std::fmt;

// The grounds of documents 01 and 02, in the order of their numbers.
#[derive(Clone, Copy, Debug, PartialEq, Eq, Hash)]
pub enum Refusal {
    BadSize,
    NotInOrder,
    BadKind,
    BadRank,
    BadPlace,
    DeadRank,
    Entered,
    LivingRank,
    OnlyLiving,
    LivingEnds,
    TooMany,
    TooShort,
    NoHeader,
    WrongMark,
    WrongVersion,
    Broken,
    TooLong,
    FewPlaces,
    NoRoom,
    NoPicture,
    NotByThree,
    FewAnswers,
    BadBox,
    BadForm,
}

impl Refusal {
    // Its number.
    pub fn number(self) -> u32
        ensures { result ≡ number self }
    {
        match self {
            Refusal::BadSize => 1,
            Refusal::NotInOrder => 2,
            Refusal::BadKind => 3,
            Refusal::BadRank => 4,
            Refusal::BadPlace => 5,
            Refusal::DeadRank => 6,
            Refusal::Entered => 7,
            Refusal::LivingRank => 8,
            Refusal::OnlyLiving => 9,
            Refusal::LivingEnds => 10,
            Refusal::TooMany => 11,
            Refusal::TooShort => 12,
            Refusal::NoHeader => 20,
            Refusal::WrongMark => 21,
            Refusal::WrongVersion => 22,
            Refusal::Broken => 23,
            Refusal::TooLong => 24,
            Refusal::FewPlaces => 25,
            Refusal::NoRoom => 30,
            Refusal::NoPicture => 31,
            Refusal::NotByThree => 40,
            Refusal::FewAnswers => 41,
            Refusal::BadBox => 50,
            Refusal::BadForm => 51,
        }
    }
}

impl fmt::Display for Refusal {
    fn fmt<W: fmt::Write>(&self, f: &mut fmt::Formatter<W>) -> fmt::Result {
        write!(f, "refused {}", self.number())
    }
}

// What a call answers: 0 where it is accepted, and otherwise the refusal's number.
pub fn answer_of(answer: Result<(), Refusal>) -> u32
    ensures { result ≡ answer_of answer }
{
    match answer {
        Ok(()) => 0,
        Err(refusal) => refusal.number(),
    }
}
