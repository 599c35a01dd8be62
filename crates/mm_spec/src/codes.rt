//! The numbers by which users know the codes.

ghost use Rattle.std.specs.Prelude.{◌≡◌, ◌<◌};
ghost use Rattle.mm_spec.specs.Codes.{code_number};

use crate::Code;
use std::fmt;

impl Code {
    /// The number of the code, below 100.
    pub fn number(self) -> u8
        ensures is_code_number { result ≡ code_number self }
        ensures number_lt_100 { result < 100 }
    {
        match self {
            Code::TextTooLong => 0,
            Code::BadByte => 1,
            Code::MarkInComment => 2,
            Code::OpenComment => 3,
            Code::StrayDollar => 4,
            Code::Inclusion => 5,
            Code::BadLabel => 6,
            Code::UnexpectedToken => 7,
            Code::OpenStatement => 8,
            Code::UnopenedBlock => 9,
            Code::OpenBlock => 10,
            Code::ConstantInBlock => 11,
            Code::EmptyDeclaration => 12,
            Code::DeclaredBefore => 13,
            Code::LabelIsSymbol => 14,
            Code::LabelUsedBefore => 15,
            Code::BadTypecode => 17,
            Code::UndeclaredSymbol => 18,
            Code::BadFloating => 19,
            Code::TypedBefore => 20,
            Code::OtherTypecode => 21,
            Code::UntypedVariable => 22,
            Code::TooFewVariables => 23,
            Code::UndeclaredVariable => 24,
            Code::RepeatedVariable => 25,
            Code::EmptyProof => 31,
            Code::IncompleteProof => 32,
            Code::UnusableLabel => 33,
            Code::TooFewEntries => 34,
            Code::UnmatchedHypotheses => 35,
            Code::NotDisjoint => 36,
            Code::NotOneEntry => 37,
            Code::OtherFormula => 38,
            Code::FormulaTooLong => 39,
            Code::OpenBrackets => 41,
            Code::BadLetter => 42,
            Code::OpenNumber => 43,
            Code::MarkBeforeStep => 44,
            Code::NumberTooLarge => 45,
        }
    }
}

impl fmt::Display for Code {
    fn fmt<W: fmt::Write>(&self, f: &mut fmt::Formatter<W>) -> fmt::Result {
        let number = self.number();
        write!(f, "E{number:02}")
    }
}
