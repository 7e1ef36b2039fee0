// The codes of document 01: why a thing is refused, and where. Code 0, no refusal, is an `Ok`.
#![tactic(auto)]

ghost use Rattle.std.specs.Prelude.{◌≡◌};
ghost use Rattle.codes.specs.Codes.{refused_at};

use std::fmt;

// Why a thing is refused.
#[derive(Clone, Copy, Debug, PartialEq, Eq)]
pub enum Code {
    FileEnds,
    States,
    Operations,
    TableLength,
    Entry,
    Start,
    Looms,
    Seat,
    LacksSide,
    PieceNumber,
    Label,
    Schedule,
    Act,
    ExtraBytes,
    SharedState,
    ReturnsToA,
    ReturnsToB,
    NoLoom,
    HasAnswered,
    Unfit,
    NoRoom,
    NoSuchCell,
}

// Why, and where: the kind of code is the caller's.
#[derive(Clone, Copy, Debug, PartialEq, Eq)]
pub struct Refused<C> {
    pub code: C,
    pub place: usize,
}

// A refusal of document 01.
pub type Refusal = Refused<Code>;

impl Code {
    // The refusal with this code, at a place.
    pub fn at(self, place: usize) -> Refusal
        ensures { result ≡ refused_at self place }
    {
        Refused { code: self, place }
    }
}

impl From<Code> for u8 {
    ghost use Rattle.std.specs.Prelude.{◌≡◌};
    ghost use Rattle.codes.specs.Codes.{number_of};

    ghost from_gives = { λ code number. number ≡ number_of code };

    fn from(code: Code) -> u8 {
        match code {
            Code::FileEnds => 1,
            Code::States => 2,
            Code::Operations => 3,
            Code::TableLength => 4,
            Code::Entry => 5,
            Code::Start => 6,
            Code::Looms => 7,
            Code::Seat => 8,
            Code::LacksSide => 9,
            Code::PieceNumber => 10,
            Code::Label => 11,
            Code::Schedule => 12,
            Code::Act => 13,
            Code::ExtraBytes => 14,
            Code::SharedState => 20,
            Code::ReturnsToA => 21,
            Code::ReturnsToB => 22,
            Code::NoLoom => 30,
            Code::HasAnswered => 31,
            Code::Unfit => 32,
            Code::NoRoom => 40,
            Code::NoSuchCell => 41,
        }
    }
}

impl fmt::Display for Code {
    ghost use Rattle.std.specs.Prelude.{Some};
    ghost use Rattle.codes.specs.Codes.{printed_code};

    ghost output = { λ code. Some (printed_code code) };

    fn fmt<W: fmt::Write>(&self, f: &mut fmt::Formatter<W>) -> fmt::Result {
        write!(f, "{}", u8::from(*self))
    }
}

impl fmt::Display for Refusal {
    ghost use Rattle.std.specs.Prelude.{Some};
    ghost use Rattle.codes.specs.Codes.{printed_refusal};

    ghost output = { λ refusal. Some (printed_refusal refusal) };

    fn fmt<W: fmt::Write>(&self, f: &mut fmt::Formatter<W>) -> fmt::Result {
        write!(f, "{} {}", self.code, self.place)
    }
}
