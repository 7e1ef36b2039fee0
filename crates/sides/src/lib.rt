// The two sides of the aisle, and what there is one of a side.
#![tactic(auto)]

ghost use Rattle.std.specs.Prelude.{◌≡◌};
ghost use Rattle.sides.specs.Sides.{other, of_side, with_side};

// The two sides of the aisle.
#[derive(Clone, Copy, Debug, PartialEq, Eq)]
pub enum Side {
    A,
    B,
}

impl Side {
    // The side across the aisle.
    pub fn other(self) -> Side
        ensures { result ≡ other self }
    {
        match self {
            Side::A => Side::B,
            Side::B => Side::A,
        }
    }
}

// The side's number in a certificate: 0 for A, 1 for B.
impl From<Side> for u8 {
    ghost use Rattle.std.specs.Prelude.{◌≡◌};
    ghost use Rattle.sides.specs.Sides.{side_number};

    ghost from_gives = { λ side number. number ≡ side_number side };

    fn from(side: Side) -> u8 {
        match side {
            Side::A => 0,
            Side::B => 1,
        }
    }
}

// The side of a certificate's number: A for 0, else B.
impl From<usize> for Side {
    ghost use Rattle.std.specs.Prelude.{◌≡◌};
    ghost use Rattle.sides.specs.Sides.{side_from};

    ghost from_gives = { λ number side. side ≡ side_from number };

    fn from(number: usize) -> Side {
        if number == 0 { Side::A } else { Side::B }
    }
}

// One thing for each side.
#[derive(Clone, Copy, Debug, PartialEq, Eq)]
pub struct Pair<T> {
    pub a: T,
    pub b: T,
}

impl<T: Copy> Pair<T> {
    // The one of a side.
    pub fn of(self, side: Side) -> T
        ensures { result ≡ of_side self side }
    {
        match side {
            Side::A => self.a,
            Side::B => self.b,
        }
    }

    // The pair with another one of a side.
    pub fn with(self, side: Side, one: T) -> Pair<T>
        ensures { result ≡ with_side self side one }
    {
        match side {
            Side::A => Pair { a: one, ..self },
            Side::B => Pair { b: one, ..self },
        }
    }
}
