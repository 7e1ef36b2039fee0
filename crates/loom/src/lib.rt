// A loom, its place in one round, and the memory that the looms of a group share.
#![tactic(auto)]

ghost use Rattle.std.specs.Prelude.{◌≡◌};
ghost use Rattle.sides.specs.Sides.{other};
ghost use Rattle.loom.specs.Sides.{register, with_register, with_cell};
ghost use Rattle.loom.specs.Turn.{decided, looks, after_posted, after_looking, has_answered};
ghost use Rattle.loom.specs.Looms.{standing, moved_to, restarted_of, rules_of, turned_of};
ghost use Rattle.loom.specs.Numbers.{said_number, is_application, said_piece};

use sides::{Pair, Side};

// Where a loom stands in its round.
#[derive(Clone, Copy, Debug, PartialEq, Eq)]
pub enum Place {
    Begin,
    Posted,
    Looking,
    Ready,
    Applied,
    Bound(Side),
    Answered(Side),
}

// One loom: its side, its operation, its steps since it opened or last restarted, and its place.
#[derive(Clone, Copy, Debug, PartialEq, Eq)]
pub struct Loom {
    pub side: Side,
    pub operation: u8,
    pub steps: u8,
    pub place: Place,
}

// The memory that survives a restart: the cell's state and the two registers, 0 where nothing is posted.
#[derive(Clone, Copy, Debug, PartialEq, Eq)]
pub struct Shared {
    pub cell: u8,
    pub registers: Pair<u32>,
}

// What a step says: nothing, that it applied the loom's operation, or the winner and its number.
#[derive(Clone, Copy, Debug, PartialEq, Eq)]
pub enum Said {
    Nothing,
    Application,
    Answer(Side, u32),
}

// What the looms of a group go by: the start, the leading side, its set, and whether the yielding side has one loom.
#[derive(Clone, Copy, Debug, PartialEq, Eq)]
pub struct Lead {
    pub start: u8,
    pub side: Side,
    pub set: u64,
    pub alone: bool,
}

// What one turn leaves: the loom, the shared memory, and what the step says.
#[derive(Clone, Copy, Debug, PartialEq, Eq)]
pub struct Turned {
    pub loom: Loom,
    pub shared: Shared,
    pub said: Said,
}

impl Place {
    // Whether a loom there has answered.
    pub fn has_answered(self) -> bool
        ensures { result ≡ has_answered self }
    {
        matches!(self, Place::Answered(_))
    }
}

impl Said {
    // The mark of what a step says, as the buffer has it: 1 for an answer with side A, 2 with side B, else 0.
    pub fn mark(self) -> u8
        ensures { result ≡ said_number self }
    {
        match self {
            Said::Answer(Side::A, _) => 1,
            Said::Answer(Side::B, _) => 2,
            _ => 0,
        }
    }

    // Whether the step applied the loom's operation.
    pub fn applied(self) -> bool
        ensures { result ≡ is_application self }
    {
        matches!(self, Said::Application)
    }

    // The number that the step answers with, 0 where it doesn't answer: for C, where no piece has it.
    pub fn piece(self) -> u32
        ensures { result ≡ said_piece self }
    {
        match self {
            Said::Answer(_, number) => number,
            _ => 0,
        }
    }
}

impl Shared {
    // The number in the register of a side.
    pub fn register(self, side: Side) -> u32
        ensures { result ≡ register self side }
    {
        self.registers.of(side)
    }

    // The number in the register of the side across the aisle.
    pub fn across(self, side: Side) -> u32
        ensures { result ≡ register self (other side) }
    {
        self.register(side.other())
    }

    // The memory with a number in the register of a side.
    pub fn with_register(self, side: Side, number: u32) -> Shared
        ensures { result ≡ with_register self side number }
    {
        Shared {
            registers: self.registers.with(side, number),
            ..self
        }
    }

    // The memory with the cell in a state.
    pub fn with_cell(self, state: u8) -> Shared
        ensures { result ≡ with_cell self state }
    {
        Shared {
            cell: state,
            ..self
        }
    }
}

impl Lead {
    // The side decided by a state of the cell: the leading side if the state is in its set, else the yielding side.
    pub fn decided(self, cell: u8) -> Side
        ensures { result ≡ decided (rules_of self) cell }
    {
        if sets::has(self.set, usize::from(cell)) {
            self.side
        } else {
            self.side.other()
        }
    }

    // Whether a loom of a side looks before it applies: its side yields, and has one loom.
    pub fn looks(self, side: Side) -> bool
        ensures { result ≡ looks (rules_of self) side }
    {
        self.alone && side == self.side.other()
    }

    // Where a loom of a side goes from posted, once it has read the cell.
    #[tactic(auto, unfolding(crate::specs::Turn::after_posted))]
    pub fn after_posted(self, side: Side, cell: u8) -> Place
        ensures { result ≡ after_posted (rules_of self) side cell }
    {
        if cell != self.start {
            Place::Bound(self.decided(cell))
        } else if self.looks(side) {
            Place::Looking
        } else {
            Place::Ready
        }
    }
}

// Where a loom of a side goes from looking, once it has read the other side's register.
#[tactic(auto, unfolding(crate::specs::Turn::after_looking))]
pub fn after_looking(side: Side, number: u32) -> Place
    ensures { result ≡ after_looking side number }
{
    if number == 0 {
        Place::Ready
    } else {
        Place::Bound(side.other())
    }
}

impl Loom {
    // The loom at another count and place. Nothing else changes a loom.
    fn standing(self, steps: u8, place: Place) -> Loom
        ensures { result ≡ standing self steps place }
    {
        Loom {
            steps,
            place,
            ..self
        }
    }

    // The loom at its next place, with one step more, up to 255.
    fn moved(self, place: Place) -> Loom
        ensures { result ≡ moved_to self place }
    {
        self.standing(self.steps.saturating_add(1), place)
    }

    // The loom after it has written its side's number.
    pub fn posted(self) -> Loom
        ensures { result ≡ moved_to self Place.Posted }
    {
        self.moved(Place::Posted)
    }

    // The loom after it has read the cell at posted.
    pub fn after_cell(self, lead: Lead, cell: u8) -> Loom
        ensures { result ≡ moved_to self (after_posted (rules_of lead) self.side cell) }
    {
        self.moved(lead.after_posted(self.side, cell))
    }

    // The loom after it has read the other side's register at looking.
    pub fn after_register(self, number: u32) -> Loom
        ensures { result ≡ moved_to self (after_looking self.side number) }
    {
        self.moved(after_looking(self.side, number))
    }

    // The loom after it has applied its operation.
    pub fn applied(self) -> Loom
        ensures { result ≡ moved_to self Place.Applied }
    {
        self.moved(Place::Applied)
    }

    // The loom after it has read the cell at applied.
    pub fn bound(self, lead: Lead, cell: u8) -> Loom
        ensures { result ≡ moved_to self (Place.Bound (decided (rules_of lead) cell)) }
    {
        self.moved(Place::Bound(lead.decided(cell)))
    }

    // The loom after it has answered with a side.
    pub fn answered(self, side: Side) -> Loom
        ensures { result ≡ moved_to self (Place.Answered side) }
    {
        self.moved(Place::Answered(side))
    }

    // The loom after a restart, from any place.
    pub fn restarted(self) -> Loom
        ensures { result ≡ restarted_of self }
    {
        self.standing(0, Place::Begin)
    }
}

// One turn of a loom by document 01's table of places, a row an arm: `number` is what it posts, `next` the state after its operation in
// the cell's state. Always inlined: called, its answer goes through memory, and a run takes twice as long.
#[tactic(auto, unfolding(crate::specs::Turn::turn_of))]
#[inline(always)]
pub fn turn(lead: Lead, number: u32, next: u8, shared: Shared, loom: Loom) -> Turned
    ensures { result ≡ turned_of (rules_of lead) number (λ _. next) shared loom }
{
    let side = loom.side;
    let (loom, shared, said) = match loom.place {
        Place::Begin => (
            loom.posted(),
            shared.with_register(side, number),
            Said::Nothing,
        ),
        Place::Posted => (loom.after_cell(lead, shared.cell), shared, Said::Nothing),
        Place::Looking => (
            loom.after_register(shared.across(side)),
            shared,
            Said::Nothing,
        ),
        Place::Ready => (loom.applied(), shared.with_cell(next), Said::Application),
        Place::Applied => (loom.bound(lead, shared.cell), shared, Said::Nothing),
        Place::Bound(x) => (
            loom.answered(x),
            shared,
            Said::Answer(x, shared.register(x)),
        ),
        Place::Answered(x) => (loom.answered(x), shared, Said::Nothing),
    };
    Turned { loom, shared, said }
}

// The number of a place, 0 to 8.
impl From<Place> for u8 {
    ghost use Rattle.std.specs.Prelude.{◌≡◌};
    ghost use Rattle.loom.specs.Numbers.{place_number};

    ghost from_gives = { λ place number. number ≡ place_number place };

    fn from(place: Place) -> u8 {
        match place {
            Place::Begin => 0,
            Place::Posted => 1,
            Place::Looking => 2,
            Place::Ready => 3,
            Place::Applied => 4,
            Place::Bound(Side::A) => 5,
            Place::Bound(Side::B) => 6,
            Place::Answered(Side::A) => 7,
            Place::Answered(Side::B) => 8,
        }
    }
}

// The place of a number; answered B for any above 7.
impl From<u8> for Place {
    ghost use Rattle.std.specs.Prelude.{◌≡◌};
    ghost use Rattle.loom.specs.Numbers.{place_from};

    ghost from_gives = { λ number place. place ≡ place_from number };

    #[tactic(auto, unfolding(crate::specs::Numbers::place_from))]
    fn from(number: u8) -> Place {
        match number {
            0 => Place::Begin,
            1 => Place::Posted,
            2 => Place::Looking,
            3 => Place::Ready,
            4 => Place::Applied,
            5 => Place::Bound(Side::A),
            6 => Place::Bound(Side::B),
            7 => Place::Answered(Side::A),
            _ => Place::Answered(Side::B),
        }
    }
}
