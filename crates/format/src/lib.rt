// The format of an order file: where its parts lie, and its fields judged one by one.
#![tactic(auto)]

ghost use Rattle.std.specs.Prelude.{◌≡◌, ◌+◌, ◌*◌, ◌<◌, ◌^◌, ltb, IfOk};
ghost use Rattle.cell.specs.Limits.{edition};
ghost use Rattle.sides.specs.Sides.{side_number};
ghost use Rattle.recording.specs.Recording.{side_count};
ghost use Rattle.format.specs.Layout.{Small, plan_of};
ghost use Rattle.format.specs.Format.{item_at, width_of, names_act, run_of, seats_at, sides_at, number_at, label_at, parsed_of, judgement_of};

use codes::{Code, Refusal};
use sides::Side;
use xdr::Rule;

// Where the parts of a file begin and how long they are, as its words say.
#[derive(Clone, Copy, Debug, PartialEq, Eq)]
pub struct Plan {
    pub states: usize,
    pub operations: usize,
    pub entries: usize,
    pub start: usize,
    pub looms: usize,
    pub numbers: usize,
    pub first: usize,
    pub rest: usize,
    pub second: usize,
    pub schedule: usize,
    pub acts: usize,
}

// What judging a file comes to: where a file that is taken ends, or its first refusal; and its plan, so that nobody works it out again.
#[derive(Clone, Copy, Debug, PartialEq, Eq)]
pub struct Judgement {
    pub verdict: Result<usize, Refusal>,
    pub plan: Plan,
}

// The items of a counted array, three kinds and no more, so an enum and no trait: entries of a table of so many states, looms fitted with
// so many operations, acts on so many looms.
#[derive(Clone, Copy, Debug, PartialEq, Eq)]
pub enum Items {
    Entries(usize),
    Looms(usize),
    Acts(usize),
}

// The words that name an act of a group of so many looms.
#[derive(Clone, Copy)]
struct Acts {
    looms: usize,
}

impl Rule for Acts {
    ghost allows = { λ acts. names_act acts.looms };

    #[tactic(auto, unfolding(crate::specs::Format::names_act, xdr::specs::Field::within))]
    fn allows(&self, value: usize) -> bool {
        // Early returns: as one expression it took 1.9 times as long over the longest file as C, item by item; now 1.1 times.
        if value < self.looms {
            return true;
        }
        if value < cell::RESTART {
            return false;
        }
        value - cell::RESTART < self.looms || value == cell::ALL
    }
}

// A loom's side and operation: each refused with code 8.
fn loom_at(file: &[u8], at: usize, operations: usize) -> Result<usize, Refusal>
    ensures { result ≡ item_at (Items.Looms operations) file.now at }
{
    xdr::field_at(file, at, 0..2, Code::Seat)?;
    xdr::field_at(file, at + 4, 0..operations, Code::Seat)
}

// One item of a counted array.
fn item_at(file: &[u8], at: usize, items: Items) -> Result<usize, Refusal>
    ensures { result ≡ item_at items file.now at }
{
    match items {
        Items::Entries(states) => xdr::field_at(file, at, 0..states, Code::Entry),
        Items::Looms(operations) => loom_at(file, at, operations),
        Items::Acts(looms) => xdr::field_at(file, at, Acts { looms }, Code::Act),
    }
}

// The bytes of an item.
fn width(items: Items) -> usize
    ensures { result ≡ width_of items }
{
    match items {
        Items::Entries(_) | Items::Acts(_) => 4,
        Items::Looms(_) => 8,
    }
}

// A counted array: what follows it, or its first item's refusal.
fn items_at(file: &[u8], at: usize, count: usize, items: Items) -> Result<usize, Refusal>
    ensures { result ≡ run_of items file.now count at }
{
    let mut next = at;
    for _ in 0..count {
        item_at(file, next, items)?;
        next += width(items);
    }
    Ok(next)
}

// Whether one of `count` looms from `at` on is of a side: by its number, as the file's words have it.
fn has_side(file: &[u8], at: usize, count: usize, side: Side) -> bool
    requires { at + 8 * count < 2 ^ 64 }
    ensures { result ≡ ltb 0 (side_count (side_number side) (seats_at file.now count at)) }
{
    let number = usize::from(u8::from(side));
    // A loop: with `any` on the range the proof that false means none didn't close.
    for loom in 0..count {
        if xdr::word_at(file, at + 8 * loom) == number {
            return true;
        }
    }
    false
}

// The two sides of `count` looms from `at` on: refused with code 9 at `place`, the loom count, where a side has no loom.
fn sides_at(file: &[u8], at: usize, count: usize, place: usize) -> Result<usize, Refusal>
    requires { at + 8 * count < 2 ^ 64 }
    ensures { result ≡ sides_at (seats_at file.now count at) place }
{
    if has_side(file, at, count, Side::A) && has_side(file, at, count, Side::B) {
        Ok(place)
    } else {
        Err(Code::LacksSide.at(place))
    }
}

// A piece number.
fn number_at(file: &[u8], at: usize) -> Result<usize, Refusal>
    ensures { result ≡ number_at file.now at }
{
    xdr::field_at(file, at, 1..4294967296, Code::PieceNumber)
}

// A label's length, then its bytes with their pad bytes: what follows them.
fn label_at(file: &[u8], at: usize) -> Result<usize, Refusal>
    ensures { result ≡ label_at edition file.now at }
{
    let length = xdr::field_at(file, at, 0..cell::LABEL + 1, Code::Label)?;
    xdr::opaque_at(file, at + 4, length, 32..127, Code::Label)
}

// The parts of a file, each where the words before it put it. A file that ends early has 0 for the words it lacks.
fn planned(file: &[u8]) -> Plan
    ensures { (result ≡ plan_of file.now) × Small result }
{
    let entries = xdr::word_at(file, 8);
    let start = 12 + 4 * entries;
    let looms = xdr::word_at(file, start + 4);
    let numbers = start + 8 + 8 * looms;
    let first = xdr::word_at(file, numbers + 8);
    let rest = numbers + 8 + 4 + first + xdr::pad(first);
    let second = xdr::word_at(file, rest);
    let schedule = rest + 4 + second + xdr::pad(second);
    Plan {
        states: xdr::word_at(file, 0),
        operations: xdr::word_at(file, 4),
        entries,
        start,
        looms,
        numbers,
        first,
        rest,
        second,
        schedule,
        acts: xdr::word_at(file, schedule),
    }
}

// The plan of a file that is taken, read field by field, or the first refusal, in file order.
fn parsed(file: &[u8]) -> Result<Plan, Refusal>
    ensures judged { result ≡ parsed_of edition file.now }
    ensures small { IfOk result Small }
{
    let states = xdr::field_at(file, 0, 1..cell::STATES + 1, Code::States)?;
    let operations = xdr::field_at(file, 4, 1..cell::OPERATIONS + 1, Code::Operations)?;
    let size = states * operations;
    let entries = xdr::field_at(file, 8, size..size + 1, Code::TableLength)?;
    let start = items_at(file, 12, entries, Items::Entries(states))?;

    xdr::field_at(file, start, 0..states, Code::Start)?;
    let count = start + 4;
    let looms = xdr::field_at(file, count, 2..cell::LOOMS + 1, Code::Looms)?;
    let seats = start + 8;
    let numbers = items_at(file, seats, looms, Items::Looms(operations))?;
    sides_at(file, seats, looms, count)?;

    number_at(file, numbers)?;
    number_at(file, numbers + 4)?;
    let label = numbers + 8;
    let rest = label_at(file, label)?;
    let schedule = label_at(file, rest)?;

    let acts = xdr::field_at(file, schedule, 0..cell::ENTRIES + 1, Code::Schedule)?;
    let end = items_at(file, schedule + 4, acts, Items::Acts(looms))?;
    xdr::end_at(file, end, Code::ExtraBytes)?;

    Ok(Plan {
        states,
        operations,
        entries,
        start,
        looms,
        numbers,
        first: xdr::word_at(file, label),
        rest,
        second: xdr::word_at(file, rest),
        schedule,
        acts,
    })
}

// A file's first refusal, in file order, or for a file that is taken where it ends; and its plan, of a refused file too.
pub fn judge(file: &[u8]) -> Judgement
    ensures { (result ≡ judgement_of edition file.now) × Small result.plan }
{
    match parsed(file) {
        Ok(plan) => Judgement {
            verdict: Ok(plan.schedule + 4 + 4 * plan.acts),
            plan,
        },
        Err(refusal) => Judgement {
            verdict: Err(refusal),
            plan: planned(file),
        },
    }
}
