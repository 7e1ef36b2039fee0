// A certificate, and the check that accepts it exactly when it is recording: document 01, "Cell and certificate".
#![tactic(auto)]

ghost use Rattle.std.specs.Prelude.{◌≡◌, ◌*◌, ◌++◌, ◌^◌, ◌≤◌, ◌<◌, length, get_or, drop};
ghost use Rattle.std.specs.Int.Bits.{bit_or};
ghost use Rattle.cell.specs.Table.{entry_of};
ghost use Rattle.cell.specs.Limits.{edition};
ghost use Rattle.sides.specs.Sides.{side_number};
ghost use Rattle.recording.specs.Recording.{empty_seat, side_count};
ghost use Rattle.recording.specs.Words.{advanced, union_of};
ghost use Rattle.recording.specs.Check.{misfit_of, lowest_misfit, looms_fault, fault_of, comes_back, outcome_of, Judges, Checks};
ghost use Rattle.recording.specs.Fitting.{Steps, Fitting, words_to, both_words, word_by, added_by, sets_by};

use cell::Table;
use codes::{Code, Refusal};
use sides::{Pair, Side};

// One loom's seat in a certificate: its side (0 for A, 1 for B) and its operation, as plain numbers, since a wrong one is refused.
#[derive(Clone, Copy, Debug, PartialEq, Eq)]
pub struct Seat {
    pub side: usize,
    pub operation: usize,
}

// A start state and a seat for each of `count` looms; seats beyond the count say nothing. Eight with a count beside, since there is no heap
// and C hands over fixed memory.
#[derive(Clone, Copy, Debug, PartialEq, Eq)]
pub struct Certificate {
    pub start: usize,
    pub count: usize,
    pub seats: [Seat; 8],
}

// What the check comes to, and the sets of A and of B, which are empty where the code is 2 to 9 or 40.
#[derive(Clone, Copy, Debug, PartialEq, Eq)]
pub struct Judged {
    pub outcome: Result<(), Refusal>,
    pub sets: Pair<u64>,
}

// The check's answer: what it comes to, and the number of states in each set.
#[derive(Clone, Copy, Debug, PartialEq, Eq)]
pub struct Checked {
    pub outcome: Result<(), Refusal>,
    pub sizes: Pair<usize>,
}

// A table, looms and a start that are past 2 to 9: no lookup of theirs is refused.
#[derive(Clone, Copy)]
struct Fitted<'a> {
    table: Table<'a>,
    looms: &'a [Seat],
    start: usize,
    ghost fits: { Fitting table.entries.now table.states looms.now start },
}

// An operation of a table that leads from each state to a state.
#[derive(Clone, Copy)]
struct Operation<'a> {
    table: Table<'a>,
    number: usize,
    ghost leads: { Steps table.entries.now table.states number },
}

// Whether the certificate is recording over the table, else the first code that refuses it, with its place. The area has to hold
// 2 × 2^n words for n looms; past 2 to 9 and 40 they are filled, whatever the code.
pub fn check(table: Table<'_>, certificate: Certificate, area: &mut [u64]) -> Checked
    ensures { Checks table.entry.entries.now table.entry.states table.entry.operations certificate area.old result area.new }
{
    let judged = judge(table, certificate, area);
    Checked {
        outcome: judged.outcome,
        sizes: Pair {
            a: sets::size(judged.sets.a),
            b: sets::size(judged.sets.b),
        },
    }
}

// The same with the sets themselves, which opening a group keeps.
pub fn judge(table: Table<'_>, certificate: Certificate, area: &mut [u64]) -> Judged
    ensures { Judges table.entry.entries.now table.entry.states table.entry.operations certificate area.old result area.new }
{
    if let Err(refusal) = fault(table, &certificate, area.len()) {
        return Judged {
            outcome: Err(refusal),
            sets: Pair { a: 0, b: 0 },
        };
    }
    let looms = &certificate.seats[..certificate.count];
    let fitted = Fitted {
        table,
        looms,
        start: certificate.start,
    };
    let sets = fitted.fill_both(area);
    Judged {
        outcome: outcome(certificate.start, looms, sets),
        sets,
    }
}

// Codes 2 to 9 and 40, in that order, with their places. `room` is the area's length. The certificate is lent: by value it is copied, which
// took up to 1.6 times as long over large tables.
fn fault(table: Table<'_>, certificate: &Certificate, room: usize) -> Result<(), Refusal>
    ensures { result ≡ fault_of table.entry.entries.now table.entry.states table.entry.operations certificate.now room }
{
    table.form()?;
    if table.states <= certificate.start {
        return Err(Code::Start.at(0));
    }
    looms_fault(table.operations, certificate, room)
}

// Codes 7 to 9 and 40.
fn looms_fault(operations: usize, certificate: &Certificate, room: usize) -> Result<(), Refusal>
    ensures { result ≡ looms_fault operations certificate.now room }
{
    let count = certificate.count;
    if count < 2 || cell::LOOMS < count {
        return Err(Code::Looms.at(0));
    }
    let looms = &certificate.seats[..count];
    if let Some(k) = first_misfit(operations, looms) {
        return Err(Code::Seat.at(k));
    }
    if side_count(Side::A, looms) == 0 || side_count(Side::B, looms) == 0 {
        return Err(Code::LacksSide.at(0));
    }
    if room < 2 * power(count) {
        return Err(Code::NoRoom.at(0));
    }
    Ok(())
}

// The lowest loom with a side above 1 or an operation that the cell lacks.
fn first_misfit(operations: usize, looms: &[Seat]) -> Option<usize>
    ensures { result ≡ lowest_misfit operations looms.now }
{
    looms.iter().position(|&seat| misfit(operations, seat))
}

// Whether a seat's side is above 1, or its operation not one of the cell's.
fn misfit(operations: usize, seat: Seat) -> bool
    ensures { result ≡ misfit_of operations seat }
{
    1 < seat.side || operations <= seat.operation
}

// How many looms are of a side. (A group counts looms, whose sides are no numbers: two types and a line each, so no trait for both.)
fn side_count(side: Side, looms: &[Seat]) -> usize
    ensures { result ≡ side_count (side_number side) looms.now }
{
    let number = usize::from(u8::from(side));
    looms.iter().filter(|seat| seat.side == number).count()
}

// The number of sets of so many looms.
fn power(count: usize) -> usize
    requires { count ≤ edition.looms }
    ensures { result ≡ 2 ^ count }
{
    1 << count
}

impl<'a> Fitted<'a> {
    // Writes the words of A and then those of B to the area, and answers the two sets. Later words stay as they were.
    fn fill_both(self, area: &mut [u64]) -> Pair<u64>
        requires { 2 * 2 ^ length self.looms.now ≤ length area.old }
        ensures sets { result ≡ sets_by self.entry.table.entries.now self.entry.table.states self.entry.looms.now self.entry.start }
        ensures words { area.new
            ≡ both_words self.entry.table.entries.now self.entry.table.states self.entry.looms.now self.entry.start area.old }
    {
        let size = power(self.looms.len());
        let a = self.fill(Side::A, size, area);
        let b = self.fill(Side::B, size, &mut area[size..]);
        Pair { a, b }
    }

    // Writes the words of a side to the first `size` of the area, and answers their union: the side's set.
    fn fill(self, side: Side, size: usize, area: &mut [u64]) -> u64
        requires { (size ≡ 2 ^ length self.looms.now) × (size ≤ length area.old) }
        ensures set { result
            ≡ union_of 0
            (words_to self.entry.table.entries.now self.entry.table.states self.entry.looms.now self.entry.start (side_number side) size) }
        ensures words { area.new
            ≡ words_to self.entry.table.entries.now self.entry.table.states self.entry.looms.now self.entry.start (side_number side) size
            ++ drop size area.old }
    {
        let mut set = 0;
        for m in 0..size {
            let w = self.word(side, area, m);
            area[m] = w;
            set = sets::union(set, w);
        }
        set
    }

    // Word m of a side: what each loom of m adds to it as the last, the lowest loom first. The words below m stand in `earlier`.
    fn word(self, side: Side, earlier: &[u64], m: usize) -> u64
        requires { (m < 2 ^ length self.looms.now) × (m < length earlier.now) }
        ensures { result ≡ word_by self.entry.table.entries.now self.entry.table.states self.entry.looms.now self.entry.start
            (side_number side) earlier.now m (length self.entry.looms.now) }
    {
        let mut set = 0;
        let mut left = m as u64;
        // No count: it goes by the ones that are left. (Casts: a usize has no From into a u64.)
        while left != 0 {
            let j = sets::lowest(left);
            let lone = power(j);
            set = sets::union(set, self.last_by(j, side, earlier, m, lone));
            left -= lone as u64;
        }
        set
    }

    // What loom j adds to word m as the last of an order: its first state where m is `lone`, the loom alone, else what the word without it
    // moves to.
    fn last_by(self, j: usize, side: Side, earlier: &[u64], m: usize, lone: usize) -> u64
        requires { (j < length self.looms.now) × (1 ≤ lone) × (lone ≤ m) × (m < length earlier.now) }
        ensures { result ≡ added_by self.entry.table.entries.now self.entry.table.states (get_or self.entry.looms.now j empty_seat)
            self.entry.start (side_number side) earlier.now m lone }
    {
        let seat = self.looms[j];
        let operation = Operation {
            table: self.table,
            number: seat.operation,
        };
        if m != lone {
            operation.advance(earlier[m - lone])
        } else if seat.side == usize::from(u8::from(side)) {
            operation.moved(self.start, 0)
        } else {
            0
        }
    }
}

impl<'a> Operation<'a> {
    // The states that those of a set move to.
    fn advance(self, set: u64) -> u64
        ensures { result
            ≡ advanced (entry_of self.entry.table.entries.now self.entry.table.states self.entry.number) set self.entry.table.states }
    {
        let mut out = 0;
        for q in 0..self.table.states {
            if sets::has(set, q) {
                out = self.moved(q, out);
            }
        }
        out
    }

    // A set with the state after state q put in.
    fn moved(self, q: usize, set: u64) -> u64
        requires { q < self.table.states }
        ensures { result ≡ bit_or set (2 ^ entry_of self.entry.table.entries.now self.entry.table.states self.entry.number q) }
    {
        match self.table.next(self.number, q) {
            Some(to) => sets::insert(set, usize::from(to)),
            None => set,
        }
    }
}

// Codes 20, 21 and 22, in that order, with their places.
fn outcome(start: usize, looms: &[Seat], sets: Pair<u64>) -> Result<(), Refusal>
    ensures { result ≡ outcome_of start (side_count 0 looms.now) (side_count 1 looms.now) sets.a sets.b }
{
    let shared = sets::common(sets.a, sets.b);
    if shared != 0 {
        Err(Code::SharedState.at(sets::lowest(shared)))
    } else if comes_back(start, sets.a, side_count(Side::B, looms)) {
        Err(Code::ReturnsToA.at(start))
    } else if comes_back(start, sets.b, side_count(Side::A, looms)) {
        Err(Code::ReturnsToB.at(start))
    } else {
        Ok(())
    }
}

// Whether the start is in a side's set, and the other side has not one loom.
fn comes_back(start: usize, set: u64, others: usize) -> bool
    ensures { result ≡ comes_back start set others }
{
    sets::has(set, start) && others != 1
}
