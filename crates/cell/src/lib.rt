// The limits of document 01, and a cell's table: its form and its one lookup.
#![tactic(auto)]

mod catalogue_cell;

ghost use Rattle.std.specs.Prelude.{◌≡◌};
ghost use Rattle.cell.specs.Table.{form_of, next_of, first_outside, outside_of};
ghost use Rattle.cell.specs.LentTable.{lent_table};

pub use catalogue_cell::catalogue;
use codes::{Code, Refusal};

// At most so many states; states count from 0.
pub const STATES: usize = 64;

// At most so many operations.
pub const OPERATIONS: usize = 16;

// At most so many looms in a group.
pub const LOOMS: usize = 8;

// At most so many bytes in a label.
pub const LABEL: usize = 32;

// At most so many entries in a schedule.
pub const ENTRIES: usize = 4096;

// From this entry of a schedule on, an entry is a restart of a loom.
pub const RESTART: usize = 16;

// The entry that is a restart of all.
pub const ALL: usize = 32;

// A cell's table as it is lent: its entries, operation by operation, and how many states and operations it is said to have. No table is
// trusted.
#[derive(Clone, Copy, Debug, PartialEq, Eq)]
pub struct Table<'a> {
    pub entries: &'a [u8],
    pub states: usize,
    pub operations: usize,
}

impl<'a> Table<'a> {
    // A table of these entries, said to have so many states and operations.
    pub fn new(entries: &'a [u8], states: usize, operations: usize) -> Self
        ensures { result ≡ lent_table entries.entry states operations }
    {
        Table {
            entries,
            states,
            operations,
        }
    }

    // Whether the table has form: refused with 2 and 3 for states and operations not within limits, 4 for a length that isn't their
    // product, 5 with the lowest entry that isn't below the states.
    pub fn form(self) -> Result<(), Refusal>
        ensures { result ≡ form_of self.entry.entries.now self.entry.states self.entry.operations }
    {
        if outside(STATES, self.states) {
            return Err(Code::States.at(0));
        }
        if outside(OPERATIONS, self.operations) {
            return Err(Code::Operations.at(0));
        }
        if self.entries.len() != self.states * self.operations {
            return Err(Code::TableLength.at(0));
        }
        match first_outside(self.entries, self.states) {
            Some(place) => Err(Code::Entry.at(place)),
            None => Ok(()),
        }
    }

    // The state after one operation, if the table has it. It doesn't ask how many operations there are said to be.
    pub fn next(self, operation: usize, state: usize) -> Option<u8>
        ensures { result ≡ next_of self.entry.entries.now self.entry.states operation state }
    {
        if STATES < self.states || OPERATIONS <= operation || self.states <= state {
            return None;
        }
        let to = *self.entries.get(operation * self.states + state)?;
        (usize::from(to) < self.states).then_some(to)
    }
}

// Whether a number is not from 1 to a limit.
fn outside(limit: usize, n: usize) -> bool
    ensures { result ≡ outside_of 1 limit n }
{
    n < 1 || limit < n
}

// The place of the first entry that isn't below the states.
fn first_outside(table: &[u8], states: usize) -> Option<usize>
    ensures { result ≡ first_outside states table.now }
{
    table.iter().position(|&entry| states <= usize::from(entry))
}
