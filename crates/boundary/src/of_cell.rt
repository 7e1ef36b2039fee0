// The floor `cell`.
ghost use Rattle.std.specs.Prelude.{◌≡◌};
ghost use Rattle.cell.specs.Table.{form_of, next_of};
ghost use Rattle.boundary.specs.Numbers.{moved_number, refusal_number, refusal_place, Catalogues};

use crate::numbers;
use cell::Table;

// `cell::catalogue`.
#[unsafe(no_mangle)]
pub extern "C" fn linuktabay_catalogue(n: usize, room: &mut [u8]) -> u8
    ensures { Catalogues n room.old result room.new }
{
    numbers::code_number(cell::catalogue(n, room))
}

// The code of a table's form.
#[unsafe(no_mangle)]
pub extern "C" fn linuktabay_form_code(table: &[u8], states: usize, operations: usize) -> u8
    ensures { result ≡ refusal_number (form_of table.now states operations) }
{
    let table = Table::new(table, states, operations);
    numbers::refusal_number(table.form())
}

// The place of a table's form: for C, a call of its own.
#[unsafe(no_mangle)]
pub extern "C" fn linuktabay_form_place(table: &[u8], states: usize, operations: usize) -> usize
    ensures { result ≡ refusal_place (form_of table.now states operations) }
{
    let table = Table::new(table, states, operations);
    numbers::refusal_place(table.form())
}

// A table's lookup: 0 where there is no such entry, else one more than the next state.
#[unsafe(no_mangle)]
pub extern "C" fn linuktabay_next(
    table: &[u8],
    states: usize,
    operation: usize,
    state: usize,
) -> usize
    ensures { result ≡ moved_number (next_of table.now states operation state) }
{
    // the lookup doesn't ask how many operations there are
    let table = Table::new(table, states, 0);
    numbers::moved_number(table.next(operation, state))
}
