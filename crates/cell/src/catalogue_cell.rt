// The catalogue cell of document 01, which follows the type S_n of source document 003.
ghost use Rattle.std.specs.Prelude.{◌≡◌, ◌*◌, ◌<◌, ◌≤◌, ◌++◌, length, drop};
ghost use Rattle.cell.specs.Limits.{edition};
ghost use Rattle.cell.specs.Catalogue.{after_zero, after_one, table_of, Catalogued};
ghost use Rattle.cell.specs.CatalogueLaws.{entry_at};

use codes::Code;

// Fills the room with the table of the catalogue cell of size n, 4n bytes. Later bytes stay. 41 if there is no such cell, 40 if the room is
// too short; a refusal writes nothing.
pub fn catalogue(n: usize, room: &mut [u8]) -> Result<(), Code>
    ensures { Catalogued n room.old result room.new }
{
    if n < 2 || crate::LOOMS < n {
        return Err(Code::NoSuchCell);
    }
    if room.len() < 4 * n {
        return Err(Code::NoRoom);
    }
    Size { n }.fill(room);
    Ok(())
}

// The size of a catalogue cell. With so few looms a state fits in a byte, which is why the casts below stand: a TryFrom would ask again.
#[derive(Clone, Copy)]
struct Size {
    n: usize,
    ghost few: { n ≤ edition.looms },
}

impl Size {
    // Writes the 4n entries of the table, one after the other.
    fn fill(self, room: &mut [u8])
        requires { 4 * self.n ≤ length room.old }
        ensures { room.new ≡ table_of self.n ++ drop (4 * self.n) room.old }
    {
        for i in 0..4 * self.n {
            room[i] = self.entry(i);
        }
    }

    // The entry at a place of the table: operation 0 in the first 2n, operation 1 after them.
    fn entry(self, place: usize) -> u8
        requires { place < 4 * self.n }
        ensures { result ≡ entry_at self.n place }
    {
        if place < 2 * self.n {
            self.after_zero(place)
        } else {
            self.after_one(place - 2 * self.n)
        }
    }

    // Operation 0: from (A, r) to (B, 0), from (B, 0) to (A, 0), from (B, r) above it no move.
    fn after_zero(self, state: usize) -> u8
        requires { state < 2 * self.n }
        ensures { result ≡ after_zero self.n state }
    {
        if state < self.n {
            self.n as u8 // (B, 0)
        } else if state == self.n {
            0
        } else {
            state as u8
        }
    }

    // Operation 1: up by one; the last (A, r) is the state before (B, 0), so only the last (B, r) goes back.
    fn after_one(self, state: usize) -> u8
        requires { state < 2 * self.n }
        ensures { result ≡ after_one self.n state }
    {
        if state + 1 < 2 * self.n {
            (state + 1) as u8
        } else {
            self.n as u8
        }
    }
}
