// The crate `reader`: what a reader says at a position of a file.
ghost use Rattle.std.specs.Prelude.{◌≡◌};
ghost use Rattle.reader.specs.Reader.{read_of};
ghost use Rattle.boundary.specs.Readings.{field_value, with_reading};

use crate::numbers::refusal_number;
use codes::Refusal;
use reader::Reading;

// What a field's answer says: its value, or the place of its refusal.
fn field_value(field: Result<usize, Refusal>) -> usize
    ensures { result ≡ field_value field }
{
    match field {
        Ok(value) => value,
        Err(refusal) => refusal.place,
    }
}

// The numbers with a reading's written: the word's code and value, the part's end's, the place past it and what is left there.
fn with_reading(n: [usize; 6], reading: Reading) -> [usize; 6]
    ensures { result ≡ with_reading n reading }
{
    let mut out = n;
    out[0] = refusal_number(reading.word).into();
    out[1] = field_value(reading.word);
    out[2] = refusal_number(reading.end).into();
    out[3] = field_value(reading.end);
    out[4] = reading.next;
    out[5] = reading.left;
    out
}

// `reader::read`: the word at a position, and the part of `count` bytes there.
#[unsafe(no_mangle)]
pub extern "C" fn linuktabay_reading(file: &[u8], at: usize, count: usize, out: &mut [usize; 6])
    ensures { out.new ≡ with_reading out.old (read_of file.now count at) }
{
    *out = with_reading(*out, reader::read(file, at, count));
}
