// The library's answers as numbers, for C.
ghost use Rattle.std.specs.Prelude.{◌≡◌};
ghost use Rattle.boundary.specs.Numbers.{moved_number, code_number, refusal_number, refusal_place};

use codes::{Code, Refusal};

// The number of a refusal, 0 where nothing is refused.
pub fn code_number<T: Copy>(answer: Result<T, Code>) -> u8
    ensures { result ≡ code_number answer }
{
    match answer {
        Ok(_) => 0,
        Err(code) => code.into(),
    }
}

// The same of a refusal with a place.
pub fn refusal_number<T: Copy>(answer: Result<T, Refusal>) -> u8
    ensures { result ≡ refusal_number answer }
{
    code_number(answer.map_err(|refusal| refusal.code))
}

// Its place, 0 where nothing is refused.
pub fn refusal_place<T: Copy>(answer: Result<T, Refusal>) -> usize
    ensures { result ≡ refusal_place answer }
{
    match answer {
        Ok(_) => 0,
        Err(refusal) => refusal.place,
    }
}

// One more than the state that a lookup leads to, 0 where there is none.
pub fn moved_number(moved: Option<u8>) -> usize
    ensures { result ≡ moved_number moved }
{
    match moved {
        Some(state) => usize::from(state) + 1,
        None => 0,
    }
}
