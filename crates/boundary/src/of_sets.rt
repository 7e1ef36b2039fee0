// The floor `sets`.
ghost use Rattle.std.specs.Prelude.{◌≡◌};
ghost use Rattle.sets.specs.Sets.{has_of, Union, Common, Inserted, size_of, lowest_of, word_bits};

// `sets::has`.
#[unsafe(no_mangle)]
pub extern "C" fn linuktabay_has(set: u64, state: usize) -> bool
    ensures { result ≡ has_of set state }
{
    sets::has(set, state)
}

// `sets::union`.
#[unsafe(no_mangle)]
pub extern "C" fn linuktabay_union(a: u64, b: u64) -> u64
    ensures { Union a b result }
{
    sets::union(a, b)
}

// `sets::common`.
#[unsafe(no_mangle)]
pub extern "C" fn linuktabay_common(a: u64, b: u64) -> u64
    ensures { Common a b result }
{
    sets::common(a, b)
}

// `sets::insert`.
#[unsafe(no_mangle)]
pub extern "C" fn linuktabay_insert(set: u64, state: usize) -> u64
    ensures { Inserted word_bits set state result }
{
    sets::insert(set, state)
}

// `sets::size`.
#[unsafe(no_mangle)]
pub extern "C" fn linuktabay_size(set: u64) -> usize
    ensures { result ≡ size_of word_bits set }
{
    sets::size(set)
}

// `sets::lowest`.
#[unsafe(no_mangle)]
pub extern "C" fn linuktabay_lowest(set: u64) -> usize
    ensures { result ≡ lowest_of word_bits set }
{
    sets::lowest(set)
}
