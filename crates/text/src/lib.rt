// A number in decimal, and the lines of the listing (`lines`), put into a lent buffer at a place.
#![tactic(auto)]

pub mod lines;

ghost use Rattle.std.specs.Prelude.{◌+◌, ◌*◌, ◌≤◌, length};
ghost use Rattle.text.specs.Decimal.{number, spaced, Puts};

// The most bytes that a number takes, with the byte that ends it.
pub const NUMBER_ROOM: usize = 21;

// Puts text, and answers the place after it.
#[tactic(auto, using(crate::proofs::Puts::part_puts))]
pub(crate) fn put(output: &mut [u8], at: usize, text: &[u8]) -> usize
    requires { at + length text.now ≤ length output.old }
    ensures { Puts output.old at text.now result output.new }
{
    let next = at + text.len();
    output[at..next].copy_from_slice(text);
    next
}

// Puts a number and the byte that ends it. Not by `write!`, whose contract has the bytes that are
// written where it answers Ok, and not when it does.
pub(crate) fn put_number(output: &mut [u8], at: usize, n: u64, end: u8) -> usize
    requires { at + NUMBER_ROOM ≤ length output.old }
    ensures { Puts output.old at (number n end) result output.new }
{
    let mut buffer = itoa::Buffer::new();
    let last = put(output, at, buffer.format(n).as_bytes());
    output[last] = end;
    last + 1
}

// Puts each number and a space after it.
pub(crate) fn put_spaced(output: &mut [u8], at: usize, numbers: &[u64]) -> usize
    requires { at + NUMBER_ROOM * length numbers.now ≤ length output.old }
    ensures puts { Puts output.old at (spaced numbers.now) result output.new }
    ensures within { result ≤ at + NUMBER_ROOM * length numbers.now }
{
    let mut next = at;
    for &n in numbers {
        next = put_number(output, next, n, b' ');
    }
    next
}
