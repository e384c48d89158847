// A number kept in its decimal digits and counted up in them, since a division for each digit of each number costs more.
#![tactic(auto)]

ghost use Rattle.std.specs.Prelude.{◌≡◌, ◌+◌, ◌<◌, length};
ghost use Rattle.counter.specs.Counting.{counter_of, carried, grown, increased, size_after, CountsUp};

// A buffer that begins with a number's digits, with zeros behind them, and how many digits there are. None of 64 bits, or the next, has
// more than 20.
#[derive(Clone, Copy)]
pub struct Counter {
    pub digits: [u8; 21],
    pub size: usize,
}

// Adds 1 to the last of so many digits, and carries. Where all were nines, the zeros are one more with a 1 for the first of them.
fn carry(digits: &mut [u8], size: usize) -> usize
    requires { size < length digits.old }
    ensures value { result ≡ size + grown size digits.old }
    ensures digits_after { digits.new ≡ carried size digits.old }
{
    // Kept: an index; over `iter_mut().rev()` an invariant has no name for what is written.
    for i in (0..size).rev() {
        if digits[i] < b'9' {
            digits[i] += 1;
            return size;
        }
        digits[i] = b'0';
    }
    digits[0] = b'1';
    size + 1
}

// Turns the digits of a number, that many, into those of the next; answers how many those are. Nothing is written where the buffer has no
// room for one digit more.
// Kept: no method of `Counter`, which has 21 bytes: `counts_up` says it of digits in any buffer and any size (docs/DECISIONS.md).
// Kept: the size that was given where there is no room, no Option: it can't fail, and `size_after` of its clauses says so.
pub fn increase(digits: &mut [u8], size: usize) -> usize
    ensures value { result ≡ size_after size digits.old }
    ensures digits_after { digits.new ≡ increased size digits.old }
    ensures counts_up { CountsUp size digits.old result digits.new }
{
    if digits.len() <= size {
        return size;
    }
    carry(digits, size)
}

// The digits of the number after that one.
pub fn after(n: u64) -> Counter
    ensures { result ≡ counter_of (n + 1) }
{
    let mut digits = [b'0'; 21];
    let k = digits::put_decimal(n, &mut digits, 0);
    let size = increase(&mut digits, k);
    Counter { digits, size }
}
