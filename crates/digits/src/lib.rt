// Numbers as text, in ASCII.
#![tactic(auto)]

ghost use Rattle.std.specs.Prelude.{◌≡◌, ◌+◌, ◌≤◌, ◌<◌, length};
ghost use Rattle.rules.specs.Bytes.{overwritten};
ghost use Rattle.rules.specs.Text.{decimal, digit as digit_of, hex_pair};
ghost use Rattle.digits.specs.Room.{decimal_at};

// What is asked for before a number is written: none of 64 bits has more digits.
const MOST: usize = 20;

// How many decimal digits a number has.
fn places(n: u64) -> usize
    ensures value { result ≡ length (decimal n) }
    ensures upper_bound { result ≤ 20 }
{
    // Kept: a `while`, since today's numbers have no `ilog10`, and no other method that counts digits.
    let mut k = 1;
    let mut rest = n / 10;
    while 0 < rest {
        rest /= 10;
        k += 1;
    }
    k
}

// Fills a slice with the digits of a number that has as many, the last digit first.
fn spell(n: u64, digits: &mut [u8])
    requires { length digits.old ≡ length (decimal n) }
    ensures { digits.new ≡ decimal n }
{
    let mut rest = n;
    // Kept: an index; over `iter_mut().rev()` an invariant has no name for what is written.
    for i in (0..digits.len()).rev() {
        digits[i] = b'0' + (rest % 10) as u8;
        rest /= 10;
    }
}

// Writes a number in decimal digits from a position on; answers the position after it. Nothing is written where the buffer has no room for
// the longest number.
// Kept: the position that was given where there is no room, no Option: it can't fail, and `decimal_at` of its clauses says so.
// Kept: digits by hand: `format!` wants a heap, which the project does without, and `write!` tests the room at each piece (docs/PERFORMANCE.md has what one test costs).
pub fn put_decimal(n: u64, out: &mut [u8], at: usize) -> usize
    ensures value { (result ≡ at + length (decimal_at n at (length out.old))) × (result ≤ at + 20) }
    ensures out_after { out.new ≡ overwritten out.old at (decimal_at n at (length out.old)) }
{
    if out.len() < MOST || out.len() - MOST < at {
        return at;
    }
    let end = at + places(n);
    spell(n, &mut out[at..end]);
    end
}

// A hex digit, in lower case.
fn hex_digit(d: u8) -> u8
    requires { d < 16 }
    ensures { result ≡ digit_of d }
{
    match d {
        0..=9 => b'0' + d,
        _ => b'a' + (d - 10),
    }
}

// A byte in two hex digits. Most masks are 0.
pub fn hex_pair(n: u8) -> [u8; 2]
    ensures { result ≡ hex_pair n }
{
    if n == 0 {
        return [b'0', b'0'];
    }
    [hex_digit(n / 16), hex_digit(n % 16)]
}
