// Bytes of a slice, as far as they are there.
ghost use Rattle.std.specs.Prelude.{◌≡◌, ◌-◌, get_or, take, drop};

// The byte at a position, 0 where there is none.
pub fn byte(s: &[u8], at: usize) -> usize
    ensures { result ≡ get_or s.now at 0 }
{
    usize::from(word_reader::byte_at(s, at))
}

// The bytes from one position up to another.
pub fn part(s: &[u8], from: usize, to: usize) -> &[u8]
    ensures { result.now ≡ take (to - from) (drop from s.now) }
{
    s.get(from..to.min(s.len())).unwrap_or(&[])
}
