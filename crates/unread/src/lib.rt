// The part of a buffer that has not been read yet.
#![tactic(auto)]

ghost use Rattle.std.specs.Prelude.{◌≡◌, ◌-◌, ◌≤◌, length};
ghost use Rattle.unread.specs.Tail.{tail_length, tail_moved};

// Moves what stands from `from` up to `to` to the front, and answers how long it is; what stands behind it is as it was. Nothing is moved
// where the buffer ends before `to`, or `to` stands before `from`.
// Kept: 0 where nothing is moved, no Option: it can't fail, and `tail_length` of its clauses says so.
pub fn to_front(buffer: &mut [u8], from: usize, to: usize) -> usize
    ensures value { result ≡ tail_length from to (length buffer.old) }
    ensures buffer_after { buffer.new ≡ tail_moved from to buffer.old }
    ensures upper_bound { result ≤ length buffer.old }
{
    if buffer.len() < to || to < from {
        return 0;
    }
    buffer.copy_within(from..to, 0);
    to - from
}
