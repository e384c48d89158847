// A table of cases one after the other: each has a head of fixed length, whose fourth byte is the length of what follows it.
ghost use Rattle.std.specs.Prelude.{◌≡◌};
ghost use Rattle.std.specs.Iterator.{YieldsFirstBy, item_count};
ghost use Rattle.testing.specs.Table.{case_at, cases};

use crate::slice;

// The case at a position of a table, if it is there whole: where its head ends, and where the case does.
pub fn case_at(table: &[u8], at: usize, head: usize) -> Option<(usize, usize)>
    ensures { result ≡ case_at table.now at head }
{
    if head < 4 || table.len() < head || table.len() - head < at {
        return None;
    }
    let start = at + head;
    let size = slice::byte(table, at + 3);
    if table.len() - start < size {
        return None;
    }
    Some((start, start + size))
}

// The cases from a table's start on, as far as they are there whole: of each, its head and what follows that.
#[derive(Clone, Copy)]
pub struct Cases<'a> {
    rest: &'a [u8],
    head: usize,
}

impl<'a> Cases<'a> {
    pub fn of(table: &'a [u8], head: usize) -> Self
        ensures { cases result.rest.now result.head ≡ cases table.now head }
    {
        Cases { rest: table, head }
    }
}

impl<'a> Iterator for Cases<'a> {
    type Item = (&'a [u8], &'a [u8]);

    ghost next_gives = { YieldsFirstBy (λ c. (c.0.now, c.1.now)) (λ s. cases s.rest.now s.head) };

    ghost remaining = { item_count (λ s. cases s.rest.now s.head) };

    fn next(&mut self) -> Option<(&'a [u8], &'a [u8])> {
        let (start, end) = case_at(self.rest, 0, self.head)?;
        let (case, rest) = self.rest.split_at(end);
        self.rest = rest;
        Some(case.split_at(start))
    }
}
