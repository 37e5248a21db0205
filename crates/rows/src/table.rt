// The rows of a table: so many rows of one length, at the start of a slice. Looked up, walked over, read one by one.
// That all of them are there is a fact of the type, so that no function over rows asks for it again.
ghost use Rattle.std.specs.Prelude.{◌≡◌, ◌*◌, ◌≤◌, length};
ghost use Rattle.std.specs.Iterator.{YieldsFirstBy, at_most};
ghost use Rattle.rows.specs.Words.{was};
ghost use Rattle.rows.specs.Rows.{rows_of, has_key};
ghost use Rattle.rows.specs.Promises.{index_of, row_at};

use crate::has_key;

// `count` rows of `stride` bytes each.
#[derive(Clone, Copy)]
pub struct Rows<'a> {
    bytes: &'a [u8],
    stride: usize,
    count: usize,
    ghost fits: { count * stride ≤ length bytes.now },
}

// The rows that are left of a walk over them, in their order.
#[derive(Drop)]
pub struct RowIter<'a> {
    rows: Rows<'a>,
}

impl<'a> Rows<'a> {
    ghost use Rattle.rows.specs.Listed.{listed, left, RowAt};

    // Rules out: a row fewer; rows that begin after the first byte.
    pub fn new(bytes: &'a [u8], stride: usize, count: usize) -> Rows<'a>
        requires { count * stride ≤ length bytes.now }
        ensures { listed result ≡ rows_of stride count (was bytes) }
    {
        Rows {
            bytes,
            stride,
            count,
        }
    }

    // The row at an index.
    // Rules out: the row after it; a row past those that count.
    pub fn get(self, index: usize) -> Option<&'a [u8]>
        ensures { RowAt (listed self.entry) index result }
    {
        if self.count <= index {
            return None;
        }
        let start = index * self.stride;
        let end = start + self.stride;
        Some(&self.bytes[start..end])
    }

    // The row at an index, or no bytes.
    // Rules out: the row after it; a row past those that count.
    pub fn row_at(self, found: Option<usize>) -> &'a [u8]
        ensures { result.now ≡ row_at found (listed self.entry) }
    {
        let Some(index) = found else {
            return &self.bytes[..0];
        };
        let Some(row) = self.get(index) else {
            return &self.bytes[..0];
        };
        row
    }

    // Each row, from the first.
    // Rules out: the last row left out.
    pub fn iter(self) -> RowIter<'a>
        ensures { left result ≡ listed self.entry }
    {
        RowIter { rows: self }
    }

    // The index of the first row that has the key's bytes from `at` on. Inlined, so that the row's length is known where it is called.
    // Rules out: a later match; a match past the rows that count.
    #[inline(always)]
    pub fn find(self, at: usize, key: &[u8]) -> Option<usize>
        ensures { result ≡ index_of (has_key at (was key)) (listed self.entry) }
    {
        self.iter().position(|row| has_key(row, at, key))
    }
}

impl<'a> Iterator for RowIter<'a> {
    type Item = &'a [u8];

    ghost use Rattle.rows.specs.Listed.{left};

    ghost next_gives = { YieldsFirstBy (λ row. row.now) left };

    ghost remaining = { λ walk. at_most walk.rows.count };

    fn next(&mut self) -> Option<&'a [u8]> {
        let rows = self.rows;
        if rows.count == 0 {
            return None;
        }
        let bytes = rows.bytes;
        self.rows = Rows {
            bytes: &bytes[rows.stride..],
            stride: rows.stride,
            count: rows.count - 1,
        };
        Some(&bytes[..rows.stride])
    }
}
