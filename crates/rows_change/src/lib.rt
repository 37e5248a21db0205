// Changing a table of rows in a flat byte slice: a row put, taken out, stored by its number, removed by a key.
// Nothing here knows a table's stride or size; every byte afterwards is given.
#![tactic(auto)]

ghost use Rattle.std.specs.Prelude.{◌≡◌, Bool, ◌+◌, ◌-◌, ◌*◌, ◌^◌, ◌≤◌, ◌<◌, length, replicate};
ghost use Rattle.std.specs.List.{copy_within};
ghost use Rattle.rows.specs.Words.{was};
ghost use Rattle.rows.specs.Rows.{Row, rows_of, packed, stored, without, with_row, has_key};
ghost use Rattle.rows.specs.Promises.{without_row, IsTable};
ghost use Rattle.rows_change.specs.Tests.{TestsOthers};

use rows::{Rows, copy_bytes, has_key};

// Sets each byte to 0: of a table, removes all rows.
// Rules out: the last byte left; only the first row cleared.
pub fn clear(bytes: &mut [u8])
    ensures { bytes.new ≡ replicate (length bytes.old) 0 }
{
    bytes.fill(0);
}

// Puts `row` over row i.
// Rules out: a byte of the next row written; a row put at the next index.
pub fn put_row(rows: &mut [u8], stride: usize, i: usize, row: &[u8])
    requires { (length row.now ≡ stride) × (i * stride + stride ≤ length rows.old) }
    ensures { rows.new ≡ with_row stride i (was row) rows.old }
{
    let at = i * stride;
    copy_bytes(&mut rows[at..at + stride], row);
}

// Copies pieces of N bytes, a number that the compiler knows, down to `to`: those from `from` on, as many as end by `end`.
// Returns how many bytes they have. A piece is read whole before it is written, since both may have bytes in common.
fn move_pieces<const N: usize>(bytes: &mut [u8], from: usize, end: usize, to: usize) -> usize
    requires { (0 < N) × (N < 2 ^ 63) × (to ≤ from) × (from ≤ end) × (end ≤ length bytes.old) }
    ensures value { (result ≤ end - from) × (end - from < result + N) }
    ensures bytes_value { bytes.new ≡ copy_within bytes.old from (from + result) to }
{
    let mut moved = 0;
    for _ in 0..(end - from) / N {
        let start = from + moved;
        let mut piece = [0; N];
        copy_bytes(&mut piece, &bytes[start..start + N]);
        let start = to + moved;
        copy_bytes(&mut bytes[start..start + N], &piece);
        moved += N;
    }
    moved
}

// Copies the bytes from `from` to `end` down to `to`.
// Not by `copy_within`, for the reason that `rows::copy_bytes` gives.
#[inline(never)]
fn move_down(bytes: &mut [u8], from: usize, end: usize, to: usize)
    requires { (to ≤ from) × (from ≤ end) × (end ≤ length bytes.old) }
    ensures { bytes.new ≡ copy_within bytes.old from end to }
{
    let moved = move_pieces::<64>(bytes, from, end, to);
    let moved = moved + move_pieces::<8>(bytes, from + moved, end, to + moved);
    move_pieces::<1>(bytes, from + moved, end, to + moved);
}

// Takes row i out: each later row moves down by one.
// Rules out: the last row moved into the gap; a byte left after the rows.
pub fn remove_row(rows: &mut [u8], stride: usize, i: usize)
    requires { i * stride + stride ≤ length rows.old }
    ensures { rows.new ≡ without_row stride i rows.old }
{
    let at = i * stride;
    move_down(rows, at + stride, rows.len(), at);
    let kept = rows.len() - stride;
    rows[kept..].fill(0);
}

// Stores `row` instead of the row with its number, else at the end. Returns the new count.
// Rules out: a second row with the same number; a new row at the front.
pub fn store(rows: &mut [u8], stride: usize, count: usize, row: &[u8]) -> usize
    requires table { IsTable stride count rows.old }
    requires row_len { (length row.now ≡ stride) × (length (stored row.now (rows_of stride count rows.old)) * stride ≤ length rows.old) }
    ensures value { result ≡ length (stored (was row) (rows_of stride count rows.old)) }
    ensures rows_value { rows.new ≡ packed (length rows.old) (stored (was row) (rows_of stride count rows.old)) }
{
    let found = Rows::new(rows, stride, count).find(0, &row[..2]);
    match found {
        Some(i) => {
            put_row(rows, stride, i, row);
            count
        }
        None => {
            put_row(rows, stride, count, row);
            count + 1
        }
    }
}

// Keeps the rows that a test lets stay, in their order, and sets the bytes after them to 0. Returns the new count.
// Rows that stay side by side move together.
// Rules out: only the first other row taken out; the last row moved into the gap; a byte left after the rows.
pub fn retain<F: Fn(&[u8]) -> bool>(rows: &mut [u8], stride: usize, count: usize, stays: F) -> usize
    requires table { IsTable stride count rows.old }
    requires callable { (row : _) → length row.now ≡ stride → F.pre stays row }
    ensures { (goes : Row → Bool) → TestsOthers F.Fn stays goes
        → (result ≡ length (without goes (rows_of stride count rows.old)))
        × (rows.new ≡ packed (length rows.old) (without goes (rows_of stride count rows.old))) }
{
    let mut kept = 0;
    let mut from = 0;
    for i in 0..count {
        let start = i * stride;
        let end = start + stride;
        if !stays(&rows[start..end]) {
            move_down(rows, from * stride, start, kept * stride);
            kept += i - from;
            from = i + 1;
        }
    }
    let end = count * stride;
    move_down(rows, from * stride, end, kept * stride);
    kept += count - from;
    let start = kept * stride;
    clear(&mut rows[start..end]);
    kept
}

// Removes each row that has the key's bytes from `at` on. Returns the new count.
// Rules out: only the first match; the last row moved into the gap.
pub fn remove(rows: &mut [u8], stride: usize, count: usize, at: usize, key: &[u8]) -> usize
    requires { IsTable stride count rows.old }
    ensures value { result ≡ length (without (has_key at (was key)) (rows_of stride count rows.old)) }
    ensures rows_value { rows.new
        ≡ packed (length rows.old) (without (has_key at (was key)) (rows_of stride count rows.old)) }
{
    retain(rows, stride, count, |row| !has_key(row, at, key))
}
