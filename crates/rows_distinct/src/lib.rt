// The numbers of a flat table's rows: the first row that repeats one, and whether all are distinct.
// Nothing here knows a table's stride or size.
#![tactic(auto)]

ghost use Rattle.std.specs.Prelude.{◌≡◌, false, [], ◌+◌, ◌*◌, ◌≤◌, length, take, drop};
ghost use Rattle.rows.specs.Words.{was};
ghost use Rattle.rows.specs.Rows.{rows_of, some, numbered_as, distinct_numbers, before_repeat};

use rows::{Rows, part};

// Whether a row before row i has its number, where `seen` is false only if none of them has its low byte.
fn again(seen: bool, rows: &[u8], stride: usize, i: usize) -> bool
    requires le_stride { (2 ≤ stride) × (i * stride + stride ≤ length rows.now) }
    requires rows_value { seen ≡ false → some (numbered_as (take stride (drop (i * stride) rows.now))) (rows_of stride i rows.now) ≡ false }
    ensures { result ≡ some (numbered_as (take stride (drop (i * stride) (was rows)))) (rows_of stride i (was rows)) }
{
    if !seen {
        return false;
    }
    let at = i * stride;
    let number = part(rows, at, 2);
    Rows::new(rows, stride, i).find(0, number).is_some()
}

// How many of the `count` rows are before the first that has the number of an earlier one; all, where there is none.
// Only a low byte seen before asks for a search.
// Rules out: only neighbours compared; two numbers that share a low byte taken as one; the last of several that repeat.
pub fn before_repeat(rows: &[u8], stride: usize, count: usize) -> usize
    requires { (2 ≤ stride) × (count * stride ≤ length rows.now) }
    ensures { result ≡ before_repeat [] (rows_of stride count (was rows)) }
{
    let mut seen = [false; 256];
    for i in 0..count {
        let low = rows[i * stride + 1] as usize;
        if again(seen[low], rows, stride, i) {
            return i;
        }
        seen[low] = true;
    }
    count
}

// Whether no two of the `count` rows have the same number.
// Rules out: a number that occurs twice passed over; a table of no rows refused.
pub fn distinct(rows: &[u8], stride: usize, count: usize) -> bool
    requires { (2 ≤ stride) × (count * stride ≤ length rows.now) }
    ensures { result ≡ distinct_numbers (rows_of stride count (was rows)) }
{
    before_repeat(rows, stride, count) == count
}
