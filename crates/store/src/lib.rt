// The next write of an image to a store that a power cut cannot break. The caller passes the store's bytes as read back and the image,
// writes the byte that it gets, and asks again. A whole run looks at each byte of the images a few times.
#![tactic(auto)]

ghost use Rattle.std.specs.Prelude.{◌≡◌, ◌%◌, ◌<◌, length, if◌then◌else◌, ◌==◌, nat_eq};
ghost use Rattle.std.specs.Option.{SomeIff};
ghost use Rattle.rows.specs.Words.{was};
ghost use Rattle.rules_store.specs.Store.{size_for, sum, counter, current_at, mismatch_from, to_copy, write, settled, next};

use rows::{part, same_bytes};
use rules_store::Step;

const MARKS: usize = 8;

// What to do next to store the image `new`; `from` is 0 at the start, and then the address after the last write.
// Rules out: a mark before the last byte that differs; a byte of the current image; a byte that is there already; Done while another image
// is current; a write to a store of another length.
#[tactic(auto, unfolding(rules_store::specs::Store::next, rules_store::specs::Store::fits))]
pub fn next(store: &[u8], new: &[u8], from: usize) -> Step
    ensures { result ≡ next (was store) (was new) from }
{
    if !fits(store.len(), new.len()) {
        return Step::Unfit;
    }
    if settled(store, new, from) {
        return Step::Done;
    }
    write(store, new, from)
}

// Where the current image starts, in a store for images of n bytes.
// Rules out: the spare image; the image that was current before the last mark.
#[tactic(auto, unfolding(rules_store::specs::Store::current_at, rules_store::specs::Store::even_counter))]
pub fn current_at(store: &[u8], n: usize) -> usize
    ensures { result ≡ current_at n (was store) }
{
    by_parity(counter(store, n), 0, n)
}

// One address for an even counter, the other one for an odd counter.
fn by_parity(counter: u8, even: usize, odd: usize) -> usize
    ensures { result ≡ (if nat_eq (counter % 2) 0 then even else odd) }
{
    if counter % 2 == 0 { even } else { odd }
}

// The sum of the marks, modulo 256.
fn counter(store: &[u8], n: usize) -> u8
    ensures { result ≡ counter n (was store) }
{
    let Some(marks) = store.get(n.saturating_mul(2)..) else {
        return 0;
    };
    sum(marks)
}

// The sum of bytes, modulo 256.
fn sum(bytes: &[u8]) -> u8
    ensures { result ≡ sum (was bytes) % 256 }
{
    let mut total: u8 = 0;
    for i in 0..bytes.len() {
        total = total.wrapping_add(bytes[i]);
    }
    total
}

// Whether a store of this length is one for images of n bytes.
// Rules out: a store that is too long; one whose length is right except for an overflow.
pub fn fits(length: usize, n: usize) -> bool
    ensures { result ≡ (length == size_for n) }
{
    length / 2 >= n && length - (n + n) == MARKS
}

// Whether the new image is the current one, where that is asked.
// The store, the image and the position stay three parameters: a struct of them would be made in `next` for two functions alone.
fn settled(store: &[u8], new: &[u8], from: usize) -> bool
    requires { length store.now ≡ size_for (length new.now) }
    ensures { result ≡ settled (was store) (was new) from }
{
    let n = new.len();
    (from == 0 || n + n < from) && same_bytes(part(store, current_at(store, n), n), new)
}

// The next write, where the new image is not the current one.
fn write(store: &[u8], new: &[u8], from: usize) -> Step
    requires { length store.now ≡ size_for (length new.now) }
    ensures { result ≡ write (was store) (was new) from }
{
    let n = new.len();
    let count = counter(store, n);
    let spare = by_parity(count, n, 0);
    if let Some(offset) = to_copy(from.saturating_sub(spare), part(store, spare, n), new) {
        return Step::Write {
            at: spare + offset,
            byte: new[offset],
        };
    }
    let at = n + n + usize::from(count % 8);
    Step::Write {
        at,
        byte: store[at].wrapping_add(1),
    }
}

// The offset of the byte to copy: the first from `from` on at which the images differ, else the first of all.
#[tactic(auto, unfolding(rules_store::specs::Store::to_copy))]
fn to_copy(from: usize, old: &[u8], new: &[u8]) -> Option<usize>
    requires { length old.now ≡ length new.now }
    ensures { SomeIff result (to_copy from (was old) (was new) < length (was new)) (to_copy from (was old) (was new)) }
{
    mismatch_from(from, old, new).or_else(|| mismatch_from(0, old, new))
}

// The first offset from `from` on at which the images differ.
fn mismatch_from(from: usize, old: &[u8], new: &[u8]) -> Option<usize>
    requires { length old.now ≡ length new.now }
    ensures { SomeIff result (mismatch_from from (was old) (was new) < length (was new)) (mismatch_from from (was old) (was new)) }
{
    (from..new.len()).find(|i| old[*i] != new[*i])
}
