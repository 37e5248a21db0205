// The asserted roles of a credential row: which are in force, whether there is a slot for another, and the row with it.
// A row of no bytes has none; every function but the last is total.
#![tactic(auto)]

ghost use Rattle.std.specs.Prelude.{◌≡◌, true, false, not, ◌&&◌, map, length};
ghost use Rattle.rows.specs.Words.{was};
ghost use Rattle.text.specs.Buffer.{Puts};
ghost use Rattle.rows.specs.Rows.{joined};
ghost use Rattle.rules.specs.Roles.{no_role, free, same_role, roles_of, roles_in_force, cred_sound, with_role, both_taken, asserted};

use fields::asserted::{last, no_role, same_role};
use fields::cred;
use rules::CRED_ROW;
use text::put;

// True if the slot has a role in force: up to and including its last second.
// Rules out: a role without its last second; a role one second longer; a slot that is not used.
pub fn in_force(clock: u32, slot: &[u8]) -> bool
    ensures { result ≡ not (free clock (was slot)) }
{
    !(no_role(slot) | (last(slot) < clock))
}

// True if the slot has another role, in force.
fn holds_other(clock: u32, new: &[u8], slot: &[u8]) -> bool
    ensures { result ≡ (not (free clock (was slot)) && not (same_role (was new) (was slot))) }
{
    in_force(clock, slot) & !same_role(new, slot)
}

// The row's slots, in order of arrival.
fn slots(row: &[u8]) -> [&[u8]; 2]
    ensures { map (λ slot. slot.now) result ≡ roles_of (was row) }
{
    [cred::role_slot(row, 0), cred::role_slot(row, 1)]
}

// True if both slots of the row have other roles in force.
// Rules out: an expired role that counts; an equal role that counts.
pub fn both_taken(clock: u32, new: &[u8], row: &[u8]) -> bool
    ensures { result ≡ both_taken (was new) (roles_in_force clock (was row)) }
{
    for slot in slots(row) {
        if !holds_other(clock, new, slot) {
            return false;
        }
    }
    true
}

// Writes the row's roles in force, in order of arrival.
// Rules out: an expired role; the second slot first.
pub fn put_roles(out: &mut [u8], at: usize, clock: u32, row: &[u8]) -> usize
    ensures { Puts out.old at (joined (roles_in_force clock (was row))) out.new result }
{
    let mut p = at;
    for slot in slots(row) {
        if in_force(clock, slot) {
            p = put(out, p, slot);
        }
    }
    p
}

// Writes the row's roles in force with the new one: it replaces its equal, or comes last.
fn put_with(out: &mut [u8], at: usize, clock: u32, new: &[u8], row: &[u8]) -> usize
    ensures { Puts out.old at (joined (with_role (was new) (roles_in_force clock (was row)))) out.new result }
{
    let mut p = at;
    let mut replaced = false;
    for slot in slots(row) {
        if !in_force(clock, slot) {
            continue;
        }
        if !replaced & same_role(new, slot) {
            p = put(out, p, new);
            replaced = true;
        } else {
            p = put(out, p, slot);
        }
    }
    if replaced { p } else { put(out, p, new) }
}

// The credential row after the role is asserted.
// Rules out: expired roles kept; an equal role at the end; a byte of the body changed.
pub fn asserted_row(clock: u32, new: &[u8], row: &[u8]) -> [u8; CRED_ROW]
    requires { (cred_sound row.now ≡ true)
        × (length new.now ≡ 8)
        × (no_role new.now ≡ false)
        × (both_taken new.now (roles_in_force clock row.now) ≡ false) }
    ensures { result ≡ asserted clock (was new) (was row) }
{
    let mut next = [0u8; CRED_ROW];
    let p = put(&mut next, 0, cred::body(row));
    put_with(&mut next, p, clock, new, row);
    next
}
