// The office text of an access row's resources, put into a caller's buffer at a position.
// Every public function is total: a byte past the buffer's end is not written, and the position goes on.
#![tactic(auto)]

ghost use Rattle.std.specs.Prelude.{◌≡◌, cond, [], ◌++◌, map, length, drop};
ghost use Rattle.rows.specs.Words.{was};
ghost use Rattle.text.specs.Text.{ascii};
ghost use Rattle.text.specs.Buffer.{Puts};
ghost use Rattle.rules.specs.Lookup.{lookup};
ghost use Rattle.rules_office.specs.Office.{comma, separated, names, href, choices, chosen, picked, braced, resources_text};

use fields::ace;
use rules::Resource;
use text::put;

// A comma, but not before the first.
// Rules out: a comma before the first; none before the second.
pub fn put_comma(out: &mut [u8], at: usize, first: bool) -> usize
    ensures { Puts out.old at (comma first) out.new result }
{
    if first { at } else { put(out, at, b",") }
}

// The name of resource n; a number that is not known has none.
fn name_of(n: u16) -> &'static [u8]
    ensures { result.now ≡ ascii (lookup n names "") }
{
    match n {
        Resource::DOXM => b"/oic/sec/doxm",
        Resource::PSTAT => b"/oic/sec/pstat",
        Resource::CRED => b"/oic/sec/cred",
        Resource::ACL2 => b"/oic/sec/acl2",
        Resource::ROLES => b"/oic/sec/roles",
        Resource::WEIGHT => b"/weight",
        Resource::TARE => b"/tare",
        Resource::ZERO => b"/zero",
        Resource::TICKET => b"/ticket",
        Resource::LAMP => b"/lamp",
        Resource::CALIB => b"/calib",
        Resource::DISPLAY => b"/display",
        Resource::YARD => b"/yard",
        _ => b"",
    }
}

// What a row names: its key and its value.
fn put_choice(out: &mut [u8], at: usize, first: bool, key: &[u8], value: &[u8]) -> usize
    ensures { Puts out.old at (comma first ++ (was key ++ (was value ++ ascii "\"}"))) out.new result }
{
    let p = put_comma(out, at, first);
    let p = put(out, p, key);
    let p = put(out, p, value);
    put(out, p, b"\"}")
}

// The wildcards: what may be named after the known resources.
fn put_wildcards(out: &mut [u8], at: usize, first: bool, row: &[u8]) -> usize
    ensures { Puts out.old at
        (separated first (map braced (picked (drop (length names) (chosen (was row))) (drop (length names) choices)))) out.new result }
{
    let key = b"{\"wc\":\"";
    let mut p = at;
    let mut first = first;
    if ace::plus(row) {
        p = put_choice(out, p, first, key, b"+");
        first = false;
    }
    if ace::minus(row) {
        p = put_choice(out, p, first, key, b"-");
        first = false;
    }
    if ace::star(row) {
        p = put_choice(out, p, first, key, b"*");
    }
    p
}

// The numbers of the known resources. In one table with their names the loop's proof did not close.
const NUMBERS: [u16; 13] = [0, 1, 2, 3, 4, 8, 9, 10, 11, 12, 13, 14, 16];

// The resources of a row: those that it names, with a comma between them, and then its wildcards.
// Rules out: the wildcards before the resources; a resource that is not in the set.
pub fn put_resources(out: &mut [u8], at: usize, row: &[u8]) -> usize
    ensures { Puts out.old at (resources_text (was row)) out.new result }
{
    let mut p = at;
    let mut first = true;
    for n in NUMBERS {
        if ace::in_set(row, n) {
            p = put_choice(out, p, first, b"{\"href\":\"", name_of(n));
            first = false;
        }
    }
    put_wildcards(out, p, first, row)
}
