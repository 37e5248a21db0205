// The links of /yard whose own record would be permitted, as a set and its size.
// Each link goes through the checks as if its own record had come; it passes 1 to 7 because the record that asks did.
#![tactic(auto)]

ghost use Rattle.std.specs.Prelude.{◌≡◌, cond, ◌≤◌};
ghost use Rattle.rules.specs.Directory.{links};
ghost use Rattle.rules.specs.Links.{set_of, asks_links};
ghost use Rattle.rules.specs.Promises.Words.{seen};
ghost use Rattle.permission_row.specs.ByLink.{of_link};
ghost use Rattle.decision_links.specs.Linked.{link_header, link_passes, link_permitted, permitted_links};

use caller::{connection_of, row_of};
use check_request::check_request;
use check_state::check_states;
use directory::resource_row;
use permission::effective_links;
use permission_row::LINKS;
use rules::{Action, Caller, Check, Head, Header, Links, Resource, TablesView, Verb};

// The header with another resource.
fn link_header(header: Header, n: u16) -> Header
    ensures { result ≡ link_header header n }
{
    let who = header.sender;
    Header {
        verb: header.verb,
        connection: header.connection,
        resource: resource_row(n),
        zeros: header.zeros,
        credential: header.credential,
        sender: who,
    }
}

// The bit of link n in the set, where its own record passes with this permission.
// It asks to be served, with no body and no reply, so no check after 12 applies.
fn link_bit(h: Head, header: Header, permission: u8, n: u8, bit: u64) -> u64
    ensures { (result ≡ cond (link_passes h header permission n) bit 0) × (result ≤ bit) }
{
    let c = check_request(permission, link_header(header, n as u16), Action::Serve);
    let Check::Pass = c else {
        return 0;
    };
    let c = check_states(h, Action::Serve);
    let Check::Pass = c else {
        return 0;
    };
    bit
}

// The bit of link 8 in a set whose top bit is resource 0.
const FIRST: u64 = 0x0080_0000_0000_0000;

// The sum of the links' bits, with the permission on each link: from link to link the bit halves.
fn bits_sum(h: Head, header: Header, permissions: [u8; LINKS]) -> u64
    ensures { result ≡ set_of (λ n. link_passes h header (of_link permissions n) n) links }
{
    let mut set: u64 = 0;
    let mut bit: u64 = FIRST;
    let mut n: u8 = 8;
    while n < 15 {
        let at = (n - 8) as usize;
        set += link_bit(h, header, permissions[at], n, bit);
        bit /= 2;
        n += 1;
    }
    set
}

// The links' permissions are found in one walk over the access rows.
fn link_set(clock: u32, tables: TablesView<'_>, caller: Caller) -> u64
    ensures { result ≡ set_of (link_permitted clock (seen tables.entry) caller) links }
{
    let TablesView { head, creds, aces } = tables;
    let header = caller.header;
    let found = caller.row;
    let who = header.sender;
    let cred = row_of(head.ncreds, creds, found);
    let permissions = effective_links(clock, head, aces, cred, connection_of(who));
    bits_sum(head, header, permissions)
}

// RETRIEVE or UPDATE of /yard.
fn asks_links(h: Header) -> bool
    ensures { result ≡ asks_links h }
{
    let verb = h.verb;
    let e = h.resource;
    match verb {
        Verb::RETRIEVE => e.number == Resource::YARD,
        Verb::UPDATE => e.number == Resource::YARD,
        _ => false,
    }
}

// The links of /yard in the response to a permitted record of this caller.
// Rules out: a link without an endpoint for the connection; a link out of its season; the links for OBSERVE.
pub fn links_of(clock: u32, tables: TablesView<'_>, caller: Caller) -> Links
    ensures { result ≡ permitted_links clock (seen tables.entry) caller }
{
    let header = caller.header;
    if !asks_links(header) {
        return Links::none();
    }
    let set = link_set(clock, tables, caller);
    Links {
        set: set,
        size: u64::count_ones(set),
    }
}
