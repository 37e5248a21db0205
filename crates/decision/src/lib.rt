// The decision on a record with sound tables: the checks after 1 in their order and, where none applies, what is permitted.
// The caller is found once, for all checks and for the permission. Check 1 is in check_waiting: it covers the queue too.
#![tactic(auto)]

ghost use Rattle.std.specs.Prelude.{◌≡◌};
ghost use Rattle.rules.specs.Record.{received};
ghost use Rattle.rules.specs.Promises.Decision.{nothing_permitted, decided_by, decided};
ghost use Rattle.rules.specs.Promises.Words.{was, seen};

use action::action_of;
use caller::{caller_of, check_caller, row_of};
use check_request::check_request;
use check_rows::check_rows;
use check_state::check_states;
use fields::record::body_of;
use permission::effective;
use reply::{check_capacity, reply_length};
use rules::{Action, Caller, Check, Decision, TablesView};

// A record that is refused is permitted nothing.
fn turned_away(caller: Caller, c: Check) -> Decision
    ensures { result ≡ nothing_permitted caller c }
{
    Decision {
        check: c,
        caller,
        permission: 0,
        action: Action::Malformed,
        reply: 0,
    }
}

// The decision on a record that passes 2 to 7, by its caller and its body, where the reply buffer has this capacity.
// Rules out: the body judged before the permission; another clock for the rows; a reply that does not fit permitted.
pub fn decide_request(
    clock: u32,
    tables: TablesView<'_>,
    caller: Caller,
    b: &[u8],
    capacity: usize,
) -> Decision
    ensures { result ≡ decided_by clock (seen tables.entry) caller (was b) capacity }
{
    let TablesView { head, creds, aces } = tables;
    let header = caller.header;
    let cred = row_of(head.ncreds, creds, caller.row);
    let permission = effective(clock, head, aces, cred, header);
    let a = action_of(header, b);
    let c = check_request(permission, header, a);
    let Check::Pass = c else {
        return turned_away(caller, c);
    };
    let c = check_states(head, a);
    let Check::Pass = c else {
        return turned_away(caller, c);
    };
    let c = check_rows(clock, head, creds, aces, cred, a, b);
    let Check::Pass = c else {
        return turned_away(caller, c);
    };
    let length = reply_length(clock, tables, caller);
    let c = check_capacity(capacity, length);
    let Check::Pass = c else {
        return turned_away(caller, c);
    };
    Decision {
        check: c,
        caller,
        permission,
        action: a,
        reply: length,
    }
}

// The decision on a record.
// Rules out: a decision that refuses every record with 8; the sender looked up before the header; a refusal with a permission.
pub fn decide(clock: u32, tables: TablesView<'_>, rec: &[u8], capacity: usize) -> Decision
    ensures { result ≡ decided (seen tables.entry) (received clock (was rec) capacity) }
{
    let TablesView { head, creds, .. } = tables;
    let caller = caller_of(head.ncreds, creds, rec);
    let c = check_caller(rec.len(), caller);
    let Check::Pass = c else {
        return turned_away(caller, c);
    };
    decide_request(clock, tables, caller, body_of(rec), capacity)
}
