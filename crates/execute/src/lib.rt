// What becomes of a decided record with sound tables and a queue: the response, the tables changed in place, and the queue.
// Check 1 is the caller's. Only here is put together what the sender gets.
#![tactic(auto)]

ghost use Rattle.std.specs.Prelude.{◌≡◌, true, length};
ghost use Rattle.rules.specs.declared.Check.TheVariants.{Pass};
ghost use Rattle.rules.specs.Record.{received};
ghost use Rattle.rules.specs.Tables.{sound, tables_of};
ghost use Rattle.rules.specs.Promises.Decision.{decided};
ghost use Rattle.execute.specs.Executed.{Decided, IsWholeQueue, LeavesQueue, payload_by, permitted_by, Executes};
ghost use Rattle.rules.specs.Promises.Supplied.{supplied};
ghost use Rattle.rules.specs.Promises.Words.{was};
ghost use Rattle.rules_terminal.specs.Terminal.{is_reset};

use decision::decide;
use decision_links::links_of;
use effect::apply;
use fields::record::body_of;
use reply::put_reply;
use row_lookup::store_range_of;
use rules::{
    ACE_ROWS, Action, CRED_ROWS, Check, Decision, DefaultLists, Head, Judgement, Links, State,
    StoreRange, TablesView,
};
use rules_terminal::QUEUE;

// The payload of a record that was decided so: for an application resource the caller's own bytes from the fifth to the last, as a part
// of the record. It is the empty part for a security resource, and if the record is refused.
// Rules out: a payload that starts a byte later; the body of a refused record, or of one for a security resource.
#[tactic(auto, unfolding(rules::specs::Record::passed_on))]
pub fn payload(d: Decision, rec: &[u8]) -> &[u8]
    ensures { result.now ≡ payload_by d.check d.caller.header (was rec) }
{
    let Check::Pass = d.check else {
        return &rec[..0];
    };
    if d.caller.header.resource.configuration {
        return &rec[..0];
    }
    body_of(rec)
}

// What the sender of a permitted record gets, with the rows to store, the links and the head of the tables afterwards.
fn permitted(d: Decision, rec: &[u8], store: StoreRange, links: Links, head: Head) -> Judgement
    ensures { result ≡ permitted_by d (was rec) store links head }
{
    Judgement {
        answer: 0,
        permission: d.permission,
        payload: payload(d, rec).len(),
        reply: d.reply,
        store,
        links,
        head,
    }
}

// A permitted record: what its sender gets, and the tables afterwards, their rows in the bytes that were passed in.
// Rules out: an answer that never alters the tables; a reply read from the tables afterwards; a byte written after the reply.
pub fn execute(
    h: Head,
    creds: &mut [u8; CRED_ROWS],
    aces: &mut [u8; ACE_ROWS],
    lists: DefaultLists<'_>,
    clock: u32,
    d: Decision,
    rec: &[u8],
    reply: &mut [u8],
) -> Judgement
    requires { Decided (tables_of h creds.old aces.old) (received clock rec.now (length reply.old)) d }
    ensures { Executes (supplied lists.entry)
        (tables_of h creds.old aces.old)
        (received clock (was rec) (length reply.old))
        reply.old result creds.new aces.new reply.new }
{
    let tables = TablesView {
        head: h,
        creds: &*creds,
        aces: &*aces,
    };
    put_reply(reply, clock, tables, d.caller);
    let store = store_range_of(h, creds, aces, d.action, body_of(rec));
    let links = links_of(clock, tables, d.caller);
    let head = apply(clock, h, creds, aces, d, rec, lists);
    permitted(d, rec, store, links, head)
}

// Whether the action gives the fresh tables.
#[tactic(auto, unfolding(rules_terminal::specs::Terminal::is_reset))]
fn is_reset(a: Action) -> bool
    ensures { result ≡ is_reset a }
{
    matches!(a, Action::SetState(State::RESET))
}

// A permitted record with the queue. One for an application resource has no reply, and leaves the tables and the memory as they are.
// Any other may change the tables: with a credential row its waiting record goes, and RESET leaves nothing waiting.
// Rules out: a record that outlives its credential row; a byte of the memory changed by a read; a RESET that keeps the queue.
pub fn execute_queued(
    h: Head,
    creds: &mut [u8; CRED_ROWS],
    aces: &mut [u8; ACE_ROWS],
    queue: &mut [u8; QUEUE],
    lists: DefaultLists<'_>,
    clock: u32,
    d: Decision,
    rec: &[u8],
    reply: &mut [u8],
) -> Judgement
    requires decided { Decided (tables_of h creds.old aces.old) (received clock rec.now (length reply.old)) d }
    requires whole_queue { IsWholeQueue queue.old }
    ensures executes { Executes (supplied lists.entry)
        (tables_of h creds.old aces.old)
        (received clock (was rec) (length reply.old))
        reply.old result creds.new aces.new reply.new }
    ensures leaves_queue { LeavesQueue (supplied lists.entry)
        (tables_of h creds.old aces.old)
        (received clock (was rec) (length reply.old))
        queue.old queue.new }
{
    let resource = d.caller.header.resource;
    if !resource.configuration {
        let tables = TablesView {
            head: h,
            creds: &*creds,
            aces: &*aces,
        };
        let links = links_of(clock, tables, d.caller);
        return permitted(d, rec, StoreRange::none(), links, h);
    }
    let was_valid = queue::round_valid(h.ncreds, creds, queue);
    let j = execute(h, creds, aces, lists, clock, d, rec, reply);
    if is_reset(d.action) {
        queue::clear(queue);
        return j;
    }
    let ncreds = j.head.ncreds;
    if ncreds == h.ncreds {
        return j;
    }
    queue::settle(was_valid, ncreds, creds, queue);
    j
}

// A record with sound tables and a queue: decided, and carried out if it passes every check. Of one that is refused the sender gets the number.
// Rules out: another clock than the caller's; a refusal that changes a byte; a record that is carried out though it is refused.
pub fn judge_sound(
    h: Head,
    creds: &mut [u8; CRED_ROWS],
    aces: &mut [u8; ACE_ROWS],
    queue: &mut [u8; QUEUE],
    lists: DefaultLists<'_>,
    clock: u32,
    rec: &[u8],
    reply: &mut [u8],
) -> Judgement
    requires sound_tables { sound (tables_of h creds.old aces.old) ≡ true }
    requires whole_queue { IsWholeQueue queue.old }
    ensures executes { Executes (supplied lists.entry)
        (tables_of h creds.old aces.old)
        (received clock (was rec) (length reply.old))
        reply.old result creds.new aces.new reply.new }
    ensures leaves_queue { LeavesQueue (supplied lists.entry)
        (tables_of h creds.old aces.old)
        (received clock (was rec) (length reply.old))
        queue.old queue.new }
{
    let tables = TablesView {
        head: h,
        creds: &*creds,
        aces: &*aces,
    };
    let d = decide(clock, tables, rec, reply.len());
    let c = d.check;
    let Check::Pass = c else {
        return Judgement::number_alone(h, c);
    };
    execute_queued(h, creds, aces, queue, lists, clock, d, rec, reply)
}
