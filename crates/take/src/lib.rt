// The take: the record whose turn it is, given out by value and judged.
// It asks nothing of its caller. The head of the tables comes and goes by value, the rows are changed in the bytes that are passed in.
#![tactic(auto)]

ghost use Rattle.std.specs.Prelude.{◌≡◌, length};
ghost use Rattle.rules.specs.Tables.{tables_of};
ghost use Rattle.rules.specs.Checks.{verdict};
ghost use Rattle.rules.specs.Promises.Supplied.{supplied};
ghost use Rattle.rules_terminal.specs.Terminal.{terminal, take_checks, taken_of};
ghost use Rattle.rules_terminal.specs.Calls.{Takes};
ghost use Rattle.rules.specs.Promises.Words.{was, seen};

use check_waiting::check_terminal;
use execute::judge_sound;
use queue_turn::due_record;
use rows::part;
use rules::{ACE_ROWS, CRED_ROWS, Check, DefaultLists, Head, Judgement, TablesView};
use rules_terminal::{QUEUE, Taken};

// The first of the checks 1 and 27 that applies.
fn check_take(tables: TablesView<'_>, queue: &[u8; QUEUE]) -> Check
    ensures { result ≡ verdict (take_checks (terminal (seen tables.entry) (was queue))) }
{
    let c = check_terminal(tables, queue);
    let Check::Pass = c else {
        return c;
    };
    Check::refuse_if(27, queue[0] == 0)
}

// Takes the record whose turn it is: hands it out by value, judges it at this clock, empties its seat and moves the round, also where it is refused.
// With 1 and with 27 there is no record, and nothing changes.
// Rules out: a take that skips a waiting record; a take that keeps a record that it refused;
// a take that judges at another clock; a byte of the memory changed with 1 or 27.
pub fn take(
    h: Head,
    creds: &mut [u8; CRED_ROWS],
    aces: &mut [u8; ACE_ROWS],
    queue: &mut [u8; QUEUE],
    lists: DefaultLists<'_>,
    clock: u32,
    reply: &mut [u8],
) -> Taken
    ensures { Takes (supplied lists.entry)
        (terminal (tables_of h creds.old aces.old) queue.old)
        clock (length reply.old)
        (taken_of result creds.new aces.new)
        reply.old queue.new reply.new }
{
    let tables = TablesView {
        head: h,
        creds: &*creds,
        aces: &*aces,
    };
    let c = check_take(tables, queue);
    let Check::Pass = c else {
        return Taken {
            judgement: Judgement::number_alone(h, c),
            size: 0,
            bytes: [0; 256],
        };
    };
    let due = due_record(tables, queue);
    queue::dequeue(queue, &due.seat);
    let rec = part(&due.bytes, 0, due.size);
    Taken {
        judgement: judge_sound(h, creds, aces, queue, lists, clock, rec, reply),
        size: due.size,
        bytes: due.bytes,
    }
}
