// Hand-in: a record that passes the checks 1 to 7 and 26 waits in its sender's seat.
// It asks nothing of its caller.
#![tactic(auto)]

ghost use Rattle.std.specs.Prelude.{◌≡◌, ◌≤◌, length};
ghost use Rattle.rules.specs.Checks.{refuse_if, verdict};
ghost use Rattle.rules_terminal.specs.Slots.{seat_of, waiting};
ghost use Rattle.rules_terminal.specs.Round.{occupied};
ghost use Rattle.rules.specs.Promises.Results.{result_with};
ghost use Rattle.rules_terminal.specs.Terminal.{terminal, hand_in_checks};
ghost use Rattle.rules_terminal.specs.Calls.{HandsIn};
ghost use Rattle.rules.specs.Promises.Words.{was, seen};
ghost use Rattle.queue.specs.Viewed.{viewed};

use caller::check_record;
use check_waiting::check_terminal;
use queue::Queue;
use rules::{Check, Judgement, TablesView};
use rules_terminal::QUEUE;

// Check 26: the sender's seat is occupied.
fn check_free(queue: Queue<'_>, rec: &[u8]) -> Check
    requires { 4 ≤ length rec.now }
    ensures { result ≡ refuse_if 26 (occupied (waiting (viewed queue.entry)) (seat_of (was rec))) }
{
    Check::refuse_if(26, queue.slots().find(0, &rec[2..4]).is_some())
}

// The first of the checks 1 to 7 and 26 that applies.
fn check_hand_in(tables: TablesView<'_>, queue: &[u8; QUEUE], rec: &[u8]) -> Check
    ensures { result ≡ verdict (hand_in_checks (terminal (seen tables.entry) (was queue)) (was rec)) }
{
    let c = check_terminal(tables, queue);
    let Check::Pass = c else {
        return c;
    };
    let c = check_record(tables.head.ncreds, tables.creds, rec);
    let Check::Pass = c else {
        return c;
    };
    check_free(Queue::new(queue), rec)
}

// Hands a record in: the answer, with permission 0 and all else empty. The tables stay as they are.
// Rules out: a second record kept for its sender; a record that lost a byte; a byte of the memory changed on a refusal; an answer 0 that permits.
pub fn hand_in(tables: TablesView<'_>, queue: &mut [u8; QUEUE], rec: &[u8]) -> Judgement
    ensures { HandsIn (terminal (seen tables.entry) queue.old)
        (was rec) (result_with result tables.entry.creds.now tables.entry.aces.now) queue.new }
{
    let c = check_hand_in(tables, queue, rec);
    let Check::Pass = c else {
        return Judgement::number_alone(tables.head, c);
    };
    queue::enqueue(queue, rec);
    Judgement::number_alone(tables.head, Check::Pass)
}
