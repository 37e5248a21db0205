// Device states, checks 11 and 12: the writes that each state allows, and the moves between them.
// 0 RESET, 1 RFOTM, 2 RFPRO, 3 RFNOP, 4 SRESET.
// A check answers `Check`, which `let .. else` takes apart: a form that stays (docs/DECISIONS.md, Forms).
#![tactic(auto)]

ghost use Rattle.std.specs.Prelude.{◌≡◌, not};
ghost use Rattle.rules.specs.States.{write_allowed, move_listed, state_allows};
ghost use Rattle.rules.specs.Checks.{refuse_if, verdict, bad_target};
ghost use Rattle.rules.specs.Promises.Groups.{state_checks};
ghost use Rattle.check_state.specs.Columns.{column};

use rules::{Action, Check, Head, State};

// What an action writes: a column of `WRITES`.
#[derive(Clone, Copy)]
enum Write {
    Doxm,
    RowOwner,
    Row,
    Target,
}

// State by kind of write: doxm, row owners, rows, target.
const WRITES: [[bool; 4]; 5] = [
    [false, false, false, false],
    [true, true, true, true],
    [false, false, true, true],
    [false, false, false, true],
    [true, true, true, true],
];

// No other number is a state, and none allows a write.
#[tactic(auto, unfolding(rules::specs::States::write_allowed))]
fn write_allowed(state: u8, write: Write) -> bool
    ensures { result ≡ write_allowed state (column write) }
{
    let state = usize::from(state);
    state < WRITES.len() && WRITES[state][write as usize]
}

// The listed moves: a target by a state.
#[tactic(auto, unfolding(rules::specs::States::move_listed))]
fn move_listed(state: u8, owned: bool, target: u8) -> bool
    ensures { result ≡ move_listed state owned target }
{
    match state {
        State::RFOTM => match target {
            State::RESET => true,
            State::RFPRO => owned,
            _ => false,
        },
        State::RFPRO => matches!(target, State::RESET | State::RFNOP | State::SRESET),
        State::RFNOP => matches!(target, State::RESET | State::RFPRO | State::SRESET),
        State::SRESET => matches!(target, State::RESET | State::RFPRO),
        _ => false,
    }
}

// What each state allows: the writes of the table, applications and asserted roles in RFNOP alone, and reading always.
fn state_allows(state: u8, a: Action) -> bool
    ensures { result ≡ state_allows state a }
{
    match a {
        Action::Serve => state == State::RFNOP,
        Action::Read | Action::Malformed => true,
        Action::SetRowOwner(_) => write_allowed(state, Write::RowOwner),
        Action::SetOwner(owned) => {
            write_allowed(state, Write::Doxm) && (state != State::SRESET || owned == 1)
        }
        Action::SetState(_) => write_allowed(state, Write::Target),
        Action::Store(_) | Action::Remove(_, _) => write_allowed(state, Write::Row),
        Action::Assert(connection) => state == State::RFNOP && connection == 1,
    }
}

fn check_state(state: u8, a: Action) -> Check
    ensures { result ≡ refuse_if 11 (not (state_allows state a)) }
{
    Check::refuse_if(11, !state_allows(state, a))
}

#[tactic(auto, using(rules::proofs::Others::no_move), unfolding(rules::specs::States::move_allowed, rules::specs::Checks::refuse_if))]
fn check_target(h: Head, a: Action) -> Check
    ensures { result ≡ refuse_if 12 (bad_target h a) }
{
    let Action::SetState(target) = a else {
        return Check::Pass;
    };
    Check::refuse_if(12, !move_listed(h.state, h.owned == 1, target))
}

// The first of the checks 11 and 12 that applies to the action.
// Rules out: a write that the state forbids; a move to the present state; a role asserted over connection 0.
#[tactic(auto, unfolding(rules::specs::Checks::verdict, rules::specs::Checks::refuse_if))]
pub fn check_states(h: Head, a: Action) -> Check
    ensures { result ≡ verdict (state_checks h a) }
{
    let c = check_state(h.state, a);
    let Check::Pass = c else {
        return c;
    };
    check_target(h, a)
}
