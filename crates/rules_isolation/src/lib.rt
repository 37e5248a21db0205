// The question whether senders are isolated from all others: the answers, here; the definitions in specs/, the theorems in proofs/.
// The crate `isolation` answers it.
#![tactic(auto)]

ghost use Rattle.std.specs.Prelude.{◌≡◌};
ghost use Rattle.rules_isolation.specs.Question.{report_of};

// Whether the senders of a list are isolated, or the first reason why they may not be.
// Entries of the list and access rows are counted from 1.
#[derive(Clone, Copy)]
pub enum Isolation {
    Isolated,
    // the list has an odd number of bytes
    OddLength,
    // the tables are not sound
    Unsound,
    // there is no owner, so that anybody may write
    NoOwner,
    // this entry's credential row names an owner
    NamesOwner(usize),
    // this entry may be given create, update or delete on a security resource, by this access row
    MayAlter(usize, usize),
}

// The same as numbers, for C: the reason, 0 for none, and the entry and the access row, 0 where the reason names none.
#[repr(C)]
#[derive(Clone, Copy)]
pub struct IsolationReport {
    pub reason: u8,
    pub entry: usize,
    pub row: usize,
}

impl From<Isolation> for IsolationReport {
    ghost from_gives = { λ answer report. report ≡ report_of answer };

    // Rules out: a reason that is reported as isolated; the row instead of the entry.
    fn from(answer: Isolation) -> IsolationReport {
        let (reason, entry, row) = match answer {
            Isolation::Isolated => (0, 0, 0),
            Isolation::OddLength => (1, 0, 0),
            Isolation::Unsound => (2, 0, 0),
            Isolation::NoOwner => (3, 0, 0),
            Isolation::NamesOwner(entry) => (4, entry, 0),
            Isolation::MayAlter(entry, row) => (5, entry, row),
        };
        IsolationReport { reason, entry, row }
    }
}
