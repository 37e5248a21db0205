// Lists of access rows that the provisioning program writes: what is reported of one, here; the test in specs/, the theorems in proofs/.
// No code but the words of a result: the crate `list_validation` tests a list.
#![tactic(auto)]

ghost use Rattle.std.specs.Prelude.{◌≡◌};
ghost use Rattle.rules_lists.specs.Lists.{tested_of};

// The first fault of a list.
#[derive(Clone, Copy, Debug, PartialEq, Eq)]
pub enum ListError {
    // no whole number of rows, or more than there is room for
    BadSize,
    // the number of the check that refuses a row, as `Check` has it, and the row, counted from 1
    BadRow { fault: u8, row: usize },
}

// The answer's number; with 20 or 21 the first bad row, counted from 1, else row 0.
#[repr(C)]
#[derive(Clone, Copy, Debug, PartialEq, Eq)]
pub struct Tested {
    pub answer: u8,
    pub row: usize,
}

// Rules out: 0 for a fault; another row than the one with the fault.
impl From<Result<(), ListError>> for Tested {
    ghost from_gives = { λ result tested. tested ≡ tested_of result };

    fn from(found: Result<(), ListError>) -> Tested {
        match found {
            Ok(()) => Tested { answer: 0, row: 0 },
            Err(ListError::BadSize) => Tested { answer: 19, row: 0 },
            Err(ListError::BadRow { fault, row }) => Tested { answer: fault, row },
        }
    }
}
