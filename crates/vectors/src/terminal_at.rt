// The terminal that the entries are put to, in the arrays in which C has it.
ghost use Rattle.std.specs.Prelude.{◌≡◌, [], ◌∷◌, length};
ghost use Rattle.rules.specs.Promises.Words.{was};
ghost use Rattle.rules.specs.Record.{received};
ghost use Rattle.rules.specs.Tables.{empty};
ghost use Rattle.rules.specs.Defaults.{no_defaults};
ghost use Rattle.rules_terminal.specs.Slots.{empty_queue};
ghost use Rattle.rules_interface.specs.Interface.{HandsInAt, JudgesAt, TakesAt};
ghost use Rattle.vectors.specs.Held.{arrays_of, memory_held, lists_held};

use rules::{ACE_ROWS, CRED_ROWS, Tables};
use rules_terminal::QUEUE;
use terminal::{tillerclover_hand_in_at, tillerclover_judge_at, tillerclover_take_at};

// The tables, an array for each part: the state, who owns it and the numbers of rows are the first.
#[derive(Clone, Copy, PartialEq, Eq)]
pub struct Arrays {
    counts: [u8; 4],
    devowner: [u8; 16],
    rowners: [u8; 64],
    creds: [u8; CRED_ROWS],
    aces: [u8; ACE_ROWS],
}

impl From<Tables> for Arrays {
    ghost from_gives = { λ t arrays. arrays ≡ arrays_of t };

    // Rules out: the counts exchanged; an owner that is lost.
    fn from(t: Tables) -> Arrays {
        let Tables {
            state,
            owned,
            ncreds,
            naces,
            devowner,
            rowners,
            creds,
            aces,
        } = t;
        Arrays {
            counts: [state, owned, ncreds, naces],
            devowner,
            rowners,
            creds,
            aces,
        }
    }
}

// The tables, what waits, and the default lists of the build.
#[derive(Clone, Copy)]
pub struct Terminal<'a> {
    pub tables: Arrays,
    pub queue: [u8; QUEUE],
    pub default_creds: &'a [u8],
    pub default_aces: &'a [u8],
}

// What is reported of a take, in words, and the record that it gives out.
#[derive(Clone, Copy)]
pub struct Turn {
    pub words: [u64; 9],
    pub size: u64,
    pub bytes: [u8; 256],
}

impl<'a> Terminal<'a> {
    // Empty tables of a build without default rows, and nothing that waits.
    // Rules out: tables with an owner; a queue with a record; a default row.
    pub fn empty() -> Terminal<'a>
        ensures tables { result.tables ≡ arrays_of empty }
        ensures queue { result.queue ≡ empty_queue }
        ensures lists { lists_held result ≡ no_defaults }
    {
        Terminal {
            tables: Arrays::from(Tables::empty()),
            queue: [0; QUEUE],
            default_creds: b"",
            default_aces: b"",
        }
    }

    // Judges a record: what is reported of it, in words. The default lists stay.
    // Rules out: a record judged on other tables, or at another clock; a default list that is lost; words of another record.
    pub fn judge(&mut self, clock: u32, rec: &[u8], reply: &mut [u8]) -> [u64; 9]
        ensures judges { JudgesAt (lists_held self.old) (memory_held self.old)
            (received clock (was rec) (length reply.old)) result (memory_held self.new) reply.old reply.new }
        ensures lists { lists_held self.new ≡ lists_held self.old }
    {
        let mut judged = [0; 9];
        tillerclover_judge_at(
            &mut self.tables.counts,
            &mut self.tables.devowner,
            &mut self.tables.rowners,
            &mut self.tables.creds,
            &mut self.tables.aces,
            &mut self.queue,
            self.default_creds,
            self.default_aces,
            clock,
            rec,
            reply,
            &mut judged,
        );
        judged
    }

    // Hands a record in: what is reported of it, in words. The tables and the default lists stay.
    // Rules out: a record that is obeyed at once; a queue left as it was; a default list that is lost.
    pub fn hand_in(&mut self, rec: &[u8]) -> [u64; 9]
        ensures hands_in { HandsInAt (memory_held self.old) (was rec) result self.new.queue }
        ensures stays { self.new ≡ record self.old { queue = self.new.queue } }
    {
        let mut words = [0; 9];
        tillerclover_hand_in_at(
            &self.tables.counts,
            &self.tables.devowner,
            &self.tables.rowners,
            &self.tables.creds,
            &self.tables.aces,
            &mut self.queue,
            rec,
            &mut words,
        );
        words
    }

    // Takes the record whose turn it is. The default lists stay.
    // Rules out: a record given out with another length; a take at another clock; a default list that is lost.
    pub fn take(&mut self, clock: u32, reply: &mut [u8]) -> Turn
        ensures takes { TakesAt (lists_held self.old) (memory_held self.old) clock (length reply.old)
            result.words (result.size ∷ []) result.bytes (memory_held self.new) reply.old reply.new }
        ensures lists { lists_held self.new ≡ lists_held self.old }
    {
        let mut words = [0; 9];
        let mut size = [0; 1];
        let mut bytes = [0; 256];
        tillerclover_take_at(
            &mut self.tables.counts,
            &mut self.tables.devowner,
            &mut self.tables.rowners,
            &mut self.tables.creds,
            &mut self.tables.aces,
            &mut self.queue,
            self.default_creds,
            self.default_aces,
            clock,
            reply,
            &mut words,
            &mut size,
            &mut bytes,
        );
        Turn {
            words,
            size: size[0],
            bytes,
        }
    }
}
