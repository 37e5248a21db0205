// Judges the records of vectors.bin, which the second model wrote, and compares what comes of each.
// The file's form is in model/src/vectors.rs: tables to take, records with their outcome, tables that
// must be reached, default lists, lists to load, older lists, the queue, hand-ins and takes.
#![tactic(auto)]

mod entries;
mod terminal_at;

use entries::{Entries, Entry, Tag};
use fields::{be16, be32, byte_at, skip};
use list_convert::ConvertError;
use rows::part;
use rules_lists::Tested;
use rules_terminal::QUEUE;
use terminal_at::{Arrays, Terminal};
use vectors_reader::{Tally, after_counted, be64, counted, more, tables_of};

// What is held from entry to entry: the terminal, and what was put to it.
#[derive(Drop)]
struct Progress<'a> {
    terminal: Terminal<'a>,
    tally: Tally,
    records: u64,
    handed: u64,
    takes: u64,
    tested: u64,
    converted: u64,
}

fn main(rt: HostRuntime) {
    let path = "vectors.bin";
    let mut bytes = buffer();
    if let Some(n) = input::read_file(&rt, path, &mut bytes) {
        print_result(&rt, &walk(&rt, &bytes[..n]));
    }
}

// More than the model writes. Of a longer file the last entry is cut, and counts as a difference.
fn buffer() -> [u8; 400000] {
    [0; 400000]
}

fn print_result(rt: &impl Print, p: &Progress) {
    let _ = println!(rt;
        "vectors: {} records, {} hand-ins, {} takes, {} lists, {} older lists, {} differences",
        p.records, p.handed, p.takes, p.tested, p.converted, p.tally.differences
    );
}

// All entries in their order, up to one that is cut or has no known tag.
fn walk<'a>(rt: &impl Print, bytes: &'a [u8]) -> Progress<'a> {
    let mut p = Progress {
        terminal: Terminal::empty(),
        tally: Tally::default(),
        records: 0,
        handed: 0,
        takes: 0,
        tested: 0,
        converted: 0,
    };
    for entry in Entries::new(bytes) {
        p.tally.advance();
        match entry {
            Ok(entry) => answered(rt, &mut p, entry),
            Err(_) => p.tally.differ(rt),
        }
    }
    p
}

fn compared(rt: &impl Print, p: &mut Progress, is_same: bool) {
    p.tally.compare(rt, is_same);
}

// An entry that is put to the library; tables, a queue and default lists only become the terminal's.
fn answered<'a>(rt: &impl Print, p: &mut Progress<'a>, entry: Entry<'a>) {
    let s = entry.body;
    match entry.tag {
        Tag::Tables => placed(p, s),
        Tag::Record => judged(rt, p, s),
        Tag::Reached => reached(rt, p, s),
        Tag::Defaults => listed(p, s),
        Tag::List => tested(rt, p, s),
        Tag::OlderList => converted(rt, p, s),
        Tag::Queue => queued(p, s),
        Tag::QueueReached => kept(rt, p, s),
        Tag::HandIn => handed_in(rt, p, s),
        Tag::Take => taken_turn(rt, p, s),
    }
}

// Goes on with these tables. A function of its own, as `queued` is: in the match the memory for what it makes would be set to zeros at each
// entry, whatever the tag.
fn placed(p: &mut Progress, s: &[u8]) {
    p.terminal.tables = Arrays::from(tables_of(s));
}

// Goes on with this queue.
fn queued(p: &mut Progress, s: &[u8]) {
    p.terminal.queue = queue_of(s);
}

// Goes on with two default lists, each after its length, which is a byte: credential rows, then access rows.
fn listed<'a>(p: &mut Progress<'a>, s: &'a [u8]) {
    let creds = byte_at(s, 0) as usize;
    let behind = skip(s, 1 + creds);
    p.terminal.default_creds = part(s, 1, creds);
    p.terminal.default_aces = part(behind, 1, byte_at(behind, 0) as usize);
}

// Compares the tables with these bytes.
fn reached(rt: &impl Print, p: &mut Progress, s: &[u8]) {
    let is_same = p.terminal.tables == Arrays::from(tables_of(s));
    compared(rt, p, is_same);
}

// Tests the list after its length, and compares what is reported of it with what follows.
fn tested(rt: &impl Print, p: &mut Progress, s: &[u8]) {
    let length = be16(s) as usize;
    let expected = skip(skip(s, 2), length);
    let found = Tested::from(list_validation::test_list(part(s, 2, length)));
    p.tested = more(p.tested);
    let is_same = (found.answer == byte_at(expected, 0))
        & (found.row == byte_at(expected, 1) as usize);
    compared(rt, p, is_same);
}

// Converts the older list after its length with a buffer of the room after it, and compares the result with the one that follows.
fn converted(rt: &impl Print, p: &mut Progress, s: &[u8]) {
    let length = be16(s) as usize;
    let behind = skip(skip(s, 2), length);
    let expected = skip(behind, 2);
    let made = part(expected, 3, be16(skip(expected, 1)) as usize);
    let mut buffer = [165u8; 1300];
    let found = convert_within(part(s, 2, length), &mut buffer, be16(behind) as usize);
    let (answer, size) = match found {
        Ok(size) => (0, size),
        Err(error) => (u8::from(error), 0),
    };
    p.converted = more(p.converted);
    let is_same = (answer == byte_at(expected, 0)) & same_filled(size as u64, &buffer, made);
    compared(rt, p, is_same);
}

// Converts an older list with the first `capacity` bytes of the buffer, or all where it has fewer.
fn convert_within(file: &[u8], buffer: &mut [u8], capacity: usize) -> Result<usize, ConvertError> {
    list_convert::convert(file, first_of(buffer, capacity))
}

// The first `capacity` bytes, or all where there are fewer.
fn first_of(buffer: &mut [u8], capacity: usize) -> &mut [u8] {
    let n = capacity.min(buffer.len());
    &mut buffer[..n]
}

// Compares the queue with the bytes after their length.
fn kept(rt: &impl Print, p: &mut Progress, s: &[u8]) {
    let is_same = p.terminal.queue == queue_of(s);
    compared(rt, p, is_same);
}

// The queue that begins with the bytes after their length. Zeros are after them.
fn queue_of(s: &[u8]) -> [u8; QUEUE] {
    let mut queue = [0; QUEUE];
    text::put(&mut queue, 0, counted(s));
    queue
}

// Hands the record after its length in, and compares the answer; nothing else is reported of it, and the tables stay.
fn handed_in(rt: &impl Print, p: &mut Progress, s: &[u8]) {
    let words = p.terminal.hand_in(counted(s));
    let answer = byte_at(after_counted(s), 0) as u64;
    p.handed = more(p.handed);
    compared(rt, p, words == [answer, 0, 0, 0, 0, 0, 0, 0, 0]);
}

// Takes at the clock with a buffer of the room after it, and compares the outcome and the record with those that follow.
fn taken_turn(rt: &impl Print, p: &mut Progress, s: &[u8]) {
    let expected = skip(s, 6);
    let mut buffer = [165; 1300];
    let reply = first_of(&mut buffer, be16(skip(s, 4)) as usize);
    let turn = p.terminal.take(be32(s), reply);
    let record = counted(skip(skip(expected, 19), be16(skip(expected, 6)) as usize));
    let is_same = same_outcome(&turn.words, &buffer, expected)
        & (turn.size == record.len() as u64)
        & (turn.bytes == record_bytes(record));
    p.takes = more(p.takes);
    compared(rt, p, is_same);
}

// The bytes in which a take gives a record out: zeros are after it.
fn record_bytes(record: &[u8]) -> [u8; 256] {
    let mut bytes = [0; 256];
    text::put(&mut bytes, 0, record);
    bytes
}

// Judges the record after its clock and its length with a buffer of the room after it, and compares the outcome with the one that follows.
fn judged(rt: &impl Print, p: &mut Progress, s: &[u8]) {
    let record = skip(s, 4);
    let behind = after_counted(record);
    let mut buffer = [165; 1300];
    let reply = first_of(&mut buffer, be16(behind) as usize);
    let words = p.terminal.judge(be32(s), counted(record), reply);
    let is_same = same_outcome(&words, &buffer, skip(behind, 2));
    p.records = more(p.records);
    compared(rt, p, is_same);
}

// Whether the words are those of these bytes, and the reply is the one after them.
fn same_outcome(words: &[u64; 9], buffer: &[u8; 1300], expected: &[u8]) -> bool {
    (*words == words_of(expected))
        & same_filled(
            words[4],
            buffer,
            part(expected, 19, be16(skip(expected, 6)) as usize),
        )
}

// What these bytes say of a record, in the words that the library reports: answer, permission, the payload's offset and
// its length, the reply's length, the first place to store and how many, the set of links and its size.
fn words_of(s: &[u8]) -> [u64; 9] {
    [
        byte_at(s, 0) as u64,
        byte_at(s, 1) as u64,
        be16(skip(s, 2)) as u64,
        be16(skip(s, 4)) as u64,
        be16(skip(s, 6)) as u64,
        byte_at(s, 8) as u64,
        byte_at(s, 9) as u64,
        be64(skip(s, 10)),
        byte_at(s, 18) as u64,
    ]
}

// Whether that many bytes are those of the result, and the buffer is as before after them.
fn same_filled(length: u64, buffer: &[u8; 1300], res: &[u8]) -> bool {
    let mut filled = [165; 1300];
    text::put(&mut filled, 0, res);
    (length == res.len() as u64) & (*buffer == filled)
}
