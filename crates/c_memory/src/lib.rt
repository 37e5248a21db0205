// Reads and writes the caller's tables, and encodes a judgement as 64-bit words.
// The bytes of the rows stay where they are.
#![tactic(auto)]

ghost use Rattle.std.specs.Prelude.{◌≡◌, []};
ghost use Rattle.rules.specs.Promises.Words.{was};
ghost use Rattle.rules.specs.Promises.Results.{result_with};
ghost use Rattle.rules_interface.specs.Memory.{head_at, counts_of};
ghost use Rattle.rules_interface.specs.Interface.{offset_of, words_in};

use rules::{Head, Judgement};

// The head of the tables that is passed in.
// Rules out: the counts exchanged; an owner left out.
pub fn head_at(counts: &[u8; 4], devowner: &[u8; 16], rowners: &[u8; 64]) -> Head
    ensures { result ≡ head_at (was counts) (was devowner) (was rowners) }
{
    let owner = *devowner;
    let owners = *rowners;
    Head {
        state: counts[0],
        owned: counts[1],
        ncreds: counts[2],
        naces: counts[3],
        devowner: owner,
        rowners: owners,
    }
}

// Puts a head back.
// Rules out: a head that is not put back whole; the counts exchanged.
pub fn put_head(h: Head, counts: &mut [u8; 4], devowner: &mut [u8; 16], rowners: &mut [u8; 64])
    ensures counts_value { counts.new ≡ counts_of h }
    ensures devowner_value { devowner.new ≡ h.devowner }
    ensures rowners_value { rowners.new ≡ h.rowners }
{
    let owner = h.devowner;
    let owners = h.rowners;
    *counts = [h.state, h.owned, h.ncreds, h.naces];
    *devowner = owner;
    *rowners = owners;
}

// Where a payload of this length is in its record.
fn offset_of(length: usize) -> usize
    ensures { result ≡ offset_of length }
{
    if length == 0 { 0 } else { 4 }
}

// The words of a judgement, in the order of include/tillerclover.h.
// Rules out: a permission left out; a payload at another offset.
pub fn words_of(j: Judgement) -> [u64; 9]
    ensures { result ≡ words_in (result_with j [] []) }
{
    let range = j.store;
    let links = j.links;
    [
        j.answer as u64,
        j.permission as u64,
        offset_of(j.payload) as u64,
        j.payload as u64,
        j.reply as u64,
        range.first as u64,
        range.count as u64,
        links.set,
        links.size as u64,
    ]
}
