// What a C program links, as a library: the whole stage as one call, and the counters and flags by name. `transomrib_c` exports the two, and include/transomrib.h declares them.
#![tactic(auto)]

ghost use Rattle.std.specs.Prelude.{◌≡◌};
ghost use Rattle.bank.specs.Meaning.{rows_of};
ghost use Rattle.verdict.specs.Meaning.{said, answer_of};
ghost use Rattle.stage.specs.Meaning.{bridge};
ghost use Rattle.transomrib.specs.Meaning.{spelled_of, reply_of, replied, replied_of, if_in_table, named_of};

use bank::{Bank, Lists};
use filter::Filter;
use record::Refusal;
use verdict::{Outcome, Taken};

// An answer as numbers. A field that says nothing of the verdict is 0.
// Kept: numbers for what an enum, an Option and a bool say elsewhere: the C interface (`transomrib_reply` in include/transomrib.h).
#[repr(C)]
#[derive(Clone, Copy, Default)]
pub struct Reply {
    // The eligibility time, in ns.
    pub eligible: u64,
    // Octets of the input that the record took.
    pub used: u64,
    // 0 refused, 1 taken, 2 passed, 3 dropped.
    pub verdict: u8,
    // Document 01's number of the refusal or of the drop.
    pub number: u8,
    // The internal priority.
    pub priority: u8,
    // The traffic class.
    pub class: u8,
    pub drop_mark: u8,
    // 1 where there is an eligibility time.
    pub timed: u8,
}

// One record of `input`, as `stage::take` takes it.
// Ruled out: a drop reported as a refusal of the same number; an answer to a record that leaves the bank as it was.
pub fn transomrib_take(
    table: &mut [Filter],
    bank: &mut Bank,
    lists: &mut Lists,
    input: &[u8],
) -> Reply
    ensures { replied table.new (rows_of bank.new) lists.new result ≡ replied_of (bridge table.old (rows_of bank.old) lists.old) input.now }
{
    Reply::from(stage::take(table, bank, lists, input))
}

// The answer as numbers. A refusal uses no octets.
// Ruled out: a refusal that uses one; a record that uses none.
impl From<Result<Taken, Refusal>> for Reply {
    ghost from_gives = { λ answer reply. reply ≡ reply_of (answer_of answer) };

    fn from(answer: Result<Taken, Refusal>) -> Reply {
        match answer {
            Err(why) => spelled(0, Err(why)),
            Ok(taken) => spelled(taken.used, Ok(taken.outcome)),
        }
    }
}

// An answer as numbers: the octets that it uses, and what came of the record or why it is refused.
// Ruled out: the number of a refusal lost; a pass without its eligibility time.
pub fn spelled(used: usize, outcome: Result<Outcome, Refusal>) -> Reply
    ensures { result ≡ spelled_of used (said outcome) }
{
    let used = used as u64;
    match outcome {
        Err(r) => Reply {
            used,
            number: u8::from(r),
            ..Reply::default()
        },
        Ok(Outcome::Done) => Reply {
            used,
            verdict: 1,
            ..Reply::default()
        },
        Ok(Outcome::Passed(p)) => Reply {
            eligible: p.eligible,
            used,
            verdict: 2,
            number: 0,
            priority: p.priority,
            class: p.class,
            drop_mark: p.drop_mark,
            timed: p.timed as u8,
        },
        Ok(Outcome::Dropped(d)) => Reply {
            used,
            verdict: 3,
            number: u8::from(d),
            ..Reply::default()
        },
    }
}

// One counter, or a flag as 0 or 1: `what` names it (specs/Meaning.antt), `index` says whose.
// Ruled out: the counter of filter 0 for an index past the table; PassingFrames for NotPassingFrames.
#[tactic(auto, unfolding(crate::specs::Meaning::chosen_of))]
pub fn transomrib_read(bank: &Bank, what: u32, index: u32) -> u64
    ensures { result ≡ named_of (rows_of bank.now) what index }
{
    let i = index as usize;
    let c = bank.counters_at(i);
    let g = bank.gate_at(i);
    // Kept: the numbers are the C interface's, of `transomrib_read` in include/transomrib.h.
    match what {
        1 => in_table(i, sizes::FILTERS, c.matching),
        2 => in_table(i, sizes::FILTERS, c.passing_sdu),
        3 => in_table(i, sizes::FILTERS, c.not_passing_sdu),
        4 => in_table(i, sizes::FILTERS, c.passing),
        5 => in_table(i, sizes::FILTERS, c.not_passing),
        6 => in_table(i, sizes::FILTERS, c.red),
        7 => in_table(i, sizes::FILTERS, c.oversize as u64),
        8 => in_table(i, sizes::GATES, g.invalid_receive_flag as u64),
        9 => in_table(i, sizes::GATES, g.octets_flag as u64),
        10 => in_table(i, sizes::METERS, bank.meter_at(i).red_flag as u64),
        11 => in_table(i, sizes::PORTS, bank.port_at(i).discarded),
        _ => 0,
    }
}

// 0 past the table.
fn in_table(i: usize, size: usize, n: u64) -> u64
    ensures { result ≡ if_in_table i size n }
{
    if i < size { n } else { 0 }
}
