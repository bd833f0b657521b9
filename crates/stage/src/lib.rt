// One call, one record: the whole of document 01 put together.
// The filter table, the bank and the octets of the gate lists are lent; all zeros and an empty table are a fresh bridge.
#![tactic(auto)]

ghost use Rattle.std.specs.Prelude.{◌≡◌};
ghost use Rattle.bank.specs.Meaning.{rows_of};
ghost use Rattle.verdict.specs.Meaning.{answer_of};
ghost use Rattle.stage.specs.Meaning.{bridge, took, take_of};

use bank::{Bank, Lists};
use filter::{Filter, Key};
use record::{Record, Refusal};
use verdict::{Outcome, Taken};

// One record of `input`.
// Kept: table, bank and lists are lent one by one, here and in `path`, `setup`, `run` and `stream`, as C lends them to `transomrib_take`.
// Ruled out: a refusal that uses octets or changes anything; the row of another filter written.
#[tactic(auto, unfolding(crate::specs::Meaning::take_of, crate::specs::Meaning::read_by, crate::specs::Meaning::taken_of, record::specs::Meaning::body_of))]
pub fn take(
    table: &mut [Filter],
    bank: &mut Bank,
    lists: &mut Lists,
    input: &[u8],
) -> Result<Taken, Refusal>
    ensures { took table.new (rows_of bank.new) lists.new (answer_of result) ≡ take_of (bridge table.old (rows_of bank.old) lists.old) input.now }
{
    if table.len() != sizes::FILTERS {
        return Err(Refusal::TableLength);
    }
    let started = bank.component_at().classes != 0;
    let (record, used) = record::read(input, started)?;
    let mut outcome = Outcome::Done;
    match record {
        Record::Port(r) => setup::set_port(bank, r)?,
        Record::Filter(r) => {
            let i = r.id as usize;
            if filter::row_at(table, i).is_filter() {
                return Err(Refusal::SetUpAlready);
            }
            filter::put_row(table, i, Filter::from(r));
        }
        Record::Gate(r) => setup::set_gate(bank, r)?,
        Record::GateEntry(r) => setup::add_entry(bank, lists, record::body(input, used), r)?,
        Record::Meter(r) => setup::set_meter(bank, r)?,
        Record::Group(r) => setup::set_group(bank, r)?,
        Record::Scheduler(r) => setup::set_scheduler(bank, r)?,
        Record::Start(r) => {
            let missing = filter::first_missing(table, bank);
            let exceeding = filter::first_exceeding(table, bank);
            setup::start(bank, r, missing, exceeding)?
        }
        Record::Arrival(a) => {
            let found = filter::matching(table, bank, Key::from(a));
            outcome = path::arrive(bank, lists, a, found)?;
        }
        Record::Clear(r) => {
            let row = filter::row_at(table, r.id as usize);
            setup::clear(bank, r, row)?
        }
    }
    Ok(Taken { used, outcome })
}
