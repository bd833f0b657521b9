// A frame's path: document 01's five steps. Each answers what the next one needs, or why the frame is dropped.
#![tactic(auto)]

ghost use Rattle.std.specs.Prelude.{◌≡◌, ℕ, List};
ghost use Rattle.bank.specs.Meaning.{rows_of};
ghost use Rattle.verdict.specs.Meaning.{Passed, told, said};
ghost use Rattle.path.specs.Meaning.{pass_of, scheduled_of, metered_of, gated_of, sdu_filtered_of, arrival_of};
ghost use Rattle.path.specs.Steps.{onward};

use bank::{Bank, Counter, Lists};
use bucket::Octets;
use filter::Filter;
use record::{ArrivalRecord, Refusal};
use scheduler::Offer;
use verdict::{Drop, Outcome, Pass};

// 1: an arrival, where `found` is the first filter that matches. None: the frame passes.
// Ruled out: every frame passing at its arrival time; an arrival that is refused moving the clock.
#[tactic(auto, unfolding(crate::specs::Meaning::arrival_of))]
pub fn arrive(
    bank: &mut Bank,
    lists: &Lists,
    a: ArrivalRecord,
    found: Option<(usize, Filter)>,
) -> Result<Outcome, Refusal>
    ensures { told (rows_of bank.new) (said result) ≡ arrival_of (rows_of bank.old) lists.now a found }
{
    if a.time < bank.component_at().clock {
        return Err(Refusal::TimeGoesBack);
    }
    bank.put_clock(a.time);
    let Some((place, row)) = found else {
        let carried = pass(bank, a.priority, a.drop_eligible, None);
        return Ok(Outcome::Passed(carried));
    };
    let frame = Frame {
        arrival: a,
        place,
        row,
    };
    match frame.police(bank, lists) {
        Ok(carried) => Ok(Outcome::Passed(carried)),
        Err(why) => Ok(Outcome::Dropped(why)),
    }
}

// A frame on its way: the arrival, and the place and the row of the filter that it matches.
#[derive(Clone, Copy)]
struct Frame {
    arrival: ArrivalRecord,
    place: usize,
    row: Filter,
}

impl Frame {
    // 2 to 5.
    fn police(&self, bank: &mut Bank, lists: &Lists) -> Result<Pass, Drop>
        ensures { onward (rows_of bank.new) result (λ s p. told s (Passed p)) ≡ sdu_filtered_of (rows_of bank.old) lists.now self.now.arrival self.now.place self.now.row }
    {
        self.filter_sdu(bank)?;
        let priority = self.pass_gate(bank, lists)?;
        let mark = self.meter(bank)?;
        let eligible = self.schedule(bank)?;
        Ok(pass(bank, priority, mark, eligible))
    }

    // 2: the maximum SDU filter.
    #[tactic(auto, unfolding(crate::specs::Meaning::sdu_filtered_of, crate::specs::Meaning::sdu_failed, crate::specs::Meaning::sdu_passed))]
    fn filter_sdu(&self, bank: &mut Bank) -> Result<(), Drop>
        ensures { (lists : List ℕ) → onward (rows_of bank.new) result (λ s _. gated_of s lists self.now.arrival self.now.place self.now.row) ≡ sdu_filtered_of (rows_of bank.old) lists self.now.arrival self.now.place self.now.row }
    {
        let block = self.row.oversize_block == 1;
        let oversize = bank.counters_at(self.place).oversize;
        bank.count(self.place, Counter::Matching);
        let why = if block && oversize {
            Drop::OversizeBlocked
        } else if self.row.max_sdu != 0 && self.row.max_sdu < self.arrival.msdu {
            Drop::Oversize
        } else {
            bank.count(self.place, Counter::PassingSdu);
            return Ok(());
        };
        bank.count(self.place, Counter::NotPassingSdu);
        bank.put_oversize(self.place, oversize || block);
        Err(why)
    }

    // 3: the gate, whose list is its own part of the lists. The internal priority.
    #[tactic(auto, unfolding(crate::specs::Meaning::gated_of, crate::specs::Meaning::gated_by, crate::specs::Meaning::gate_passed, crate::specs::Meaning::gate_failed))]
    fn pass_gate(&self, bank: &mut Bank, lists: &Lists) -> Result<u8, Drop>
        ensures { onward (rows_of bank.new) result (λ s priority. metered_of s self.now.arrival self.now.place self.now.row priority) ≡ gated_of (rows_of bank.old) lists.now self.now.arrival self.now.place self.now.row }
    {
        let i = self.row.gate as usize;
        let from = i % sizes::GATES * sizes::LIST;
        let list = &lists[from..from + bank.entries_at(i) * sizes::ENTRY];
        let stepped = gate::step(
            bank.gate_at(i),
            list,
            self.arrival.time,
            self.arrival.msdu as u64,
        );
        bank.put_gate_state(i, stepped.gate);
        let why = match stepped.outcome {
            gate::Outcome::Passed(ipv) => {
                bank.count(self.place, Counter::Passing);
                return Ok(if ipv <= 7 { ipv } else { self.arrival.priority });
            }
            gate::Outcome::Blocked => Drop::GateBlocked,
            gate::Outcome::Closed => Drop::GateClosed,
            gate::Outcome::TooManyOctets => Drop::GateOctets,
        };
        bank.count(self.place, Counter::NotPassing);
        Err(why)
    }

    // 4: the meter, if named. The drop mark.
    #[tactic(auto, unfolding(crate::specs::Meaning::metered_of, crate::specs::Meaning::metered_by, crate::specs::Meaning::red_counted))]
    fn meter(&self, bank: &mut Bank) -> Result<u8, Drop>
        ensures { (priority : ℕ) → onward (rows_of bank.new) result (λ s mark. scheduled_of s self.now.arrival self.now.row priority mark) ≡ metered_of (rows_of bank.old) self.now.arrival self.now.place self.now.row priority }
    {
        let mark = self.arrival.drop_eligible;
        if self.row.meter == 255 {
            return Ok(mark);
        }
        let i = self.row.meter as usize;
        let msdu = Octets(self.arrival.msdu as u32);
        let metered = bank.meter_at(i).colour(self.arrival.time, msdu, mark != 0);
        bank.put_meter_state(i, metered.meter);
        let why = match metered.outcome {
            meter::Outcome::Green => return Ok(mark),
            meter::Outcome::Yellow => return Ok(1),
            meter::Outcome::YellowDropped => Drop::Yellow,
            meter::Outcome::Red | meter::Outcome::OutOfRange | meter::Outcome::TooEarly => {
                Drop::Red
            }
        };
        bank.count(self.place, Counter::Red);
        Err(why)
    }

    // 5: the scheduler, if named. The eligibility time, if there is one.
    #[tactic(auto, unfolding(crate::specs::Meaning::scheduled_of, crate::specs::Meaning::scheduled_by, crate::specs::Meaning::discard_counted))]
    fn schedule(&self, bank: &mut Bank) -> Result<Option<u64>, Drop>
        ensures { (priority mark : ℕ) → onward (rows_of bank.new) result (λ s eligible. told s (pass_of s priority mark eligible)) ≡ scheduled_of (rows_of bank.old) self.now.arrival self.now.row priority mark }
    {
        if self.row.scheduler == 255 {
            return Ok(None);
        }
        let i = self.row.scheduler as usize;
        let j = bank.scheduler_group(i);
        let group = bank.group_at(j);
        let port = bank.port_at(self.arrival.port as usize);
        let stepped = bank.scheduler_at(i).offered(Offer {
            group: group.last,
            residence: group.residence,
            arrival: self.arrival.time,
            length: frame::length(self.arrival.msdu, port.overhead),
        });
        match stepped.outcome {
            scheduler::Outcome::Admitted { at } => {
                bank.put_scheduler_state(i, stepped.scheduler);
                bank.put_group_last(j, at);
                Ok(Some(at))
            }
            scheduler::Outcome::Dropped | scheduler::Outcome::Refused => {
                bank.put_discarded(self.arrival.port as usize, port.discarded.wrapping_add(1));
                Err(Drop::Residence)
            }
        }
    }
}

// What a frame that passes carries.
#[tactic(auto, unfolding(crate::specs::Meaning::pass_of))]
fn pass(bank: &Bank, priority: u8, drop_mark: u8, eligible: Option<u64>) -> Pass
    ensures { Passed result ≡ pass_of (rows_of bank.now) priority drop_mark eligible }
{
    let classes = (bank.component_at().classes % 256) as u8;
    Pass {
        priority,
        class: class::traffic_class(priority, classes).unwrap_or(0),
        drop_mark,
        timed: eligible.is_some(),
        eligible: eligible.unwrap_or(0),
    }
}
