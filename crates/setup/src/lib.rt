// Taking a record that is no filter and no arrival: what it does to the bank of words, and to the octets of the gate lists (01, Records,
// kinds 1, 3 to 8 and 10). The meaning of each function is in specs/Meaning.antt; a refusal leaves everything as it was.
#![tactic(auto)]

ghost use Rattle.std.specs.Prelude.{◌≡◌, ◌+◌, ◌≤◌};
ghost use Rattle.sizes.specs.Meaning.{gate_count, scheduler_count, entry_octets, lists_octets};
ghost use Rattle.bank.specs.Meaning.{rows_of};
ghost use Rattle.verdict.specs.Meaning.{told, set_up};
ghost use Rattle.setup.specs.Meaning.{set_port_of, set_gate_of, listed, entry_kept, add_entry_of, set_meter_of, set_group_of, fresh_scheduler_of, set_scheduler_of, stray_of, groupless_of, some_of, start_of, clear_of};

use bank::{Bank, Group, Lists, Port};
use filter::Filter;
use meter::Meter;
use record::{
    ClearRecord, Flag, GateEntryRecord, GateRecord, GroupRecord, MeterRecord, PortRecord, Refusal,
    SchedulerRecord, StartRecord,
};
use scheduler::Scheduler;

// Kind 1.
// Ruled out: a second record for a port that overwrites the first; the largest overhead replaced by a smaller one.
#[tactic(auto, unfolding(crate::specs::Meaning::set_port_of, crate::specs::Meaning::refused_if))]
pub fn set_port(bank: &mut Bank, r: PortRecord) -> Result<(), Refusal>
    ensures { told (rows_of bank.new) (set_up result) ≡ set_port_of (rows_of bank.old) r }
{
    let i = r.port as usize;
    let old = bank.port_at(i);
    if old.set {
        return Err(Refusal::SetUpAlready);
    }
    let largest = bank.component_at().overhead;
    bank.put_overhead(largest.max(r.overhead as u64));
    bank.put_port(
        i,
        Port {
            set: true,
            overhead: r.overhead,
            discarded: old.discarded,
        },
    );
    Ok(())
}

// Kind 3.
// Ruled out: a second record for a gate taken; a closed gate set up open because octets block is set.
#[tactic(auto, unfolding(crate::specs::Meaning::set_gate_of, crate::specs::Meaning::refused_if))]
pub fn set_gate(bank: &mut Bank, r: GateRecord) -> Result<(), Refusal>
    ensures { told (rows_of bank.new) (set_up result) ≡ set_gate_of (rows_of bank.old) r }
{
    let i = r.id as usize;
    if bank.gate_set(i) {
        return Err(Refusal::SetUpAlready);
    }
    bank.set_up_gate(
        i,
        r.state != 0,
        r.ipv,
        r.invalid_receive_block != 0,
        r.octets_block != 0,
        r.base_time,
    );
    Ok(())
}

// Kind 4: `body` is that of the record `r`, as `record::body` shows it. It is kept in the gate's list as it came.
// Ruled out: a ninth entry taken; an entry kept in the list of another gate.
#[tactic(auto, unfolding(crate::specs::Meaning::add_entry_of))]
pub fn add_entry(
    bank: &mut Bank,
    lists: &mut Lists,
    body: &[u8],
    r: GateEntryRecord,
) -> Result<(), Refusal>
    ensures { listed (rows_of bank.new) lists.new (set_up result) ≡ add_entry_of (rows_of bank.old) lists.old body.now r }
{
    let i = r.gate as usize;
    let n = bank.entries_at(i);
    if sizes::ENTRIES <= n {
        return Err(Refusal::NinthEntry);
    }
    let at = i % sizes::GATES * sizes::LIST + n * sizes::ENTRY;
    keep(lists, at, body);
    bank.put_entries(i, n + 1);
    Ok(())
}

// The octets of a body, kept at `at`; 0 for one past its end.
// Kept: a place in the lists, which C lends as one array; the library says nothing of an array after a part of it is lent (`get_mut`).
fn keep(lists: &mut Lists, at: usize, body: &[u8])
    requires { at + entry_octets ≤ lists_octets }
    ensures { lists.new ≡ entry_kept lists.old at body.now }
{
    for k in 0..sizes::ENTRY {
        lists[at + k] = body.get(k).copied().unwrap_or(0);
    }
}

// Kind 5.
// Ruled out: a second record that fills the buckets again; drop on yellow taken for the red block.
#[tactic(auto, unfolding(crate::specs::Meaning::set_meter_of, crate::specs::Meaning::refused_if))]
pub fn set_meter(bank: &mut Bank, r: MeterRecord) -> Result<(), Refusal>
    ensures { told (rows_of bank.new) (set_up result) ≡ set_meter_of (rows_of bank.old) r }
{
    let i = r.id as usize;
    if bank.meter_set(i) {
        return Err(Refusal::SetUpAlready);
    }
    let m = Meter::fresh(
        r.cir,
        r.cbs,
        r.eir,
        r.ebs,
        r.coupling != 0,
        r.colour_aware != 0,
        r.drop_on_yellow != 0,
        r.red_block != 0,
    );
    bank.set_up_meter(i, m);
    Ok(())
}

// Kind 6.
// Ruled out: a second record for a group taken; a group whose last time is its residence.
#[tactic(auto, unfolding(crate::specs::Meaning::set_group_of, crate::specs::Meaning::refused_if))]
pub fn set_group(bank: &mut Bank, r: GroupRecord) -> Result<(), Refusal>
    ensures { told (rows_of bank.new) (set_up result) ≡ set_group_of (rows_of bank.old) r }
{
    let i = r.id as usize;
    if bank.group_at(i).set {
        return Err(Refusal::SetUpAlready);
    }
    bank.put_group(
        i,
        Group {
            set: true,
            residence: r.residence as u64,
            last: 0,
        },
    );
    Ok(())
}

// Kind 7. The scheduler's bucket is full.
// Ruled out: a bucket that starts empty; a scheduler put into the group of its own number.
#[tactic(auto, unfolding(crate::specs::Meaning::set_scheduler_of, crate::specs::Meaning::refused_if))]
pub fn set_scheduler(bank: &mut Bank, r: SchedulerRecord) -> Result<(), Refusal>
    ensures { told (rows_of bank.new) (set_up result) ≡ set_scheduler_of (rows_of bank.old) r }
{
    let i = r.id as usize;
    if bank.scheduler_set(i) {
        return Err(Refusal::SetUpAlready);
    }
    let fresh = Scheduler {
        rate: r.cir,
        burst: r.cbs,
        level: bucket::full(r.cbs),
        last: 0,
    };
    bank.set_up_scheduler(i, r.group as usize, fresh);
    Ok(())
}

// Kind 8. `missing` is the first filter that names what is missing, `exceeding` the first that exceeds its scheduler's burst.
// Ruled out: 8 given where something is missing, too; a refused start after which the bridge has started.
#[tactic(auto, unfolding(crate::specs::Meaning::start_of, crate::specs::Meaning::refused_if))]
pub fn start(
    bank: &mut Bank,
    r: StartRecord,
    missing: Option<(usize, Filter)>,
    exceeding: Option<(usize, Filter)>,
) -> Result<(), Refusal>
    ensures { told (rows_of bank.new) (set_up result) ≡ start_of (rows_of bank.old) r missing exceeding }
{
    if missing.is_some() || some_stray(bank) || some_groupless(bank) {
        return Err(Refusal::Missing);
    }
    if exceeding.is_some() {
        return Err(Refusal::BurstTooSmall);
    }
    bank.put_classes(r.classes as u64);
    Ok(())
}

// Whether the gate of some entry is missing.
fn some_stray(bank: &Bank) -> bool
    ensures { result ≡ some_of (stray_of (rows_of bank.now)) gate_count }
{
    (0..sizes::GATES).any(|i| !bank.gate_set(i) && 0 < bank.entries_at(i))
}

// Whether the group of some scheduler is missing.
fn some_groupless(bank: &Bank) -> bool
    ensures { result ≡ some_of (groupless_of (rows_of bank.now)) scheduler_count }
{
    (0..sizes::SCHEDULERS).any(|i| bank.scheduler_set(i)
        && !bank.group_at(bank.scheduler_group(i)).set)
}

// Kind 10. `row` is the row of the filter table at the place that the record names. A number that is no flag's is that of nothing set up.
// Ruled out: a clear of one gate flag that takes down the other; a flag cleared at a place that counts as empty.
#[tactic(auto, unfolding(crate::specs::Meaning::clear_of, crate::specs::Meaning::clear_oversize_of, crate::specs::Meaning::clear_invalid_receive_of, crate::specs::Meaning::clear_octets_of, crate::specs::Meaning::clear_red_of, crate::specs::Meaning::refused_if))]
pub fn clear(bank: &mut Bank, r: ClearRecord, row: Filter) -> Result<(), Refusal>
    ensures { told (rows_of bank.new) (set_up result) ≡ clear_of (rows_of bank.old) r row }
{
    let i = r.id as usize;
    match Flag::try_from(r.flag) {
        Ok(Flag::Oversize) if row.counts(bank) => bank.put_oversize(i, false),
        Ok(Flag::InvalidReceive) if bank.gate_set(i) => {
            let mut gate = bank.gate_at(i);
            gate.invalid_receive_flag = false;
            bank.put_gate_state(i, gate);
        }
        Ok(Flag::Octets) if bank.gate_set(i) => {
            let mut gate = bank.gate_at(i);
            gate.octets_flag = false;
            bank.put_gate_state(i, gate);
        }
        Ok(Flag::Red) if bank.meter_set(i) => {
            let mut meter = bank.meter_at(i);
            meter.red_flag = false;
            bank.put_meter_state(i, meter);
        }
        _ => return Err(Refusal::NotSetUp),
    }
    Ok(())
}
