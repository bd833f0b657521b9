// One step of a scheduler, of a meter and of a gate, each kept in words that are lent, as C and Rust call it: what bench/ measures.
// Kept: words and numbers in place of structs and enums are the C interface of these functions.
#![tactic(auto)]

ghost use Rattle.std.specs.Prelude.{◌≡◌};
ghost use Rattle.bench_steps.specs.Words.{Stepped};
ghost use Rattle.bench_steps.specs.Scheduler.{offered_of};
ghost use Rattle.bench_steps.specs.Meter.{coloured_of};
ghost use Rattle.bench_steps.specs.Gate.{gated_of};

use bucket::{Octets, Rate};
use gate::Gate;
use meter::Meter;
use scheduler::{Offer, Scheduler};

// Words 0 to 4: CIR, CBS, level in grains, last eligibility time, the group's last time. Answers 0, or document 01's number.
// Ruled out: the level stored in the word of the last time; an answer of 0 for a frame that is dropped.
#[unsafe(no_mangle)]
#[tactic(auto, unfolding(crate::specs::Scheduler::offered_of))]
pub extern "C" fn bench_scheduler_step(
    words: &mut [u64; 8],
    residence: u64,
    arrival: u64,
    length: u32,
) -> u64
    ensures { ◌≡◌ {A = Stepped} (record { words = words.new; answer = result }) (offered_of words.old residence arrival length) }
{
    let mut s = Scheduler {
        rate: Rate(words[0]),
        burst: Octets((words[1] % 4_294_967_296) as u32),
        level: words[2],
        last: words[3],
    };
    let outcome = s.step_in_place(Offer {
        group: words[4],
        residence,
        arrival,
        length: Octets(length),
    });
    words[2] = s.level;
    words[3] = s.last;
    match outcome {
        scheduler::Outcome::Admitted { at } => {
            words[4] = at;
            0
        }
        scheduler::Outcome::Dropped => 8,
        scheduler::Outcome::Refused => 3,
    }
}

// Words 0 to 7: CIR, CBS, EIR, EBS, coupling, colour-aware, drop on yellow, red block. Words 8 to 11: red flag, committed and excess
// grains, time of the last fill. Answers 0 green, 1 yellow, or document 01's number.
// Ruled out: tokens stored in each other's word; an answer of green for a frame that is yellow.
#[unsafe(no_mangle)]
#[tactic(auto, unfolding(crate::specs::Meter::coloured_of))]
pub extern "C" fn bench_meter_step(
    words: &mut [u64; 16],
    time: u64,
    msdu: u32,
    drop_eligible: bool,
) -> u64
    ensures { ◌≡◌ {A = Stepped} (record { words = words.new; answer = result }) (coloured_of words.old time msdu drop_eligible) }
{
    let m = Meter {
        cir: Rate(words[0]),
        cbs: Octets((words[1] % 4_294_967_296) as u32),
        eir: Rate(words[2]),
        ebs: Octets((words[3] % 4_294_967_296) as u32),
        coupling: words[4] != 0,
        colour_aware: words[5] != 0,
        drop_on_yellow: words[6] != 0,
        red_block: words[7] != 0,
        red_flag: words[8] != 0,
        committed: words[9],
        excess: words[10],
        last: words[11],
    };
    let r = m.colour(time, Octets(msdu), drop_eligible);
    let n = r.meter;
    words[8] = n.red_flag as u64;
    words[9] = n.committed;
    words[10] = n.excess;
    words[11] = n.last;
    match r.outcome {
        meter::Outcome::Green => 0,
        meter::Outcome::Yellow => 1,
        meter::Outcome::YellowDropped => 6,
        meter::Outcome::Red => 7,
        meter::Outcome::OutOfRange => 3,
        meter::Outcome::TooEarly => 9,
    }
}

// Words 0 to 8: the fields of `gate::Gate` in their order; flags and count are stored back. Answers a frame's drop number times 256, or the
// IPV where it passes.
// Ruled out: the gate of the next frame is the one before this frame; a drop answers the IPV in force.
#[unsafe(no_mangle)]
#[tactic(auto, unfolding(crate::specs::Gate::gated_of))]
pub extern "C" fn bench_gate_step(list: &[u8], words: &mut [u64; 9], time: u64, msdu: u64) -> u64
    ensures { ◌≡◌ {A = Stepped} (record { words = words.new; answer = result }) (gated_of words.old list.now time msdu) }
{
    let g = Gate {
        opened: words[0] != 0,
        ipv: (words[1] % 256) as u8,
        invalid_receive_block: words[2] != 0,
        octets_block: words[3] != 0,
        base: words[4],
        invalid_receive_flag: words[5] != 0,
        octets_flag: words[6] != 0,
        since: words[7],
        spent: words[8],
    };
    let r = gate::step(g, list, time, msdu);
    let n = r.gate;
    words[5] = n.invalid_receive_flag as u64;
    words[6] = n.octets_flag as u64;
    words[7] = n.since;
    words[8] = n.spent;
    match r.outcome {
        gate::Outcome::Passed(ipv) => ipv as u64,
        gate::Outcome::Blocked => 3 * 256,
        gate::Outcome::Closed => 4 * 256,
        gate::Outcome::TooManyOctets => 5 * 256,
    }
}
