// An ATS scheduler: when a frame becomes eligible, and what its bucket then holds (01, Schedulers).
#![tactic(auto)]

ghost use Rattle.std.specs.Prelude.{◌≡◌};
ghost use Rattle.scheduler.specs.declared.Stepped.{Stepped};
ghost use Rattle.scheduler.specs.Meaning.{scheduler_step_of, scheduler_in_range};

use bucket::{Octets, Rate};

#[derive(Clone, Copy)]
pub struct Scheduler {
    // CIR.
    pub rate: Rate,
    // CBS.
    pub burst: Octets,
    // What the bucket held at `last`, in grains.
    pub level: u64,
    // The eligibility time given last, in ns; 0 if none.
    pub last: u64,
}

// What becomes of a frame. `scheduler_number_of` in specs/ has document 01's number for each case.
// Kept: a refusal is an outcome and no Err: `scheduler_step_of` and the theorem `scheduler_refuses_none` speak of it so.
#[derive(Clone, Copy)]
pub enum Outcome {
    // Eligible at this time, in ns.
    Admitted { at: u64 },
    // Residence exceeded.
    Dropped,
    // A number out of range, a bucket above its burst or a length above the burst.
    Refused,
}

#[derive(Clone, Copy)]
pub struct Stepped {
    pub scheduler: Scheduler,
    pub outcome: Outcome,
}

// A frame as it is offered to a scheduler, and what its group says then.
#[derive(Clone, Copy)]
pub struct Offer {
    // The group's last time, in ns.
    pub group: u64,
    // The group's limit of residence, in ns.
    pub residence: u64,
    pub arrival: u64,
    // Overhead included.
    pub length: Octets,
}

impl Scheduler {
    // One frame. The scheduler is lent and stays where it is (01: "lent to the step and updated there"). Where the frame is admitted, the
    // group's last time is the outcome's.
    // Ruled out: a drop or a refusal that changes the scheduler; a wait rounded up and added again and again, so that case D gets 2668.
    #[tactic(auto, using(crate::proofs::Range::ranged, crate::proofs::Cases::enough), unfolding(crate::specs::Meaning::scheduler_step_of))]
    pub fn step_in_place(&mut self, o: Offer) -> Outcome
        ensures { ◌≡◌ {A = Stepped} (record { scheduler = self.new; outcome = result }) (scheduler_step_of self.old o.group o.residence o.arrival o.length) }
    {
        if !self.in_range(o) {
            return Outcome::Refused;
        }
        let need = (o.length.0 as u64) * bucket::GRAINS;
        let filled = self.last + bucket::wait(self.level, self.rate, need);
        let at = o.arrival.max(o.group.max(filled));
        if o.arrival + o.residence < at {
            return Outcome::Dropped;
        }
        let full = (self.burst.0 as u64) * bucket::GRAINS;
        self.level = bucket::grow(self.level, self.rate, full, at - self.last) - need;
        self.last = at;
        Outcome::Admitted { at }
    }

    // The same for a caller that has the scheduler by value: it is lent to `step_in_place`, and given back beside the outcome.
    // Ruled out: the outcome of another frame; an eligibility time that leaves the group out.
    pub fn offered(self, o: Offer) -> Stepped
        ensures { result ≡ scheduler_step_of self o.group o.residence o.arrival o.length }
    {
        let mut scheduler = self;
        let outcome = scheduler.step_in_place(o);
        Stepped { scheduler, outcome }
    }

    #[tactic(auto, unfolding(crate::specs::Meaning::scheduler_in_range))]
    fn in_range(&self, o: Offer) -> bool
        ensures { result ≡ scheduler_in_range self.now o.group o.residence o.arrival o.length }
    {
        let octets = self.burst.0 as u64;
        octets <= 1_000_000
            && (1 <= octets)
                & (self.level <= octets * bucket::GRAINS)
                & (o.length.0 as u64 <= octets)
                & (1 <= self.rate.0)
                & (self.rate.0 <= 10_000_000_000)
                & (self.last <= 4_611_686_019_427_387_904)
                & (o.group <= 4_611_686_019_427_387_904)
                & (o.arrival <= 4_611_686_018_427_387_904)
                & (1 <= o.residence)
                & (o.residence <= 1_000_000_000)
    }
}
