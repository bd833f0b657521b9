// A flow meter: two token buckets that colour a frame green, yellow or red (01, Meters: MEF 10.3 for one flow).
#![tactic(auto)]

ghost use Rattle.std.specs.Prelude.{◌≡◌};
ghost use Rattle.meter.specs.Meaning.{fresh_meter_of, colour_of, filled_of, painted_of, meter_in_range};
ghost use Rattle.meter.specs.Range.{Ready};

use bucket::{Octets, Rate};

#[derive(Clone, Copy)]
pub struct Meter {
    pub cir: Rate,
    pub cbs: Octets,
    pub eir: Rate,
    pub ebs: Octets,
    pub coupling: bool,
    pub colour_aware: bool,
    pub drop_on_yellow: bool,
    pub red_block: bool,
    pub red_flag: bool,
    // What the committed bucket held at `last`, in grains.
    pub committed: u64,
    // What the excess bucket held at `last`, in grains.
    pub excess: u64,
    // The time of the last fill, in ns; 0 if none.
    pub last: u64,
}

// What becomes of a frame. `meter_number_of` in specs/ has document 01's number for each case.
// Kept: a refusal is an outcome and no Err: `colour_of` and the theorem `meter_refuses_none` speak of it so.
#[derive(Clone, Copy)]
pub enum Outcome {
    Green,
    // Passes, drop eligible from here on.
    Yellow,
    // Drop on yellow.
    YellowDropped,
    Red,
    // A number out of range, or a bucket above its burst.
    OutOfRange,
    // A time before the last fill.
    TooEarly,
}

#[derive(Clone, Copy)]
pub struct Metered {
    pub meter: Meter,
    pub outcome: Outcome,
}

impl Meter {
    // A meter whose buckets are full. A burst above 1,000,000 octets is out of range, and counts as that here.
    // Ruled out: empty buckets; the committed bucket at the excess burst.
    // Kept: a parameter for each field of a meter's record, as `fresh_meter_of` has them: a struct of the eight would be a second record.
    pub fn fresh(
        cir: Rate,
        cbs: Octets,
        eir: Rate,
        ebs: Octets,
        coupling: bool,
        colour_aware: bool,
        drop_on_yellow: bool,
        red_block: bool,
    ) -> Meter
        ensures { result ≡ fresh_meter_of cir cbs eir ebs coupling colour_aware drop_on_yellow red_block }
    {
        Meter {
            cir,
            cbs,
            eir,
            ebs,
            coupling,
            colour_aware,
            drop_on_yellow,
            red_block,
            red_flag: false,
            committed: bucket::full(cbs),
            excess: bucket::full(ebs),
            last: 0,
        }
    }

    // A frame of `msdu` octets at `time`, in ns: the meter fills, then colours the frame and spends what it takes.
    // Ruled out: with coupling, committed tokens above CBS that are lost; a frame dropped for yellow that sets the red flag.
    #[tactic(auto, using(crate::specs::Range::in_range), unfolding(crate::specs::Meaning::colour_of))]
    pub fn colour(self, time: u64, msdu: Octets, drop_eligible: bool) -> Metered
        ensures { result ≡ colour_of self time msdu drop_eligible }
    {
        if !self.in_range(time, msdu) {
            return Metered {
                meter: self,
                outcome: Outcome::OutOfRange,
            };
        }
        if time < self.last {
            return Metered {
                meter: self,
                outcome: Outcome::TooEarly,
            };
        }
        let need = (msdu.0 as u64) * bucket::GRAINS;
        self.fill(time).paint(need, drop_eligible)
    }

    #[tactic(auto, unfolding(crate::specs::Meaning::meter_in_range))]
    fn in_range(self, time: u64, msdu: Octets) -> bool
        ensures { result ≡ meter_in_range self time msdu }
    {
        let cbs = self.cbs.0 as u64;
        let ebs = self.ebs.0 as u64;
        (cbs <= 1_000_000) & (ebs <= 1_000_000)
            && (self.committed <= cbs * bucket::GRAINS)
                & (self.excess <= ebs * bucket::GRAINS)
                & (self.cir.0 <= 10_000_000_000)
                & (self.eir.0 <= 10_000_000_000)
                & (self.last <= 4_611_686_018_427_387_904)
                & (time <= 4_611_686_018_427_387_904)
                & (msdu.0 <= 2000)
    }

    // Of what the committed rate brings, all that matters is what fits in both buckets.
    #[tactic(auto, unfolding(crate::specs::Meaning::filled_of))]
    fn fill(self, time: u64) -> Meter
        requires { Ready self time }
        ensures { result ≡ filled_of self time }
    {
        let d = time - self.last;
        let cbs = (self.cbs.0 as u64) * bucket::GRAINS;
        let ebs = (self.ebs.0 as u64) * bucket::GRAINS;
        let committed = bucket::grow(self.committed, self.cir, cbs + ebs, d);
        let excess = bucket::grow(self.excess, self.eir, ebs, d);
        let over = if self.coupling {
            committed.saturating_sub(cbs)
        } else {
            0
        };
        Meter {
            committed: committed.min(cbs),
            excess: (excess + over).min(ebs),
            last: time,
            ..self
        }
    }

    #[tactic(auto, unfolding(crate::specs::Meaning::painted_of))]
    fn paint(self, need: u64, drop_eligible: bool) -> Metered
        ensures { result ≡ painted_of self need drop_eligible }
    {
        if self.red_flag {
            return Metered {
                meter: self,
                outcome: Outcome::Red,
            };
        }
        if (!drop_eligible | !self.colour_aware) & (need <= self.committed) {
            return Metered {
                meter: Meter {
                    committed: self.committed - need,
                    ..self
                },
                outcome: Outcome::Green,
            };
        }
        if need <= self.excess {
            return Metered {
                meter: Meter {
                    excess: self.excess - need,
                    ..self
                },
                outcome: if self.drop_on_yellow {
                    Outcome::YellowDropped
                } else {
                    Outcome::Yellow
                },
            };
        }
        Metered {
            meter: Meter {
                red_flag: self.red_block,
                ..self
            },
            outcome: Outcome::Red,
        }
    }
}
