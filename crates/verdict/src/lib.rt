// What a call answers: a refusal, or how many octets it used and what came of the record (01, Refusal numbers; 01, A frame's path).
#![tactic(auto)]

ghost use Rattle.std.specs.Prelude.{◌≡◌};
ghost use Rattle.verdict.specs.Meaning.{drop_number_of};

// Why a frame is dropped, with document 01's number of each reason.
#[derive(Clone, Copy)]
pub enum Drop {
    // The oversize flag stands.
    OversizeBlocked = 1,
    // The MSDU is greater than the filter's max SDU.
    Oversize = 2,
    // The gate's invalid-receive or octets flag stands.
    GateBlocked = 3,
    GateClosed = 4,
    // The MSDU is greater than the octets left.
    GateOctets = 5,
    // Yellow, with drop on yellow.
    Yellow = 6,
    Red = 7,
    // Residence exceeded.
    Residence = 8,
}

// Ruled out: drop 7 for a closed gate; one number for two reasons.
impl From<Drop> for u8 {
    ghost from_gives = { λ d n. n ≡ drop_number_of d };

    fn from(d: Drop) -> u8 {
        d as u8
    }
}

// What a frame that passes carries.
#[derive(Clone, Copy)]
pub struct Pass {
    // The internal priority: the gate's IPV, or the frame's own.
    pub priority: u8,
    pub class: u8,
    // 1 where the frame is drop eligible; the arrival's own number where no meter is named or it leaves the mark.
    pub drop_mark: u8,
    // Whether there is an eligibility time; `eligible` is 0 where there is none.
    // Kept: a flag and a time, since `transomrib::spelled` and `text::Page::put_pass` answer for any two.
    pub timed: bool,
    // In ns.
    pub eligible: u64,
}

// What came of a record that was taken.
// Kept: three cases by name. A drop is no error of the call, and `said` and `answer_of` make document 01's verdict of each.
#[derive(Clone, Copy)]
pub enum Outcome {
    // A record that is no arrival.
    Done,
    Passed(Pass),
    Dropped(Drop),
}

// Where a record is taken. A refusal uses no octets.
#[derive(Clone, Copy)]
pub struct Taken {
    // The record's whole length.
    pub used: usize,
    pub outcome: Outcome,
}
