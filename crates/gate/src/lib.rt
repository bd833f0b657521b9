// Gates and their control lists: document 01, "Gate lists" and step 3 of "A frame's path".
//
// Times and intervals are nanoseconds, lengths and maxima octets of MSDU. A list is lent as the octets of its records
// (01, kind 4: eleven for an entry, its gate's number first); only its first eight whole entries count.
#![tactic(auto)]

ghost use Rattle.std.specs.Prelude.{◌≡◌, ◌^◌, ◌<◌, ◌≤◌, length, map};
ghost use Rattle.sizes.specs.Meaning.{entry_count};
ghost use Rattle.gate.specs.Entries.{entry_in};
ghost use Rattle.gate.specs.Meaning.{entry_at, word_of, entries_of, cycle_of, found_of, in_force_of, gate_answer, closed_of, limited_of, passed_of, gate_step_of};

// A gate as its record sets it up (01, kind 3), with its flags and its count. All zeros but for the record's fields is a
// fresh gate.
#[derive(Clone, Copy)]
pub struct Gate {
    // The state and the IPV (8 null) that hold where no entry is in force.
    // Kept: the IPV is a number, since a word that no record wrote is handed on as it stands (`gate`, crate bank; `bench_gate_step`).
    pub opened: bool,
    pub ipv: u8,
    pub invalid_receive_block: bool,
    pub octets_block: bool,
    pub base: u64,
    pub invalid_receive_flag: bool,
    pub octets_flag: bool,
    // What has passed in the interval that began at `since`. Every other interval has its whole maximum left, so a new
    // cycle resets nothing.
    pub since: u64,
    pub spent: u64,
}

// An entry of a list.
#[derive(Clone, Copy)]
pub struct Entry {
    pub opened: bool,
    pub ipv: u8,
    pub interval: u64,
    // 2^32 - 1 is no limit.
    // Kept: a number, as `entry_at` and the laws of the walk (`found_here`) have it.
    pub maximum: u64,
}

// From the octets of its record.
// Ruled out: a state other than 1 is closed; the octet maximum is read where the interval stands.
impl From<&[u8; sizes::ENTRY]> for Entry {
    ghost from_gives = { λ octets r. r ≡ entry_at octets.now 0 };

    fn from(octets: &[u8; sizes::ENTRY]) -> Entry {
        Entry {
            opened: octets[1] != 0,
            ipv: octets[2],
            interval: interval(octets),
            maximum: word([octets[7], octets[8], octets[9], octets[10]]),
        }
    }
}

// An entry in force: its place in the list, and when the interval in which it is in force began.
#[derive(Clone, Copy)]
pub struct Found {
    pub index: usize,
    pub start: u64,
    pub entry: Entry,
}

// What becomes of a frame. `gate_number_of` in specs/ has document 01's number for each case.
// Kept: a drop of the gate is an outcome and no Err: `gate_step_of`, `gate_number_of` and the laws on them (`passed_at_most_left`) speak of it so.
#[derive(Clone, Copy)]
pub enum Outcome {
    // With the IPV in force, 8 null.
    Passed(u8),
    Blocked,
    Closed,
    TooManyOctets,
}

#[derive(Clone, Copy)]
pub struct Stepped {
    pub gate: Gate,
    pub outcome: Outcome,
}

impl Stepped {
    fn new(gate: Gate, outcome: Outcome) -> Stepped
        ensures { result ≡ gate_answer gate outcome }
    {
        Stepped { gate, outcome }
    }
}

// A frame of `msdu` octets that reaches the gate at `time`: what it gets, and the gate after it.
// Ruled out: a frame of just the octets left is dropped; a closed gate also sets the octets flag.
#[tactic(auto, unfolding(crate::specs::Meaning::gate_step_of))]
pub fn step(gate: Gate, list: &[u8], time: u64, msdu: u64) -> Stepped
    ensures { result ≡ gate_step_of gate (entries_of list.now) time msdu }
{
    if gate.invalid_receive_flag | gate.octets_flag {
        return Stepped::new(gate, Outcome::Blocked);
    }
    gate.pass(in_force(list, gate.base, time), msdu)
}

impl Gate {
    // With no flag, by what is in force.
    #[tactic(auto, unfolding(crate::specs::Meaning::passed_of))]
    fn pass(self, here: Option<Found>, msdu: u64) -> Stepped
        ensures { result ≡ passed_of self here msdu }
    {
        match here {
            None if self.opened => Stepped::new(self, Outcome::Passed(self.ipv)),
            Some(found) if found.entry.opened => self.limit(found, msdu),
            _ => self.close(),
        }
    }

    fn close(mut self) -> Stepped
        ensures { result ≡ closed_of self }
    {
        self.invalid_receive_flag |= self.invalid_receive_block;
        Stepped::new(self, Outcome::Closed)
    }

    // An open entry, by the octets left.
    #[tactic(auto, unfolding(crate::specs::Meaning::limited_of, crate::specs::Meaning::spent_of))]
    fn limit(mut self, found: Found, msdu: u64) -> Stepped
        ensures { result ≡ limited_of self found msdu }
    {
        let Found { start, entry, .. } = found;
        let passed = Outcome::Passed(entry.ipv);
        if entry.maximum == u64::from(u32::MAX) {
            return Stepped::new(self, passed);
        }
        let spent = if self.since == start { self.spent } else { 0 };
        // A count above the maximum, which no frame has written, leaves nothing.
        let left = entry.maximum.saturating_sub(spent);
        if msdu > left {
            self.octets_flag |= self.octets_block;
            return Stepped::new(self, Outcome::TooManyOctets);
        }
        self.since = start;
        self.spent = spent + msdu;
        Stepped::new(self, passed)
    }
}

// The entry in force at `time`, if any.
// Ruled out: at an interval's end its entry is still in force; at the base time none is.
#[tactic(auto, unfolding(crate::specs::Meaning::in_force_of))]
pub fn in_force(list: &[u8], base: u64, time: u64) -> Option<Found>
    ensures { result ≡ in_force_of (entries_of list.now) base time }
{
    if time < base {
        return None;
    }
    let entries = entries(list);
    let since = time - base;
    let cycle = cycle(entries);
    // A cycle of 0 takes nothing off.
    let offset = if cycle == 0 { since } else { since % cycle };
    find(entries, time, offset)
}

// The whole entries of a list, of which the first eight count, each as its octets.
#[tactic(auto, using(crate::proofs::Walk::entries_apart))]
fn entries(list: &[u8]) -> &[[u8; sizes::ENTRY]]
    ensures value { map entry_in result.now ≡ entries_of list.now }
    ensures bound { length result.now ≤ entry_count }
{
    let (whole, _) = list.as_chunks();
    &whole[..whole.len().min(sizes::ENTRIES)]
}

#[tactic(auto, using(crate::proofs::Walk::cycle_sum))]
fn cycle(entries: &[[u8; sizes::ENTRY]]) -> u64
    requires { length entries.now ≤ entry_count }
    ensures { result ≡ cycle_of (map entry_in entries.now) }
{
    entries.iter().map(interval).sum()
}

// The entry in whose interval `offset` falls, counted from the start of a cycle.
#[tactic(auto, using(crate::proofs::Walk::seen_here, crate::proofs::Walk::seen_later, crate::proofs::Walk::seen_none))]
fn find(entries: &[[u8; sizes::ENTRY]], time: u64, offset: u64) -> Option<Found>
    requires { offset ≤ time }
    ensures { result ≡ found_of time (map entry_in entries.now) 0 offset }
{
    let mut x = offset;
    for (index, octets) in entries.iter().enumerate() {
        let interval = interval(octets);
        if x < interval {
            return Some(Found {
                index,
                start: time - x,
                entry: Entry::from(octets),
            });
        }
        x -= interval;
    }
    None
}

// All that the walk over a list reads of an entry.
fn interval(octets: &[u8; sizes::ENTRY]) -> u64
    ensures value { result ≡ (entry_in octets.now).interval }
    ensures bound { result < 2 ^ 32 }
{
    word([octets[3], octets[4], octets[5], octets[6]])
}

fn word(octets: [u8; 4]) -> u64
    ensures value { result ≡ word_of octets 0 }
    ensures bound { result < 2 ^ 32 }
{
    u64::from(u32::from_be_bytes(octets))
}
