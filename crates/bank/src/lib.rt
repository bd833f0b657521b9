// The state of the bridge, kept as words that are lent: rows of eight words, each row one object's, or the half of one.
// `specs/Meaning.antt` says which row is whose and which word is what. All zeros is a fresh bridge.
//
// Every function is total: an index is taken modulo the size of its table, and every word has a meaning.
#![tactic(auto)]

ghost use Rattle.std.specs.Prelude.{◌≡◌, ◌+◌, ◌%◌, ◌<◌, ◌≤◌};
ghost use Rattle.sizes.specs.Meaning.{row_words};
ghost use Rattle.bank.specs.Meaning.{rows_of, with_row, bank_rows, word, with_word, component, with_classes, with_clock, with_overhead, port, with_port, with_discarded, counters, counter_place, bump, with_oversize, gate, gate_is_set, entries, with_gate, with_entries, with_gate_state, meter, meter_is_set, with_meter, with_meter_state, group, with_group, with_group_last, scheduler, scheduler_is_set, scheduler_group, burst, octets_in, with_scheduler, with_scheduler_state};

use bucket::{Octets, Rate};
use gate::Gate;
use meter::Meter;
use scheduler::Scheduler;

// Kept: a plain struct and no `impl Model`. Contracts read it as its rows, which are a function, and that no `Value` can be; with its words as a
// list for the value each clause would say `rows_in` where it says `rows_of`.
#[repr(C)]
#[derive(Clone, Copy)]
pub struct Bank {
    pub words: [u64; WORDS],
}

// The octets of the gate lists: for each gate, the bodies of its entries' records as they came.
pub type Lists = [u8; sizes::LISTS];

// What is the bridge component's own, and no table's.
#[derive(Clone, Copy)]
pub struct Component {
    // Traffic classes; 0 before start. Kept: the word that C lends, of which 0 is memory of zeros (`fresh_is_zeros`).
    pub classes: u64,
    // The time of the last taken arrival, in ns; 0 if none.
    pub clock: u64,
    // The largest port overhead, in octets.
    pub overhead: u64,
}

#[derive(Clone, Copy)]
pub struct Port {
    // Kept: a flag and no Option around the rest: a port without a record counts discarded frames, too (`port`, specs/Meaning.antt).
    pub set: bool,
    // In octets.
    pub overhead: u8,
    // DiscardedFrames.
    pub discarded: u64,
}

// The counters of a filter, and its oversize flag.
#[derive(Clone, Copy)]
pub struct Counters {
    pub matching: u64,
    pub passing_sdu: u64,
    pub not_passing_sdu: u64,
    pub passing: u64,
    pub not_passing: u64,
    pub red: u64,
    pub oversize: bool,
}

// A scheduler group.
#[derive(Clone, Copy)]
pub struct Group {
    // Kept: a flag and no Option: the words of a group that is not set up are read as they stand (`group`, specs/Meaning.antt).
    pub set: bool,
    // The most that a frame may wait, in ns.
    pub residence: u64,
    // The eligibility time given last, in ns; 0 if none.
    pub last: u64,
}

// What is counted of a filter.
#[derive(Clone, Copy)]
pub enum Counter {
    Matching = 0,
    PassingSdu = 1,
    NotPassingSdu = 2,
    Passing = 3,
    NotPassing = 4,
    Red = 5,
}

// The rows of the objects of one kind: the first of them, and how many there are.
#[derive(Clone, Copy)]
struct Table {
    first: usize,
    rows: usize,
}

// The counters' table is the last one: more filters shift nothing.
const COMPONENT: usize = 0;

const PORTS: Table = Table {
    first: 1,
    rows: sizes::PORTS,
};

const GATES: Table = Table {
    first: PORTS.first + PORTS.rows,
    rows: sizes::GATES,
};

const GATE_STATES: Table = Table {
    first: GATES.first + GATES.rows,
    rows: sizes::GATES,
};

const METERS: Table = Table {
    first: GATE_STATES.first + GATE_STATES.rows,
    rows: sizes::METERS,
};

const METER_STATES: Table = Table {
    first: METERS.first + METERS.rows,
    rows: sizes::METERS,
};

const GROUPS: Table = Table {
    first: METER_STATES.first + METER_STATES.rows,
    rows: sizes::GROUPS,
};

const SCHEDULERS: Table = Table {
    first: GROUPS.first + GROUPS.rows,
    rows: sizes::SCHEDULERS,
};

const COUNTERS: Table = Table {
    first: SCHEDULERS.first + SCHEDULERS.rows,
    rows: sizes::FILTERS,
};

const ROWS: usize = COUNTERS.first + COUNTERS.rows;

pub const WORDS: usize = ROWS * sizes::ROW;

impl Table {
    // The row of object `i`.
    fn row(self, i: usize) -> usize
        requires some { 0 < self.rows }
        requires fits { self.first + self.rows ≤ bank_rows }
        ensures { result ≡ self.first + i % self.rows }
    {
        self.first + i % self.rows
    }
}

impl Bank {
    // Ruled out: the row of a port; the largest overhead as the clock.
    pub fn component_at(&self) -> Component
        ensures { result ≡ component (rows_of self.now) }
    {
        let row = self.row(COMPONENT);
        Component {
            classes: row[0],
            clock: row[1],
            overhead: row[2],
        }
    }

    // Kept, of the stores and tests of one word: a name for each, a line long, over `put_word` and `word`. One public function over a table, a row
    // and a word would say no more, and `with_clock`, `gate_is_set` and their like, which callers cite, would go into each of its calls.

    // The traffic classes alone: a start is taken.
    // Ruled out: a store into the row of a port; the classes as the clock.
    pub fn put_classes(&mut self, n: u64)
        ensures { rows_of self.new ≡ with_classes (rows_of self.old) n }
    {
        self.put_word(COMPONENT, 0, n);
    }

    // The clock alone.
    // Ruled out: a store into the row of a port; the time as the largest overhead.
    pub fn put_clock(&mut self, t: u64)
        ensures { rows_of self.new ≡ with_clock (rows_of self.old) t }
    {
        self.put_word(COMPONENT, 1, t);
    }

    // The largest overhead alone.
    // Ruled out: a store into the row of a port; the overhead as the number of classes.
    pub fn put_overhead(&mut self, n: u64)
        ensures { rows_of self.new ≡ with_overhead (rows_of self.old) n }
    {
        self.put_word(COMPONENT, 2, n);
    }

    // Ruled out: the row of the component for port 0; a port not set up because its word is neither 0 nor 1.
    pub fn port_at(&self, i: usize) -> Port
        ensures { result ≡ port (rows_of self.now) i }
    {
        let row = self.row(PORTS.row(i));
        Port {
            set: row[0] != 0,
            overhead: (row[1] % 256) as u8,
            discarded: row[2],
        }
    }

    // Ruled out: a store into the row of the component; the overhead as the number of discarded frames.
    pub fn put_port(&mut self, i: usize, x: Port)
        ensures { rows_of self.new ≡ with_port (rows_of self.old) i x }
    {
        self.put_row(
            PORTS.row(i),
            [x.set as u64, x.overhead as u64, x.discarded, 0, 0, 0, 0, 0],
        );
    }

    // DiscardedFrames alone.
    // Ruled out: a store into another row; a store into the word that says whether the port is set up.
    pub fn put_discarded(&mut self, i: usize, n: u64)
        ensures { rows_of self.new ≡ with_discarded (rows_of self.old) i n }
    {
        self.put_word(PORTS.row(i), 2, n);
    }

    // The counters of filter `i`.
    // Ruled out: the row of a port for filter 0; an oversize flag that is down because its word is neither 0 nor 1.
    pub fn counters_at(&self, i: usize) -> Counters
        ensures { result ≡ counters (rows_of self.now) i }
    {
        let row = self.row(COUNTERS.row(i));
        Counters {
            matching: row[0],
            passing_sdu: row[1],
            not_passing_sdu: row[2],
            passing: row[3],
            not_passing: row[4],
            red: row[5],
            oversize: row[6] != 0,
        }
    }

    // One more of what `c` counts of filter `i`. After 2^64 - 1 a counter goes to 0.
    // Ruled out: a store into the row of a scheduler; a counter that stays at 2^64 - 1.
    pub fn count(&mut self, i: usize, c: Counter)
        ensures { rows_of self.new ≡ bump (rows_of self.old) i c }
    {
        let r = COUNTERS.row(i);
        let k = usize::from(c);
        let n = self.word(r, k);
        self.put_word(r, k, n.wrapping_add(1));
    }

    // The oversize flag of filter `i` alone.
    // Ruled out: a store into the row of a scheduler; the flag as REDFrames.
    pub fn put_oversize(&mut self, i: usize, flag: bool)
        ensures { rows_of self.new ≡ with_oversize (rows_of self.old) i flag }
    {
        self.put_word(COUNTERS.row(i), 6, flag as u64);
    }

    // Ruled out: the state of another gate; the octets flag read from the word of the other.
    pub fn gate_at(&self, i: usize) -> Gate
        ensures { result ≡ gate (rows_of self.now) i }
    {
        let row = self.row(GATES.row(i));
        let state = self.row(GATE_STATES.row(i));
        Gate {
            opened: row[1] != 0,
            ipv: (row[2] % 256) as u8,
            invalid_receive_block: row[3] != 0,
            octets_block: row[4] != 0,
            base: row[5],
            invalid_receive_flag: state[0] != 0,
            octets_flag: state[1] != 0,
            since: state[2],
            spent: state[3],
        }
    }

    // Whether gate `i` is set up.
    // Ruled out: the word of another table; a gate not set up because its word is neither 0 nor 1.
    pub fn gate_set(&self, i: usize) -> bool
        ensures { result ≡ gate_is_set (rows_of self.now) i }
    {
        self.word(GATES.row(i), 0) != 0
    }

    // How many entries the list of gate `i` has. A larger word, which no record writes, counts as a full list.
    // Ruled out: a ninth entry; the count of another gate.
    pub fn entries_at(&self, i: usize) -> usize
        ensures { result ≡ entries (rows_of self.now) i }
    {
        self.word(GATES.row(i), 6).min(sizes::ENTRIES as u64) as usize
    }

    // The record of the gate is taken. Its state, and the count of its entries, which may have come first, stay.
    // Kept: a parameter for each word that the record sets (`with_gate`): a `Gate` has others, which stay.
    // Ruled out: a store into the row of a filter; the count lost.
    pub fn set_up_gate(
        &mut self,
        i: usize,
        opened: bool,
        ipv: u8,
        invalid_receive_block: bool,
        octets_block: bool,
        base: u64,
    )
        ensures { rows_of self.new ≡ with_gate (rows_of self.old) i opened ipv invalid_receive_block octets_block base }
    {
        let r = GATES.row(i);
        let n = self.word(r, 6);
        self.put_row(
            r,
            [
                1,
                opened as u64,
                ipv as u64,
                invalid_receive_block as u64,
                octets_block as u64,
                base,
                n,
                0,
            ],
        );
    }

    // The count of entries alone.
    // Ruled out: a store into another row; a store into the word that says whether the gate is set up.
    pub fn put_entries(&mut self, i: usize, n: usize)
        ensures { rows_of self.new ≡ with_entries (rows_of self.old) i n }
    {
        self.put_word(GATES.row(i), 6, n as u64);
    }

    // The gate after a frame or a clear: its flags and its count.
    // Ruled out: a store into the record of a gate; the octets flag set by the other.
    pub fn put_gate_state(&mut self, i: usize, x: Gate)
        ensures { rows_of self.new ≡ with_gate_state (rows_of self.old) i x }
    {
        self.put_row(
            GATE_STATES.row(i),
            [
                x.invalid_receive_flag as u64,
                x.octets_flag as u64,
                x.since,
                x.spent,
                0,
                0,
                0,
                0,
            ],
        );
    }

    // Ruled out: the state of another meter; a burst cut to 16 bits.
    pub fn meter_at(&self, i: usize) -> Meter
        ensures { result ≡ meter (rows_of self.now) i }
    {
        let row = self.row(METERS.row(i));
        let state = self.row(METER_STATES.row(i));
        Meter {
            cir: Rate(row[1]),
            cbs: octets(row[2]),
            eir: Rate(row[3]),
            ebs: octets(row[4]),
            coupling: row[5] != 0,
            colour_aware: row[6] != 0,
            drop_on_yellow: row[7] != 0,
            red_block: state[4] != 0,
            red_flag: state[3] != 0,
            committed: state[0],
            excess: state[1],
            last: state[2],
        }
    }

    // Whether meter `i` is set up.
    // Ruled out: the word of another table; a meter not set up because its word is neither 0 nor 1.
    pub fn meter_set(&self, i: usize) -> bool
        ensures { result ≡ meter_is_set (rows_of self.now) i }
    {
        self.word(METERS.row(i), 0) != 0
    }

    // The record of the meter is taken.
    // Ruled out: a store into the row of a gate; the committed burst as the excess burst.
    pub fn set_up_meter(&mut self, i: usize, x: Meter)
        ensures { rows_of self.new ≡ with_meter (rows_of self.old) i x }
    {
        self.put_row(
            METERS.row(i),
            [
                1,
                x.cir.0,
                x.cbs.0 as u64,
                x.eir.0,
                x.ebs.0 as u64,
                x.coupling as u64,
                x.colour_aware as u64,
                x.drop_on_yellow as u64,
            ],
        );
        self.put_meter_state(i, x);
    }

    // The meter after a frame or a clear: its buckets, its last fill, its red flag. The red block is put back with them.
    // Ruled out: a store into the record of a meter; the red flag set because the block is enabled.
    pub fn put_meter_state(&mut self, i: usize, x: Meter)
        ensures { rows_of self.new ≡ with_meter_state (rows_of self.old) i x }
    {
        self.put_row(
            METER_STATES.row(i),
            [
                x.committed,
                x.excess,
                x.last,
                x.red_flag as u64,
                x.red_block as u64,
                0,
                0,
                0,
            ],
        );
    }

    // Ruled out: the row of a meter for group 0; a group not set up because its word is neither 0 nor 1.
    pub fn group_at(&self, i: usize) -> Group
        ensures { result ≡ group (rows_of self.now) i }
    {
        let row = self.row(GROUPS.row(i));
        Group {
            set: row[0] != 0,
            residence: row[1],
            last: row[2],
        }
    }

    // Ruled out: a store into the row of a meter; the residence and the last time changed over.
    pub fn put_group(&mut self, i: usize, x: Group)
        ensures { rows_of self.new ≡ with_group (rows_of self.old) i x }
    {
        self.put_row(
            GROUPS.row(i),
            [x.set as u64, x.residence, x.last, 0, 0, 0, 0, 0],
        );
    }

    // The last time of the group alone.
    // Ruled out: a store into another row; a store into the word that says whether the group is set up.
    pub fn put_group_last(&mut self, i: usize, t: u64)
        ensures { rows_of self.new ≡ with_group_last (rows_of self.old) i t }
    {
        self.put_word(GROUPS.row(i), 2, t);
    }

    // Ruled out: the row of a group for scheduler 0; a burst cut to 16 bits.
    pub fn scheduler_at(&self, i: usize) -> Scheduler
        ensures { result ≡ scheduler (rows_of self.now) i }
    {
        let row = self.row(SCHEDULERS.row(i));
        Scheduler {
            rate: Rate(row[2]),
            burst: octets(row[3]),
            level: row[4],
            last: row[5],
        }
    }

    // Whether scheduler `i` is set up.
    // Ruled out: the word of another table; a scheduler not set up because its word is neither 0 nor 1.
    pub fn scheduler_set(&self, i: usize) -> bool
        ensures { result ≡ scheduler_is_set (rows_of self.now) i }
    {
        self.word(SCHEDULERS.row(i), 0) != 0
    }

    // The group of scheduler `i`.
    // Ruled out: the residence of a group; a group above 15.
    pub fn scheduler_group(&self, i: usize) -> usize
        ensures { result ≡ scheduler_group (rows_of self.now) i }
    {
        (self.word(SCHEDULERS.row(i), 1) % sizes::GROUPS as u64) as usize
    }

    // The burst of scheduler `i`.
    // Ruled out: a word of another table; a burst cut to 16 bits.
    pub fn burst_at(&self, i: usize) -> Octets
        ensures { result ≡ burst (rows_of self.now) i }
    {
        octets(self.word(SCHEDULERS.row(i), 3))
    }

    // The record of the scheduler is taken.
    // Ruled out: a store into the row of a group; the level and the last time changed over.
    pub fn set_up_scheduler(&mut self, i: usize, group: usize, x: Scheduler)
        ensures { rows_of self.new ≡ with_scheduler (rows_of self.old) i group x }
    {
        self.put_row(
            SCHEDULERS.row(i),
            [
                1,
                group as u64,
                x.rate.0,
                x.burst.0 as u64,
                x.level,
                x.last,
                0,
                0,
            ],
        );
    }

    // The scheduler after a frame: its level and its last time.
    // Ruled out: a store into another row; a store into the word that says whether the scheduler is set up.
    pub fn put_scheduler_state(&mut self, i: usize, x: Scheduler)
        ensures { rows_of self.new ≡ with_scheduler_state (rows_of self.old) i x }
    {
        let r = SCHEDULERS.row(i);
        self.put_word(r, 4, x.level);
        self.put_word(r, 5, x.last);
    }

    // The words of a row.
    fn row(&self, r: usize) -> &[u64]
        requires { r < bank_rows }
        ensures { result.now ≡ rows_of self.now r }
    {
        let at = r * sizes::ROW;
        &self.words[at..at + sizes::ROW]
    }

    // The word `k` of a row.
    fn word(&self, r: usize, k: usize) -> u64
        requires { (r < bank_rows) × (k < row_words) }
        ensures { result ≡ word (rows_of self.now r) k }
    {
        self.words[r * sizes::ROW + k]
    }

    // A whole row.
    fn put_row(&mut self, r: usize, row: [u64; sizes::ROW])
        requires { r < bank_rows }
        ensures { rows_of self.new ≡ with_row (rows_of self.old) r row }
    {
        // Kept: `copy_from_slice` compares the two addresses first (measured: a third of a nanosecond on a frame's way).
        let at = r * sizes::ROW;
        for (k, v) in row.iter().enumerate() {
            self.words[at + k] = *v;
        }
    }

    // The word `k` of a row.
    fn put_word(&mut self, r: usize, k: usize, v: u64)
        requires { (r < bank_rows) × (k < row_words) }
        ensures { rows_of self.new ≡ with_word (rows_of self.old) r k v }
    {
        self.words[r * sizes::ROW + k] = v;
    }
}

// The word of a counter.
impl From<Counter> for usize {
    ghost from_gives = { λ c n. n ≡ counter_place c };

    fn from(c: Counter) -> usize {
        c as usize
    }
}

// Octets in a word: what is above their 32 bits is left out.
fn octets(w: u64) -> Octets
    ensures { result ≡ octets_in w }
{
    Octets((w % 4_294_967_296) as u32)
}
