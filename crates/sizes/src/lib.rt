// The sizes of a bridge, each named once; what other crates size by them is derived from these.
// `specs/Meaning.antt` has the same names for the definitions. A test holds include/transomrib.h to them.
#![tactic(auto)]

// Places of the filter table.
pub const FILTERS: usize = 64;

// Ports.
pub const PORTS: usize = 8;

// Gates, and the entries that the list of one gate may have.
pub const GATES: usize = 16;

pub const ENTRIES: usize = 8;

// Flow meters.
pub const METERS: usize = 16;

// Scheduler groups.
pub const GROUPS: usize = 16;

// Schedulers.
pub const SCHEDULERS: usize = 32;

// The words of a row of the bank.
pub const ROW: usize = 8;

// The octets of an entry of a gate list: the body of its record.
pub const ENTRY: usize = 11;

// The octets that are kept for the list of one gate.
pub const LIST: usize = ENTRIES * ENTRY;

// The octets of all gate lists.
pub const LISTS: usize = GATES * LIST;

// The last identifier of each object.
pub const LAST_FILTER: u8 = (FILTERS - 1) as u8;

pub const LAST_PORT: u8 = (PORTS - 1) as u8;

pub const LAST_GATE: u8 = (GATES - 1) as u8;

pub const LAST_METER: u8 = (METERS - 1) as u8;

pub const LAST_GROUP: u8 = (GROUPS - 1) as u8;

pub const LAST_SCHEDULER: u8 = (SCHEDULERS - 1) as u8;
