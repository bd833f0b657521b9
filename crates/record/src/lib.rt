// The reader of document 01's records: octets, and whether a start was taken, give a refusal, or a record and how many octets it uses.
// specs/Meaning.antt has the table of kinds and fields that all of this follows, what reading means, and what is shown of a record.
#![tactic(auto)]

ghost use Rattle.std.specs.Prelude.{◌≡◌, ◌+◌, ◌≤◌, length, option_map};
ghost use Rattle.record.specs.Meaning.{kind_named, flag_said, flag_number_of, number_at, port, filter, gate, gate_entry, meter, group, scheduler, start, arrival, clear, refusal_number_of, record_length, in_turn_of, whole_of, read_of, view_of, body_of};
ghost use Rattle.record.specs.Steps.{taken_as};

use bucket::{Octets, Rate};

// Kept: a record's fields are the numbers that stand in it, whatever they are. `setup::set_gate`, `set_meter`, `add_entry` and `clear`, `path::arrive` and
// `lines::put_line` answer for records of any numbers, those that no reader gives too (`clear_none`).

// 01, kind 1. The overhead is in octets.
#[derive(Clone, Copy)]
pub struct PortRecord {
    pub port: u8,
    pub overhead: u8,
}

// 01, kind 2. All numbers as they stand in the record: priority 8 is any, a max SDU of 0 none, meter and scheduler 255 none. The max SDU is in
// octets.
#[derive(Clone, Copy)]
pub struct FilterRecord {
    pub id: u8,
    pub any_handle: u8,
    pub handle: u32,
    pub priority: u8,
    pub gate: u8,
    pub max_sdu: u16,
    pub oversize_block: u8,
    pub meter: u8,
    pub scheduler: u8,
}

// 01, kind 3. IPV 8 is null; the base time is in nanoseconds.
#[derive(Clone, Copy)]
pub struct GateRecord {
    pub id: u8,
    pub state: u8,
    pub ipv: u8,
    pub invalid_receive_block: u8,
    pub octets_block: u8,
    pub base_time: u64,
}

// 01, kind 4. The IPV as in kind 3; the interval is in nanoseconds, the maximum in octets, 2^32 - 1 being none.
#[derive(Clone, Copy)]
pub struct GateEntryRecord {
    pub gate: u8,
    pub state: u8,
    pub ipv: u8,
    pub interval: u32,
    pub octet_maximum: u32,
}

// 01, kind 5.
#[derive(Clone, Copy)]
pub struct MeterRecord {
    pub id: u8,
    pub cir: Rate,
    pub cbs: Octets,
    pub eir: Rate,
    pub ebs: Octets,
    pub coupling: u8,
    pub colour_aware: u8,
    pub drop_on_yellow: u8,
    pub red_block: u8,
}

// 01, kind 6. The residence is in nanoseconds.
#[derive(Clone, Copy)]
pub struct GroupRecord {
    pub id: u8,
    pub residence: u32,
}

// 01, kind 7.
#[derive(Clone, Copy)]
pub struct SchedulerRecord {
    pub id: u8,
    pub group: u8,
    pub cir: Rate,
    pub cbs: Octets,
}

// 01, kind 8.
#[derive(Clone, Copy)]
pub struct StartRecord {
    pub classes: u8,
}

// 01, kind 9. The time is in nanoseconds, the MSDU in octets.
#[derive(Clone, Copy)]
pub struct ArrivalRecord {
    pub port: u8,
    pub time: u64,
    pub handle: u32,
    pub priority: u8,
    pub drop_eligible: u8,
    pub msdu: u16,
}

// 01, kind 10: the flags that a clear lowers, with the number of each.
#[derive(Clone, Copy)]
pub enum Flag {
    // A filter's.
    Oversize = 1,
    // A gate's, both.
    InvalidReceive = 2,
    Octets = 3,
    // A meter's.
    Red = 4,
}

// Ruled out: numbers counted from 0; a gate's two flags the other way round.
impl From<Flag> for u8 {
    ghost from_gives = { λ flag n. n ≡ flag_number_of flag };

    fn from(flag: Flag) -> u8 {
        flag as u8
    }
}

// Ruled out: a number above 4 that is taken; a gate's two flags the other way round.
impl TryFrom<u8> for Flag {
    type Error = Refusal;

    ghost try_from_gives = { λ n flag. flag ≡ flag_said n };

    fn try_from(n: u8) -> Result<Flag, Refusal> {
        match n {
            1 => Ok(Flag::Oversize),
            2 => Ok(Flag::InvalidReceive),
            3 => Ok(Flag::Octets),
            4 => Ok(Flag::Red),
            _ => Err(Refusal::OutOfRange),
        }
    }
}

// 01, kind 10. The flag is one of `Flag`'s where a reader gave the record; the id is that of the filter, gate or meter whose flag it is.
#[derive(Clone, Copy)]
pub struct ClearRecord {
    pub flag: u8,
    pub id: u8,
}

#[derive(Clone, Copy)]
pub enum Record {
    Port(PortRecord),
    Filter(FilterRecord),
    Gate(GateRecord),
    GateEntry(GateEntryRecord),
    Meter(MeterRecord),
    Group(GroupRecord),
    Scheduler(SchedulerRecord),
    Start(StartRecord),
    Arrival(ArrivalRecord),
    Clear(ClearRecord),
}

// 01, Refusal numbers: why a record is refused, with the number of each reason.
#[derive(Clone, Copy)]
pub enum Refusal {
    CutShort = 1,
    UnknownKind = 2,
    OutOfRange = 3,
    OutOfTurn = 4,
    SetUpAlready = 5,
    NinthEntry = 6,
    Missing = 7,
    BurstTooSmall = 8,
    TimeGoesBack = 9,
    NotSetUp = 10,
    TableLength = 11,
}

// Ruled out: numbers counted from 0; 3 and 4 the other way round, in the order in which they are tried.
impl From<Refusal> for u8 {
    ghost from_gives = { λ r n. n ≡ refusal_number_of r };

    fn from(r: Refusal) -> u8 {
        r as u8
    }
}

// 01, Records: the kinds, each said by its octet.
#[derive(Clone, Copy)]
pub enum Kind {
    Port,
    Filter,
    Gate,
    GateEntry,
    Meter,
    Group,
    Scheduler,
    Start,
    Arrival,
    Clear,
}

// Ruled out: a kind above 10 that is taken; an arrival taken for a clear.
impl TryFrom<u8> for Kind {
    type Error = Refusal;

    ghost try_from_gives = { λ octet r. r ≡ kind_named octet };

    fn try_from(octet: u8) -> Result<Kind, Refusal> {
        match octet {
            1 => Ok(Kind::Port),
            2 => Ok(Kind::Filter),
            3 => Ok(Kind::Gate),
            4 => Ok(Kind::GateEntry),
            5 => Ok(Kind::Meter),
            6 => Ok(Kind::Group),
            7 => Ok(Kind::Scheduler),
            8 => Ok(Kind::Start),
            9 => Ok(Kind::Arrival),
            10 => Ok(Kind::Clear),
            _ => Err(Refusal::UnknownKind),
        }
    }
}

impl Kind {
    // The octets of a record of this kind, the kind included.
    fn length(self) -> usize
        ensures { result ≡ record_length self }
    {
        match self {
            Kind::Port => 3,
            Kind::Filter => 14,
            Kind::Gate => 14,
            Kind::GateEntry => 12,
            Kind::Meter => 30,
            Kind::Group => 6,
            Kind::Scheduler => 15,
            Kind::Start => 2,
            Kind::Arrival => 18,
            Kind::Clear => 3,
        }
    }

    // 01, Records: kinds 1 to 8 before a start is taken, 9 and 10 after it.
    fn in_turn(self, started: bool) -> bool
        ensures { result ≡ in_turn_of self started }
    {
        match self {
            Kind::Arrival | Kind::Clear => started,
            _ => !started,
        }
    }
}

// The first record of the input, and how many octets it uses, its kind included. Octets after it are not looked at.
// Ruled out: a kind above 10 that is taken; a record out of its turn whose field out of range is named instead.
#[tactic(auto, unfolding(crate::specs::Meaning::read_of, crate::specs::Meaning::read_as))]
pub fn read(input: &[u8], started: bool) -> Result<(Record, usize), Refusal>
    ensures { result ≡ read_of input.now started }
{
    let [octet, ..] = input else {
        return Err(Refusal::CutShort);
    };
    let kind = Kind::try_from(*octet)?;
    let used = kind.length();
    if input.len() < used {
        return Err(Refusal::CutShort);
    }
    if !kind.in_turn(started) {
        return Err(Refusal::OutOfTurn);
    }
    let r = Record::read(kind, input).ok_or(Refusal::OutOfRange)?;
    Ok((r, used))
}

// The body of the record at the front of the input that uses so many octets, as the very part of the input that follows its kind. Every
// refusal, by the reader or later by the stage, uses 0 octets, so that its body is the empty part at the input's front.
// Kept: the library's `get` says which octets a part has, and not that it is the very part of the input.
// Ruled out: a body that begins with the kind; a body that is shown though the record was refused.
#[tactic(auto, unfolding(crate::specs::Meaning::body_of, crate::specs::Meaning::body_in))]
pub fn body(input: &[u8], used: usize) -> &[u8]
    ensures { view_of result ≡ body_of (view_of input.entry) used }
{
    if 1 <= used && used <= input.len() {
        &input[1..used]
    } else {
        &input[..0]
    }
}

impl Record {
    // A record whose octets are all there, if its fields are in range.
    fn read(kind: Kind, s: &[u8]) -> Option<Record>
        requires { record_length kind ≤ length s.now }
        ensures { taken_as kind result ≡ whole_of kind s.now }
    {
        Some(match kind {
            Kind::Port => Record::Port(PortRecord::read(s)?),
            Kind::Filter => Record::Filter(FilterRecord::read(s)?),
            Kind::Gate => Record::Gate(GateRecord::read(s)?),
            Kind::GateEntry => Record::GateEntry(GateEntryRecord::read(s)?),
            Kind::Meter => Record::Meter(MeterRecord::read(s)?),
            Kind::Group => Record::Group(GroupRecord::read(s)?),
            Kind::Scheduler => Record::Scheduler(SchedulerRecord::read(s)?),
            Kind::Start => Record::Start(StartRecord::read(s)?),
            Kind::Arrival => Record::Arrival(ArrivalRecord::read(s)?),
            Kind::Clear => Record::Clear(ClearRecord::read(s)?),
        })
    }
}

impl PortRecord {
    fn read(s: &[u8]) -> Option<PortRecord>
        requires { 3 ≤ length s.now }
        ensures { taken_as port (option_map Record.Port result) ≡ whole_of port s.now }
    {
        let r = PortRecord {
            port: s[1],
            overhead: s[2],
        };
        let fits = (r.port <= sizes::LAST_PORT) & (r.overhead <= 64);
        fits.then_some(r)
    }
}

impl FilterRecord {
    fn read(s: &[u8]) -> Option<FilterRecord>
        requires { 14 ≤ length s.now }
        ensures { taken_as filter (option_map Record.Filter result) ≡ whole_of filter s.now }
    {
        let r = FilterRecord {
            id: s[1],
            any_handle: s[2],
            handle: read_u32(s, 3),
            priority: s[7],
            gate: s[8],
            max_sdu: read_u16(s, 9),
            oversize_block: s[11],
            meter: s[12],
            scheduler: s[13],
        };
        // A filter for any handle has handle 0.
        let fits = ((r.any_handle != 1) | (r.handle == 0))
            & (r.id <= sizes::LAST_FILTER)
            & (r.any_handle <= 1)
            & (r.priority <= 8)
            & (r.gate <= sizes::LAST_GATE)
            & (r.max_sdu <= 2000)
            & (r.oversize_block <= 1)
            & ((r.meter <= sizes::LAST_METER) | (r.meter == 255))
            & ((r.scheduler <= sizes::LAST_SCHEDULER) | (r.scheduler == 255));
        fits.then_some(r)
    }
}

impl GateRecord {
    fn read(s: &[u8]) -> Option<GateRecord>
        requires { 14 ≤ length s.now }
        ensures { taken_as gate (option_map Record.Gate result) ≡ whole_of gate s.now }
    {
        let r = GateRecord {
            id: s[1],
            state: s[2],
            ipv: s[3],
            invalid_receive_block: s[4],
            octets_block: s[5],
            base_time: read_u64(s, 6),
        };
        let fits = (r.id <= sizes::LAST_GATE)
            & (r.state <= 1)
            & (r.ipv <= 8)
            & (r.invalid_receive_block <= 1)
            & (r.octets_block <= 1)
            & (r.base_time <= 4_611_686_018_427_387_904);
        fits.then_some(r)
    }
}

impl GateEntryRecord {
    fn read(s: &[u8]) -> Option<GateEntryRecord>
        requires { 12 ≤ length s.now }
        ensures { taken_as gate_entry (option_map Record.GateEntry result) ≡ whole_of gate_entry s.now }
    {
        let r = GateEntryRecord {
            gate: s[1],
            state: s[2],
            ipv: s[3],
            interval: read_u32(s, 4),
            octet_maximum: read_u32(s, 8),
        };
        let fits = (r.gate <= sizes::LAST_GATE)
            & (r.state <= 1)
            & (r.ipv <= 8)
            & (1 <= r.interval)
            & (r.interval <= 1_000_000_000);
        fits.then_some(r)
    }
}

impl MeterRecord {
    fn read(s: &[u8]) -> Option<MeterRecord>
        requires { 30 ≤ length s.now }
        ensures { taken_as meter (option_map Record.Meter result) ≡ whole_of meter s.now }
    {
        let r = MeterRecord {
            id: s[1],
            cir: Rate(read_u64(s, 2)),
            cbs: Octets(read_u32(s, 10)),
            eir: Rate(read_u64(s, 14)),
            ebs: Octets(read_u32(s, 22)),
            coupling: s[26],
            colour_aware: s[27],
            drop_on_yellow: s[28],
            red_block: s[29],
        };
        let fits = (r.id <= sizes::LAST_METER)
            & (r.cir.0 <= 10_000_000_000)
            & (r.cbs.0 <= 1_000_000)
            & (r.eir.0 <= 10_000_000_000)
            & (r.ebs.0 <= 1_000_000)
            & (r.coupling <= 1)
            & (r.colour_aware <= 1)
            & (r.drop_on_yellow <= 1)
            & (r.red_block <= 1);
        fits.then_some(r)
    }
}

impl GroupRecord {
    fn read(s: &[u8]) -> Option<GroupRecord>
        requires { 6 ≤ length s.now }
        ensures { taken_as group (option_map Record.Group result) ≡ whole_of group s.now }
    {
        let r = GroupRecord {
            id: s[1],
            residence: read_u32(s, 2),
        };
        let fits = (r.id <= sizes::LAST_GROUP)
            & (1 <= r.residence)
            & (r.residence <= 1_000_000_000);
        fits.then_some(r)
    }
}

impl SchedulerRecord {
    fn read(s: &[u8]) -> Option<SchedulerRecord>
        requires { 15 ≤ length s.now }
        ensures { taken_as scheduler (option_map Record.Scheduler result) ≡ whole_of scheduler s.now }
    {
        let r = SchedulerRecord {
            id: s[1],
            group: s[2],
            cir: Rate(read_u64(s, 3)),
            cbs: Octets(read_u32(s, 11)),
        };
        let fits = (r.id <= sizes::LAST_SCHEDULER)
            & (r.group <= sizes::LAST_GROUP)
            & (1 <= r.cir.0)
            & (r.cir.0 <= 10_000_000_000)
            & (1 <= r.cbs.0)
            & (r.cbs.0 <= 1_000_000);
        fits.then_some(r)
    }
}

impl StartRecord {
    fn read(s: &[u8]) -> Option<StartRecord>
        requires { 2 ≤ length s.now }
        ensures { taken_as start (option_map Record.Start result) ≡ whole_of start s.now }
    {
        let r = StartRecord { classes: s[1] };
        let fits = (1 <= r.classes) & (r.classes <= 8);
        fits.then_some(r)
    }
}

impl ArrivalRecord {
    fn read(s: &[u8]) -> Option<ArrivalRecord>
        requires { 18 ≤ length s.now }
        ensures { taken_as arrival (option_map Record.Arrival result) ≡ whole_of arrival s.now }
    {
        let r = ArrivalRecord {
            port: s[1],
            time: read_u64(s, 2),
            handle: read_u32(s, 10),
            priority: s[14],
            drop_eligible: s[15],
            msdu: read_u16(s, 16),
        };
        let fits = (r.port <= sizes::LAST_PORT)
            & (r.time <= 4_611_686_018_427_387_904)
            & (r.priority <= 7)
            & (r.drop_eligible <= 1)
            & (r.msdu <= 2000);
        fits.then_some(r)
    }
}

impl ClearRecord {
    fn read(s: &[u8]) -> Option<ClearRecord>
        requires { 3 ≤ length s.now }
        ensures { taken_as clear (option_map Record.Clear result) ≡ whole_of clear s.now }
    {
        let r = ClearRecord {
            flag: s[1],
            id: s[2],
        };
        let last = match Flag::try_from(r.flag).ok()? {
            Flag::Oversize => sizes::LAST_FILTER,
            // There are as many meters as gates.
            Flag::InvalidReceive | Flag::Octets | Flag::Red => sizes::LAST_GATE,
        };
        (r.id <= last).then_some(r)
    }
}

// Numbers of two, four and eight octets, the first the most significant.
// Kept: one function over a const parameter needs a trait for the three `from_be_bytes`, which is longer than these are.
fn read_u16(s: &[u8], at: usize) -> u16
    requires { at + 2 ≤ length s.now }
    ensures { result ≡ number_at s.now at 2 }
{
    u16::from_be_bytes([s[at], s[at + 1]])
}

fn read_u32(s: &[u8], at: usize) -> u32
    requires { at + 4 ≤ length s.now }
    ensures { result ≡ number_at s.now at 4 }
{
    u32::from_be_bytes([s[at], s[at + 1], s[at + 2], s[at + 3]])
}

fn read_u64(s: &[u8], at: usize) -> u64
    requires { at + 8 ≤ length s.now }
    ensures { result ≡ number_at s.now at 8 }
{
    u64::from_be_bytes([
        s[at],
        s[at + 1],
        s[at + 2],
        s[at + 3],
        s[at + 4],
        s[at + 5],
        s[at + 6],
        s[at + 7],
    ])
}
