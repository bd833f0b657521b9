// The filter table: what a row says, which rows count as empty, and the first row that a question is about (01, kind 2 and A frame's
// path, step 1). The table is lent; place n is filter n's.
#![tactic(auto)]

ghost use Rattle.std.specs.Prelude.{◌≡◌, ◌-◌, Bool, set};
ghost use Rattle.std.specs.Fn.{FnReturnsAt};
ghost use Rattle.bank.specs.Meaning.{rows_of};
ghost use Rattle.filter.specs.declared.Filter.{Filter};
ghost use Rattle.filter.specs.Meaning.{no_row, row_in_range, is_filter_of, names_missing, exceeds_burst, counts_of, fits_of, row_of, Fits, Missing, ExceedsBurst, no_key, of_every_place, first_found, question_of, search_of, filter_of, key_of};
ghost use Rattle.sizes.specs.Meaning.{filter_count};
ghost use Rattle.filter.specs.Seek.{near_of, seek_of};

use bank::Bank;
use record::{ArrivalRecord, FilterRecord};

// A row, as document 01's kind 2 has it but for the identifier, which is the row's place. All numbers: whatever a caller leaves in the
// table is a row. A row of zeros, the default, is empty.
// Kept: numbers for flags, for any and for none, as C writes them (`transomrib_filter` in include/transomrib.h).
#[repr(C)]
#[derive(Clone, Copy)]
pub struct Filter {
    pub handle: u32,
    // In octets; 0 is none.
    pub max_sdu: u16,
    // 1 in a row that a record has set up.
    pub used: u8,
    // 1: every handle matches.
    pub any_handle: u8,
    // 8: every priority matches.
    pub priority: u8,
    pub gate: u8,
    pub oversize_block: u8,
    // 255 is none, of the meter and of the scheduler.
    pub meter: u8,
    pub scheduler: u8,
}

// The empty row.
// Ruled out: a row that is used; a row with a handle.
impl Default for Filter {
    ghost is_default = { λ row. row ≡ no_row };

    fn default() -> Filter {
        Filter {
            handle: 0,
            max_sdu: 0,
            used: 0,
            any_handle: 0,
            priority: 0,
            gate: 0,
            oversize_block: 0,
            meter: 0,
            scheduler: 0,
        }
    }
}

// What of a frame a row has to match.
#[derive(Clone, Copy)]
pub struct Key {
    pub handle: u32,
    pub priority: u8,
}

// The row that a filter's record writes.
// Ruled out: a row that is not used; the meter as the scheduler.
impl From<FilterRecord> for Filter {
    ghost from_gives = { λ r row. row ≡ filter_of r };

    fn from(r: FilterRecord) -> Filter {
        Filter {
            handle: r.handle,
            max_sdu: r.max_sdu,
            used: 1,
            any_handle: r.any_handle,
            priority: r.priority,
            gate: r.gate,
            oversize_block: r.oversize_block,
            meter: r.meter,
            scheduler: r.scheduler,
        }
    }
}

// What a search asks of a row.
#[derive(Clone, Copy)]
pub enum Asks {
    // Whether a frame uses it.
    Fits,
    // Whether start refuses it with 7.
    Missing,
    // Whether start refuses it with 8.
    ExceedsBurst,
    // Nothing: every row answers.
    Any,
}

// Of what start asks, which matches nothing.
const NO_KEY: Key = Key {
    handle: 0,
    priority: 0,
};

// A question on the places `from` up to and without `to`. Only `Fits` looks at the key.
#[derive(Clone, Copy)]
pub struct Question {
    pub from: usize,
    pub to: usize,
    pub asks: Asks,
    pub key: Key,
}

impl Question {
    // On the places from `from` on.
    fn of_rest(from: usize, asks: Asks, key: Key) -> Question
        ensures { result ≡ record { from = from; to = filter_count; asks = asks; key = key } }
    {
        Question {
            from,
            to: sizes::FILTERS,
            asks,
            key,
        }
    }
}

// What a frame is matched by.
// Ruled out: a handle of 0; the drop mark as the priority.
impl From<ArrivalRecord> for Key {
    ghost from_gives = { λ a key. key ≡ key_of a };

    fn from(a: ArrivalRecord) -> Key {
        Key {
            handle: a.handle,
            priority: a.priority,
        }
    }
}

// The row that a frame uses, and its place: the first that fits the frame and counts. Up to the first that the handle does not rule out, nothing
// else is asked.
// Ruled out: a row for any handle passed over; a row that names a missing gate used by a frame; the last row that answers.
pub fn matching(table: &[Filter], bank: &Bank, key: Key) -> Option<(usize, Filter)>
    ensures { result ≡ search_of (rows_of bank.now) (of_every_place Fits key) table.now }
{
    search(
        table,
        bank,
        Question::of_rest(seek(table, key), Asks::Fits, key),
    )
}

// The first row that start refuses with 7, and its place.
// Ruled out: the last row that answers; a row that is no filter holding up start.
pub fn first_missing(table: &[Filter], bank: &Bank) -> Option<(usize, Filter)>
    ensures { result ≡ search_of (rows_of bank.now) (of_every_place Missing no_key) table.now }
{
    search(table, bank, Question::of_rest(0, Asks::Missing, NO_KEY))
}

// The first row that start refuses with 8, and its place.
// Ruled out: the last row that answers; a row that is no filter holding up start.
pub fn first_exceeding(table: &[Filter], bank: &Bank) -> Option<(usize, Filter)>
    ensures { result ≡ search_of (rows_of bank.now) (of_every_place ExceedsBurst no_key) table.now }
{
    search(
        table,
        bank,
        Question::of_rest(0, Asks::ExceedsBurst, NO_KEY),
    )
}

// The first row that answers, in ascending identifier, and its place. Whether a row counts is asked last, since most are ruled out before.
// Ruled out: the last row that answers; a row before `from`; an empty row past the table's end passed over.
// Inlined, so that what is asked is settled where it is compiled.
#[inline(always)]
#[tactic(auto, unfolding(crate::specs::Meaning::search_of, crate::specs::Meaning::row_answers))]
pub fn search(table: &[Filter], bank: &Bank, q: Question) -> Option<(usize, Filter)>
    ensures { result ≡ search_of (rows_of bank.now) (question_of q) table.now }
{
    let Question {
        from,
        to,
        asks,
        key,
    } = q;
    match asks {
        Asks::Fits => first(table, from, to, |row| row.fits(key) && row.counts(bank)),
        Asks::Missing => first(
            table,
            from,
            to,
            |row| row.is_filter() && row.names_missing(bank),
        ),
        Asks::ExceedsBurst => first(
            table,
            from,
            to,
            |row| row.is_filter() && row.exceeds_burst(bank),
        ),
        Asks::Any => first(table, from, to, |_| true),
    }
}

// The first row that passes a test, and its place. The rows past the table's end are alike, so that one of them is asked.
fn first<F: Fn(&Filter) -> bool>(
    table: &[Filter],
    from: usize,
    to: usize,
    passes: F,
) -> Option<(usize, Filter)>
    requires { F.IsAlwaysCallable passes }
    ensures { (test : Filter → Bool) → ((row : Filter) (b : Bool) → FnReturnsAt F.Fn passes row b → b ≡ test row) → result ≡ first_found test table.now from (to - from) }
{
    let end = table.len().min(to);
    for i in from..end {
        let row = &table[i];
        if passes(row) {
            return Some((i, *row));
        }
    }
    let past = table.len().max(from);
    let empty = Filter::default();
    if past < to && passes(&empty) {
        return Some((past, empty));
    }
    None
}

// The first place whose row a frame's handle does not rule out: most rows are passed over here, after two loads each.
fn seek(table: &[Filter], key: Key) -> usize
    ensures { result ≡ seek_of (of_every_place Fits key) table.now 0 }
{
    let end = table.len().min(sizes::FILTERS);
    for i in 0..end {
        if table[i].near(key.handle) {
            return i;
        }
    }
    end
}

// The row at a place; past the table's end, the empty one.
// Ruled out: the row of another filter; a row that is used past the table's end.
pub fn row_at(table: &[Filter], i: usize) -> Filter
    ensures { result ≡ row_of table.now i }
{
    table.get(i).copied().unwrap_or_default()
}

// Stores a row at its place; past the table's end, nothing.
// Ruled out: a store at another place; a table left as it was.
pub fn put_row(table: &mut [Filter], place: usize, row: Filter)
    ensures { table.new ≡ set table.old place row }
{
    // Kept: `get_mut` says nothing of what the table is afterwards.
    if place < table.len() {
        table[place] = row;
    }
}

impl Filter {
    #[tactic(auto, unfolding(crate::specs::Seek::near_of))]
    fn near(&self, handle: u32) -> bool
        ensures { result ≡ near_of handle self.now }
    {
        (self.handle == handle) | (self.any_handle == 1)
    }

    // Whether handle and priority of a frame match the row's. The handle alone rules most rows out, after two loads each.
    // Ruled out: any-handle taken for handle 0; priority 8 taken for a priority.
    #[tactic(auto, unfolding(crate::specs::Meaning::fits_of))]
    pub fn fits(&self, key: Key) -> bool
        ensures { result ≡ fits_of key self.now }
    {
        (self.handle == key.handle || self.any_handle == 1)
            && (self.priority == 8 || self.priority == key.priority)
    }

    // Whether a row counts after start; any other counts as empty.
    // Ruled out: a row that names a missing meter counting; a max SDU that the burst just holds refused.
    // Cold, since a search asks it of few rows: so the loop over the others is tight.
    #[cold]
    #[tactic(auto, unfolding(crate::specs::Meaning::counts_of))]
    pub fn counts(&self, bank: &Bank) -> bool
        ensures { result ≡ counts_of (rows_of bank.now) self.now }
    {
        self.is_filter() && !self.names_missing(bank) && !self.exceeds_burst(bank)
    }

    // Whether there is a filter at a place, as the records before start see it.
    // Ruled out: a used row with a field out of range; an unused one.
    #[tactic(auto, unfolding(crate::specs::Meaning::is_filter_of))]
    pub fn is_filter(&self) -> bool
        ensures { result ≡ is_filter_of self.now }
    {
        (self.used == 1) & self.in_range()
    }

    #[tactic(auto, unfolding(crate::specs::Meaning::row_in_range))]
    fn in_range(&self) -> bool
        ensures { result ≡ row_in_range self.now }
    {
        (self.any_handle <= 1)
            & ((self.any_handle == 0) | (self.handle == 0))
            & (self.priority <= 8)
            & (self.gate <= sizes::LAST_GATE)
            & (self.max_sdu <= 2000)
            & (self.oversize_block <= 1)
            & ((self.meter <= sizes::LAST_METER) | (self.meter == 255))
            & ((self.scheduler <= sizes::LAST_SCHEDULER) | (self.scheduler == 255))
    }

    // 01, refusal 7.
    // Ruled out: a row that names a gate with a record; the meter of a row that names none.
    #[tactic(auto, unfolding(crate::specs::Meaning::names_missing))]
    pub fn names_missing(&self, bank: &Bank) -> bool
        ensures { result ≡ names_missing (rows_of bank.now) self.now }
    {
        !bank.gate_set(self.gate as usize)
            | ((self.meter != 255) & !bank.meter_set(self.meter as usize))
            | ((self.scheduler != 255) & !bank.scheduler_set(self.scheduler as usize))
    }

    // 01, refusal 8.
    // Ruled out: a scheduler and no max SDU let through; a max SDU that the burst just holds refused.
    #[tactic(auto, unfolding(crate::specs::Meaning::exceeds_burst))]
    pub fn exceeds_burst(&self, bank: &Bank) -> bool
        ensures { result ≡ exceeds_burst (rows_of bank.now) self.now }
    {
        let burst = bank.burst_at(self.scheduler as usize);
        let component = bank.component_at();
        (self.scheduler != 255)
            & ((self.max_sdu == 0) | frame::exceeds(self.max_sdu, component.overhead, burst))
    }
}
