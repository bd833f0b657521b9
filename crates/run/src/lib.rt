// A piece of input, record by record, up to a refusal or to where the page is nearly full.
#![tactic(auto)]

ghost use Rattle.std.specs.Prelude.{◌≡◌, length, drop};
ghost use Rattle.bank.specs.Meaning.{rows_of};
ghost use Rattle.verdict.specs.Meaning.{answer_of};
ghost use Rattle.stage.specs.Meaning.{bridge};
ghost use Rattle.run.specs.Meaning.{printed, printed_of, room_of, advanced_of, ran, piece_run_of, fresh_progress_of, again_of};

use bank::{Bank, Lists};
use filter::Filter;
use record::Refusal;
use text::Page;
use verdict::{Outcome, Taken};

// How far a run is.
#[derive(Clone, Copy)]
pub struct Progress {
    // Octets of the piece that are taken.
    pub at: usize,
    // Records and arrivals taken so far, of earlier pieces too.
    pub records: u64,
    pub arrivals: u64,
    // The number of the refusal that the run has met, 0 for none.
    // Kept: a number, as `run` and `again` take any.
    pub refusal: u8,
    // Whether no line is printed for an arrival.
    pub quiet: bool,
    // Whether the run goes on: no refusal yet, and room for another line. Kept: two questions, since a full page is no refusal (`Stops`).
    pub more: bool,
}

// Before the first piece.
// Ruled out: a count that does not begin at 0; lines where none are wanted.
pub fn fresh(quiet: bool) -> Progress
    ensures { result ≡ fresh_progress_of quiet }
{
    Progress {
        at: 0,
        records: 0,
        arrivals: 0,
        refusal: 0,
        quiet,
        more: true,
    }
}

// Before the next piece, after `p` of the one before it.
// Ruled out: the arrivals counted anew; the next piece not begun at its front.
pub fn again(p: Progress) -> Progress
    ensures { result ≡ again_of p }
{
    Progress {
        at: 0,
        refusal: 0,
        more: true,
        ..p
    }
}

// One `stage::take` for each record, from octet `from.at` of the input on.
// Kept: what C lends comes one by one, as at `stage::take`, and the page and the progress are the caller's.
// Ruled out: a record skipped; a record taken after a refusal; the table as it was; the progress of another piece.
pub fn run<const N: usize>(
    table: &mut [Filter],
    bank: &mut Bank,
    lists: &mut Lists,
    input: &[u8],
    page: &mut Page<N>,
    from: Progress,
) -> Progress
    ensures { ran table.new (rows_of bank.new) lists.new page.new result ≡ piece_run_of (length input.now) input.now (bridge table.old (rows_of bank.old) lists.old) page.old from }
{
    let mut p = from;
    for _ in 0..input.len() {
        let answer = stage::take(table, bank, lists, rest(input, p.at));
        p = tell(page, p, answer);
        if !p.more {
            return p;
        }
    }
    p
}

// The octets from `at` on; none where there are not so many.
fn rest(input: &[u8], at: usize) -> &[u8]
    ensures { result.now ≡ drop at input.now }
{
    &input[at.min(input.len())..]
}

// The answer to a record is told, and the run is one record further. A refusal ends it.
#[tactic(auto, unfolding(crate::specs::Meaning::printed_by))]
fn tell<const N: usize>(page: &mut Page<N>, p: Progress, answer: Result<Taken, Refusal>) -> Progress
    ensures { printed page.new result ≡ printed_of page.old p (answer_of answer) }
{
    let taken = match answer {
        Ok(taken) => taken,
        Err(why) => {
            return Progress {
                refusal: u8::from(why),
                more: false,
                ..p
            };
        }
    };
    let arrival = p.arrivals.wrapping_add(1);
    match taken.outcome {
        Outcome::Done => return advanced(p, taken.used, p.arrivals, page),
        _ if p.quiet => {}
        Outcome::Passed(pass) => page.put_pass(arrival, pass),
        Outcome::Dropped(why) => page.put_drop(arrival, why),
    }
    advanced(p, taken.used, arrival, page)
}

// One record more.
fn advanced<const N: usize>(p: Progress, used: usize, arrivals: u64, page: &Page<N>) -> Progress
    ensures { result ≡ advanced_of p used arrivals (room_of page.now) }
{
    Progress {
        at: p.at.wrapping_add(used),
        records: p.records.wrapping_add(1),
        arrivals,
        refusal: 0,
        more: page.room() >= text::LINE,
        ..p
    }
}
