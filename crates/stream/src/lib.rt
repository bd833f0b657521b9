// Records from standard input, of any length: read in pieces and run a piece at a time, the lines written as the pieces are done.
// A record that the end of a piece cuts waits at the front of the buffer for its rest.
#![tactic(auto)]

ghost use Rattle.std.specs.Prelude.{◌≡◌, ◌^◌, ◌<◌, List, ℕ, false, IfErr, OnOk};
ghost use Rattle.std.specs.Io.KnownBytes.{Appends};
ghost use Rattle.bank.specs.Meaning.{rows_of};
ghost use Rattle.stage.specs.Meaning.{Bridge};
ghost use Rattle.text.specs.Meaning.{written};
ghost use Rattle.stream.specs.Meaning.{Drains, Reported, ended_of, failure_of, last_line_of};
ghost use Rattle.stream.specs.Stands.{Stands, Turned, Turns, text_of};

use bank::{Bank, Lists};
use filter::Filter;
use pieces::Failure;
use run::Progress;
use std::io::{Read, Write};
use text::Page;

// How a stream ended.
#[derive(Clone, Copy)]
pub struct Drained {
    // What has failed: the stream then did not come to its end, and the rest tells how far it came.
    pub failure: Option<Failure>,
    // The number of the refusal, 0 where no octet is left.
    pub refusal: u8,
    pub records: u64,
    // Octets of the records taken.
    pub octets: u64,
}

// Everything that `input` has, from an empty table on, its lines to `output`; `quiet` where no line is to be written for an arrival.
// Ruled out: the end told where octets are left; the octets told for the records.
pub fn drain<R: Read, W: Write>(
    input: &mut R,
    output: &mut W,
    bank: &mut Bank,
    lists: &mut Lists,
    quiet: bool,
) -> Drained
    ensures { Drains (rows_of bank.old) lists.old (rows_of bank.new) lists.new result }
{
    // Where no line is written, a page with room for one line will do: a run goes on while that is left.
    if quiet {
        Stream::<{ text::LINE }>::drain(input, output, bank, lists, quiet)
    } else {
        Stream::<204800>::drain(input, output, bank, lists, quiet)
    }
}

// What an operator looks at, unless something has failed.
// Ruled out: a refusal forgotten; another count where the report cannot be written.
pub fn report<W: Write>(output: &mut W, bank: &Bank, d: Drained) -> Drained
    ensures { Reported d result }
{
    if d.failure.is_some() {
        return d;
    }
    let mut page = Page::<65536>::new();
    page.put_report(bank);
    match pieces::write(output, page.text()) {
        Ok(()) => d,
        Err(failure) => Drained {
            failure: Some(failure),
            ..d
        },
    }
}

// The last line; or what has failed, to `errors`.
// Ruled out, in what is put on the page: an end told where a read has failed; refusal 1 told as the end.
pub fn close<W: Write, E: Write>(output: &mut W, errors: &mut E, program: &[u8], d: Drained) {
    let mut page = Page::<4096>::new();
    last_line(&mut page, d);
    let end = pieces::write(output, page.text());
    let _ = pieces::complain(errors, program, d.failure.or(end.err()));
}

// There is none where something has failed.
#[tactic(auto, using(text::proofs::Laws::written_none), unfolding(crate::specs::Meaning::last_line_of))]
fn last_line<const N: usize>(page: &mut Page<N>, d: Drained)
    ensures { page.new ≡ written page.old (last_line_of d) }
{
    match (d.failure, d.refusal) {
        (Some(_), _) => {}
        (None, 0) => page.put_end(d.records),
        (None, number) => page.put_refused(number, d.octets),
    }
}

// A body cut short, where no octet is left, is no refusal but the end.
#[tactic(auto, unfolding(crate::specs::Meaning::ended_of))]
fn ended(refusal: u8, kept: usize) -> u8
    ensures { result ≡ ended_of refusal kept }
{
    if refusal == 1 && kept == 0 {
        0
    } else {
        refusal
    }
}

// A stream that goes on after all its turns is given up as one that cannot be read.
fn last_failure(end: Result<bool, Failure>) -> Option<Failure>
    ensures { result ≡ failure_of end }
{
    match end {
        Ok(false) => None,
        Ok(true) => Some(Failure::Input),
        Err(failure) => Some(failure),
    }
}

// A stream on its way.
#[derive(Drop)]
struct Stream<const N: usize> {
    table: [Filter; sizes::FILTERS],
    buffer: [u8; 65536],
    page: Page<N>,
    // Octets at the front of the buffer that are not taken yet, and those that were taken before them.
    // Kept: a buffer with its count beside, as `pieces::fill` and `keep` speak of them (`Filled`, `kept_of`).
    kept: usize,
    octets: u64,
    progress: Progress,
}

impl<const N: usize> Stream<N> {
    // From the first piece to the last.
    fn drain<R: Read, W: Write>(
        input: &mut R,
        output: &mut W,
        bank: &mut Bank,
        lists: &mut Lists,
        quiet: bool,
    ) -> Drained
        requires { N < 2 ^ 32 }
        ensures { Drains (rows_of bank.old) lists.old (rows_of bank.new) lists.new result }
    {
        let mut s = Stream::<N> {
            table: [Filter::default(); sizes::FILTERS],
            buffer: [0; 65536],
            page: Page::new(),
            kept: 0,
            octets: 0,
            progress: run::fresh(quiet),
        };
        let end = s.pieces(input, output, bank, lists);
        Drained {
            failure: last_failure(end),
            refusal: ended(s.progress.refusal, s.kept),
            records: s.progress.records,
            octets: s.octets,
        }
    }

    // Turn by turn. Answers whether the stream still goes on after all its turns.
    fn pieces<R: Read, W: Write>(
        &mut self,
        input: &mut R,
        output: &mut W,
        bank: &mut Bank,
        lists: &mut Lists,
    ) -> Result<bool, Failure>
        ensures stands { (b : Bridge) → Stands b self.old (rows_of bank.old) lists.old → Stands b self.new (rows_of bank.new) lists.new }
        ensures over { result ≡ Ok false → self.new.progress.refusal ≡ 0 → self.new.kept ≡ 0 }
        ensures told { OnOk result ((text : List ℕ) × (Turns self.old (rows_of bank.old) lists.old self.new (rows_of bank.new) lists.new text × Appends (W.contents output.old) (W.contents output.new) text)) }
    {
        for _ in 0..u64::MAX {
            if !self.turn(input, output, bank, lists)? {
                return Ok(false);
            }
        }
        Ok(true)
    }

    // One piece, and its lines written.
    fn turn<R: Read, W: Write>(
        &mut self,
        input: &mut R,
        output: &mut W,
        bank: &mut Bank,
        lists: &mut Lists,
    ) -> Result<bool, Failure>
        ensures stands { (b : Bridge) → Stands b self.old (rows_of bank.old) lists.old → Stands b self.new (rows_of bank.new) lists.new }
        ensures over { result ≡ Ok false → self.new.progress.refusal ≡ 0 → self.new.kept ≡ 0 }
        ensures turned { OnOk result (Turned self.old (rows_of bank.old) lists.old self.new (rows_of bank.new) lists.new) }
        ensures told { OnOk result (Appends (W.contents output.old) (W.contents output.new) (text_of self.new.page)) }
    {
        let more = self.piece(input, bank, lists)?;
        pieces::write(output, self.page.text())?;
        Ok(more)
    }

    // One piece: read where a record is cut or no octet is left, run from the front of an empty page, keep what is not whole. Answers whether
    // the stream goes on: it has come to its end where a refusal has stopped it or no octet is left.
    fn piece<R: Read>(
        &mut self,
        input: &mut R,
        bank: &mut Bank,
        lists: &mut Lists,
    ) -> Result<bool, Failure>
        ensures stands { (b : Bridge) → Stands b self.old (rows_of bank.old) lists.old → Stands b self.new (rows_of bank.new) lists.new }
        ensures over { result ≡ Ok false → self.new.progress.refusal ≡ 0 → self.new.kept ≡ 0 }
        ensures turned { OnOk result (Turned self.old (rows_of bank.old) lists.old self.new (rows_of bank.new) lists.new) }
        ensures unread { IfErr result (λ failure. failure ≡ Failure.Input) }
    {
        self.page.clear();
        let starved = self.progress.refusal > 0 || self.kept == 0;
        let end = pieces::fill(input, &mut self.buffer, self.kept, starved)?;
        if starved && end <= self.kept {
            return Ok(false);
        }
        let from = run::again(self.progress);
        let p = run::run(
            &mut self.table,
            bank,
            lists,
            &self.buffer[..end],
            &mut self.page,
            from,
        );
        let left = pieces::keep(&mut self.buffer, p.at, end);
        self.progress = p;
        self.kept = left;
        self.octets = self.octets.wrapping_add((end - left) as u64);
        // No refusal, or 1: a body cut short.
        Ok(p.refusal <= 1)
    }
}
