// Prints the records of standard input as text, one line for each (docs/TEXT.md), and on a refusal by the reader its number and the offset.
// The input is read in pieces: a record that is cut at the end of a piece waits there for its rest.
#![tactic(auto)]

ghost use Rattle.std.specs.Prelude.{◌≡◌, ◌+◌, ◌<◌, ◌≤◌, length, IfOk};
ghost use Rattle.records.specs.Room.{half, HasRoom};

use pieces::Failure;
use record::{Record, Refusal};
use std::io::{Read, Write};
use text::Page;

// Half of the page.
const HALF: usize = 32_768;

// Why no more records are printed.
#[derive(Clone, Copy)]
enum Stop {
    Refused(Refusal),
    Failed(Failure),
}

impl From<Failure> for Stop {
    fn from(failure: Failure) -> Stop {
        Stop::Failed(failure)
    }
}

// The lines that wait to be written, and how far the reading is.
#[derive(Drop)]
struct Printer {
    page: Page<65536>,
    // The octets of the records printed, and whether a start was among them.
    offset: u64,
    started: bool,
    // A line always finds its room, since less than half of the page waits.
    ghost room: { HasRoom page.octets page.filled },
    ghost waiting: { page.filled < half },
    ghost halves: { length page.octets ≡ half + half },
}

impl Printer {
    // Every record of `input`. What is printed of the records before a read that fails is left on the page.
    fn print_pieces<R: Read, W: Write>(
        &mut self,
        input: &mut R,
        output: &mut W,
    ) -> Result<(), Stop> {
        // Kept: a buffer with its count beside, as `pieces::fill` and `keep` speak of them (`Filled`, `kept_of`).
        let mut buf = [0u8; 65536];
        let mut kept = 0;
        for _ in 0..u64::MAX {
            let end = pieces::fill(input, &mut buf, kept, true)?;
            let last = end <= kept;
            let at = self.print_piece(output, &buf[..end], last)?;
            if last {
                return Ok(());
            }
            kept = pieces::keep(&mut buf, at, end);
        }
        Ok(())
    }

    // Every record that is whole in this piece. Answers how many octets they have. `last` says that no piece follows, so that a cut
    // record is refused.
    fn print_piece<W: Write>(
        &mut self,
        output: &mut W,
        piece: &[u8],
        last: bool,
    ) -> Result<usize, Stop>
        ensures at_stays_in_bounds { IfOk result (λ at. at ≤ length piece.now) }
        ensures filled_stays_below_half { self.new.page.filled < half }
    {
        let mut at = 0;
        // Kept: a step is as long as the record that was read; a `for` over the octets would have a turn for each and a test in it.
        while at < piece.len() {
            match record::read(&piece[at..], self.started) {
                Ok((r, used)) => {
                    self.print(output, r)?;
                    at += used;
                    self.offset = self.offset.wrapping_add(used as u64);
                    self.started |= matches!(r, Record::Start(_));
                }
                Err(Refusal::CutShort) if !last => return Ok(at),
                Err(why) => return Err(Stop::Refused(why)),
            }
        }
        Ok(at)
    }

    // One line. The page is written once half of it is filled.
    fn print<W: Write>(&mut self, output: &mut W, r: Record) -> Result<(), Failure>
        ensures filled_below_half { self.new.page.filled < half }
    {
        lines::put_line(&mut self.page, r);
        if self.page.room() > HALF {
            return Ok(());
        }
        let written = pieces::write(output, self.page.text());
        self.page.clear();
        written
    }

    // The last line where a record is refused, and all that waits is written.
    fn print_last<W: Write>(
        &mut self,
        output: &mut W,
        end: Result<(), Stop>,
    ) -> Result<(), Failure> {
        let offset = self.offset;
        put_last(&mut self.page, end, offset);
        let written = pieces::write(output, self.page.text());
        self.page.clear();
        written
    }
}

// The last line where a record is refused.
fn put_last<const N: usize>(page: &mut Page<N>, end: Result<(), Stop>, offset: u64)
    ensures { length page.new.octets ≡ length page.old.octets }
{
    if let Err(Stop::Refused(why)) = end {
        page.put_refused(u8::from(why), offset);
    }
}

// All of `input`, and the last line where a record is refused.
fn print_all<R: Read, W: Write>(input: &mut R, output: &mut W) -> Result<(), Failure> {
    let mut printer = Printer {
        page: Page::new(),
        offset: 0,
        started: false,
    };
    let end = printer.print_pieces(input, output);
    printer.print_last(output, end)?;
    match end {
        Err(Stop::Failed(failure)) => Err(failure),
        _ => Ok(()),
    }
}

fn main(rt: HostRuntime) {
    let end = print_all(&mut rt.stdin(), &mut rt.stdout());
    let _ = pieces::complain(&mut rt.stderr(), b"records", end.err());
}
