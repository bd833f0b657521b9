// Standard input in pieces and standard output: what the programs that read a stream of records share.
// A record that the end of a piece cuts waits at the front of the buffer for its rest.
#![tactic(auto)]

ghost use Rattle.std.specs.Prelude.{◌≡◌, IfErr, OnOk};
ghost use Rattle.std.specs.Io.KnownBytes.{Appends};
ghost use Rattle.text.specs.Meaning.{written};
ghost use Rattle.pieces.specs.Meaning.{Kept, kept_of, Filled, complaint_of};

use std::io::{Read, Write};
use text::Page;

// What the system has failed to do.
#[derive(Clone, Copy)]
pub enum Failure {
    Input,
    Output,
}

// Reads once where the octets that are kept do not suffice (`starved`), behind them. Answers how many there are then: no more than before at
// the end of the input. What is kept stays, also where the read fails.
// Kept: a buffer and a count, here and in `keep`: the contracts (`Filled`, `kept_of`) speak of any buffer that is lent and of any count.
// Ruled out: the octets that are kept overwritten; what was read taken for all that is there.
pub fn fill<R: Read>(
    input: &mut R,
    buf: &mut [u8],
    kept: usize,
    starved: bool,
) -> Result<usize, Failure>
    ensures filled { Filled buf.old kept buf.new result }
    ensures unread { IfErr result (λ failure. failure ≡ Failure.Input) }
{
    let at = kept.min(buf.len());
    if !starved {
        return Ok(at);
    }
    match input.read(&mut buf[at..]) {
        Ok(n) => Ok(at + n),
        Err(_) => Err(Failure::Input),
    }
}

// The octets from `from` to `end`, as far as the buffer goes, move to the front: a record that is not whole waits there for its rest.
// Answers how many there are.
// Ruled out: the tail left where it is; a long tail cut.
pub fn keep(buf: &mut [u8], from: usize, end: usize) -> usize
    ensures { ◌≡◌ {A = Kept} (record { buffer = buf.new; waiting = result }) (kept_of buf.old from end) }
{
    let to = end.min(buf.len());
    let at = from.min(to);
    buf.copy_within(at..to, 0);
    to - at
}

// Writes all of `octets`. It stops at the first write that fails or takes nothing.
pub fn write<W: Write>(output: &mut W, octets: &[u8]) -> Result<(), Failure>
    ensures all { OnOk result (Appends (W.contents output.old) (W.contents output.new) octets.now) }
    ensures unwritten { IfErr result (λ failure. failure ≡ Failure.Output) }
{
    let mut rest = octets;
    while !rest.is_empty() {
        match output.write(rest) {
            Ok(n) if 0 < n => rest = &rest[n..],
            _ => return Err(Failure::Output),
        }
    }
    Ok(())
}

// Says what has failed; nothing where nothing has.
// Ruled out, in what is put on the page: the other stream named; the program not named.
pub fn complain<W: Write>(
    errors: &mut W,
    program: &[u8],
    failure: Option<Failure>,
) -> Result<(), Failure>
    ensures { IfErr result (λ failure. failure ≡ Failure.Output) }
{
    let mut page = Page::<4096>::new();
    complaint(&mut page, program, failure);
    write(errors, page.text())
}

#[tactic(auto, using(text::proofs::Laws::puts), unfolding(crate::specs::Meaning::complaint_of))]
fn complaint<const N: usize>(page: &mut Page<N>, program: &[u8], failure: Option<Failure>)
    ensures { page.new ≡ written page.old (complaint_of program.now failure) }
{
    if let Some(failure) = failure {
        page.put_octets(program);
        match failure {
            Failure::Input => page.put_octets(b": standard input cannot be read\n"),
            Failure::Output => page.put_octets(b": standard output cannot be written\n"),
        }
    }
}
