// The length of a frame on the wire (01, Schedulers): what a scheduler charges, and what start holds against its burst.
#![tactic(auto)]

ghost use Rattle.std.specs.Prelude.{◌≡◌, ltb};
ghost use Rattle.frame.specs.Meaning.{length_of, frame_of};

use bucket::Octets;

// Of a frame that brings `msdu` octets in at a port with that overhead.
// Ruled out: the overhead left out; the MSDU left out.
pub fn length(msdu: u16, overhead: u8) -> Octets
    ensures { result ≡ frame_of msdu overhead }
{
    Octets(msdu as u32 + overhead as u32)
}

// Whether such a length is more than a burst, for every number that fits: with an overhead that no port record gave the sum need not fit 64
// bits, and is more than every burst then.
// Ruled out: a length that equals the burst; a sum that wraps and so seems small.
pub fn exceeds(msdu: u16, overhead: u64, burst: Octets) -> bool
    ensures { result ≡ ltb burst.0 (length_of msdu overhead) }
{
    (burst.0 as u64) < overhead.saturating_add(msdu as u64)
}
