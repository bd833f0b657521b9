// The exact arithmetic of a token bucket, for meters and schedulers alike.
// A level is kept in grains. One grain is 1/(8 * 10^9) octet, so that a rate of r bits per second adds r grains in each nanosecond and
// no fraction is ever lost (01, Meters; 01, Schedulers).
#![tactic(auto)]

ghost use Rattle.std.specs.Prelude.{◌≡◌};
ghost use Rattle.bucket.specs.Meaning.{grown, wait_for, full_of};

// Bits per second.
#[derive(Clone, Copy)]
pub struct Rate(pub u64);

// Octets: a burst, a length. Never bits.
#[derive(Clone, Copy)]
pub struct Octets(pub u32);

// The grains of one octet.
pub const GRAINS: u64 = 8_000_000_000;

// What a full bucket holds, in grains. A burst above 1,000,000 octets is out of range for meters and schedulers alike, and counts as that here.
// Ruled out: the octets taken for grains; a burst above the limit that fills the bucket beyond it.
pub fn full(burst: Octets) -> u64
    ensures { result ≡ full_of burst }
{
    (burst.0 as u64).min(1_000_000) * GRAINS
}

// The level `d` ns after it was `level`, at a rate of `rate` and never above `cap`, for every number that fits: in 128 bits nothing wraps.
// Ruled out: a product that wraps and so leaves the bucket nearly empty after a quiet spell; a level above the cap.
pub fn grow(level: u64, rate: Rate, cap: u64, d: u64) -> u64
    ensures { result ≡ grown level rate.0 cap d }
{
    let filled = level as u128 + rate.0 as u128 * d as u128;
    filled.min(cap as u128) as u64
}

// The least whole number of nanoseconds after which a bucket that holds `level` holds `need`. A rate of 0 adds nothing: 0 stands for it,
// and who calls refuses such a rate.
// Ruled out: a wait rounded down, one nanosecond short; a wait of one too many where the rate divides what is lacking.
pub fn wait(level: u64, rate: Rate, need: u64) -> u64
    ensures { result ≡ wait_for level rate.0 need }
{
    if rate.0 == 0 {
        return 0;
    }
    need.saturating_sub(level).div_ceil(rate.0)
}
