// A meter: ★J, ★K and the coupling figure; and traffic classes: ★L.
use bucket::{Octets, Rate};
use meter::{Meter, Outcome};
use std::io;

pub fn print(rt: &impl Print) -> io::Result<()> {
    print!(rt; "J")?;
    let mut m = worked(false);
    for msdu in [600, 500, 400, 1] {
        frame(rt, &mut m, 0, msdu)?;
    }
    print!(rt; "\nK")?;
    frame(rt, &mut m, 8, 1)?;
    print!(rt; "\ncoupling")?;
    let mut m = worked(true);
    frame(rt, &mut m, 0, 600)?;
    frame(rt, &mut m, 0, 500)?;
    // A frame of no octets: it fills the buckets and spends nothing.
    frame(rt, &mut m, 8800, 0)?;
    print!(rt; " {}", m.committed / bucket::GRAINS)?;
    print!(rt; " {}", m.excess / bucket::GRAINS)?;
    print!(rt; "\nL")?;
    match class::traffic_class(0, 8) {
        Some(class) => print!(rt; " {class}"),
        None => print!(rt; " refused 3"),
    }?;
    println!(rt; "")
}

fn worked(coupling: bool) -> Meter {
    Meter::fresh(
        Rate(1_000_000_000),
        Octets(1000),
        Rate(0),
        Octets(500),
        coupling,
        false,
        false,
        false,
    )
}

fn frame(rt: &impl Print, m: &mut Meter, time: u64, msdu: u32) -> io::Result<()> {
    let r = m.colour(time, Octets(msdu), false);
    *m = r.meter;
    match r.outcome {
        Outcome::Green => print!(rt; " green"),
        Outcome::Yellow => print!(rt; " yellow"),
        Outcome::YellowDropped => print!(rt; " drop 6"),
        Outcome::Red => print!(rt; " red"),
        Outcome::OutOfRange => print!(rt; " refused 3"),
        Outcome::TooEarly => print!(rt; " refused 9"),
    }
}
