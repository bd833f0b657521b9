// A gate: F to I, and the next cycle, a line for each frame with its time, its octets and what it gets.
use gate::{Gate, Outcome};
use std::io;

pub fn print(rt: &impl Print) -> io::Result<()> {
    // Open 1000 ns with 600 octets, closed 1000 ns.
    let list =
        b"\x00\x01\x08\x00\x00\x03\xe8\x00\x00\x02\x58\x00\x00\x08\x00\x00\x03\xe8\xff\xff\xff\xff";
    let mut gate = Gate {
        opened: true,
        ipv: 8,
        invalid_receive_block: false,
        octets_block: false,
        base: 5000,
        invalid_receive_flag: false,
        octets_flag: false,
        since: 0,
        spent: 0,
    };
    for (time, msdu) in [
        (4999, 2000),
        (5000, 600),
        (5999, 1),
        (5999, 0),
        (6000, 0),
        (7000, 0),
        (7000, 601),
        (7000, 600),
    ] {
        let stepped = gate::step(gate, list, time, msdu);
        gate = stepped.gate;
        print!(rt; "{time} {msdu}")?;
        match stepped.outcome {
            Outcome::Passed(ipv) => println!(rt; " pass {ipv}")?,
            Outcome::Blocked => println!(rt; " drop 3")?,
            Outcome::Closed => println!(rt; " drop 4")?,
            Outcome::TooManyOctets => println!(rt; " drop 5")?,
        }
    }
    Ok(())
}
