// Schedulers: ★A to ★E.
use bucket::{Octets, Rate};
use scheduler::{Offer, Outcome, Scheduler};
use std::io;

// A scheduler that is alone in its group, and the group's last time.
#[derive(Clone, Copy)]
struct Alone {
    scheduler: Scheduler,
    group: u64,
}

impl Alone {
    // A burst of 1000 octets, all there.
    fn full(rate: u64) -> Alone {
        Alone {
            scheduler: Scheduler {
                rate: Rate(rate),
                burst: Octets(1000),
                level: bucket::full(Octets(1000)),
                last: 0,
            },
            group: 0,
        }
    }

    // A frame of 500 octets, with a residence of 10,000 ns.
    fn offer(&mut self, rt: &impl Print, arrival: u64) -> io::Result<()> {
        let outcome = self.scheduler.step_in_place(Offer {
            group: self.group,
            residence: 10_000,
            arrival,
            length: Octets(500),
        });
        match outcome {
            Outcome::Admitted { at } => {
                self.group = at;
                print!(rt; " {at}")
            }
            Outcome::Dropped => print!(rt; " drop 8"),
            Outcome::Refused => print!(rt; " refused 3"),
        }
    }
}

pub fn print(rt: &impl Print) -> io::Result<()> {
    print!(rt; "A")?;
    let mut s = Alone::full(1_000_000_000);
    s.offer(rt, 0)?;
    s.offer(rt, 0)?;
    s.offer(rt, 0)?;
    let group = s.group;
    s.offer(rt, 0)?;
    print!(rt; "\nB")?;
    s.offer(rt, 0)?;
    print!(rt; "\nC")?;
    s.offer(rt, 2000)?;
    print!(rt; "\nD")?;
    let mut s = Alone::full(3_000_000_000);
    for _ in 0..5 {
        s.offer(rt, 0)?;
    }
    // Another scheduler of the group, after A's third.
    print!(rt; "\nE")?;
    let mut s = Alone {
        group,
        ..Alone::full(1_000_000_000)
    };
    s.offer(rt, 0)?;
    println!(rt; "")
}
