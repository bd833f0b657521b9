// What the programs print, put octet by octet on a page of fixed size (01, Program `ingress`).
// Octets for which the page has no place are left out, so that nothing here asks anything of the page.
#![tactic(auto)]

ghost use Rattle.std.specs.Prelude.{◌≡◌, ◌-◌, length, take, replicate};
ghost use Rattle.bank.specs.Meaning.{rows_of};
ghost use Rattle.text.specs.Meaning.{page, put_of, written, digits_of, pass_line_of, drop_line_of, end_line_of, refused_line_of, item_of, filter_items_of, gate_items_of, meter_item_of, port_item_of, report_of, time_of};

use bank::{Bank, Counters, Port};
use gate::Gate;
use meter::Meter;
use std::marker::Model;
use verdict::{Drop, Pass};

// The room that is kept for a line: none is longer (proofs/Room.antt).
pub const LINE: usize = 64;

// A buffer of N octets that is filled from its front.
#[derive(Drop)]
pub struct Page<const N: usize> {
    pub octets: [u8; N],
    // The place of the next octet; there is none from N on.
    pub filled: usize,
}

impl<const N: usize> Model for Page<N> {
    ghost use Rattle.text.specs.Meaning.{page, Page as Filling};

    ghost Value = { Filling };

    ghost view = { λ p. page p.octets p.filled };
}

impl<const N: usize> Page<N> {
    // Ruled out: a page that is full; a page of other octets.
    #[inline(always)]
    pub fn new() -> Page<N>
        ensures { result ≡ page (replicate N 0) 0 }
    {
        Page {
            octets: [0; N],
            filled: 0,
        }
    }

    // What is put so far.
    // Ruled out: the whole page; nothing of it.
    pub fn text(&self) -> &[u8]
        ensures { result.now ≡ take self.now.filled self.now.octets }
    {
        &self.octets[..self.filled.min(N)]
    }

    // How many octets still have a place.
    // Ruled out: how many are put; how many there may be in all.
    pub fn room(&self) -> usize
        ensures { result ≡ length self.now.octets - self.now.filled }
    {
        N.saturating_sub(self.filled)
    }

    // From its front again.
    // Ruled out: a page left as it is; its second place for its first.
    pub fn clear(&mut self)
        ensures { self.new ≡ page self.old.octets 0 }
    {
        self.filled = 0;
    }

    // Ruled out: another octet; the place not moved on.
    #[tactic(auto, using(crate::proofs::Laws::put_in, crate::proofs::Laws::put_past))]
    pub fn put_octet(&mut self, octet: u8)
        ensures { self.new ≡ put_of self.old octet }
    {
        let at = self.filled;
        if at < N {
            self.octets[at] = octet;
            self.filled = at + 1;
        }
    }
}

// Kept: `write!` to a page, as an `fmt::Write`, says nothing of the page where it answers an Err, and no put can fail: tried, `returns` of put_end stays open.
#[tactic(auto, using(crate::proofs::Laws::puts), unfolding(crate::specs::Meaning::written, crate::specs::Meaning::pass_line_of, crate::specs::Meaning::drop_line_of, crate::specs::Meaning::end_line_of, crate::specs::Meaning::refused_line_of, crate::specs::Meaning::filter_items_of, crate::specs::Meaning::gate_items_of, crate::specs::Meaning::up_to))]
impl<const N: usize> Page<N> {
    // All at once where there are places enough: that is faster.
    // Ruled out: the first one over and over; all at one place.
    pub fn put_octets(&mut self, octets: &[u8])
        ensures { self.new ≡ written self.old octets.now }
    {
        let at = self.filled;
        if at <= N && octets.len() <= N - at {
            let end = at + octets.len();
            let all = &mut self.octets[..];
            all[at..end].copy_from_slice(octets);
            self.filled = end;
        } else {
            for octet in octets {
                self.put_octet(*octet);
            }
        }
    }

    // In decimal, with no leading zeros. Two digits at a time take half as many calls.
    // Ruled out: a digit twice; the first digit left out.
    pub fn put_number(&mut self, n: u64)
        ensures { self.new ≡ written self.old (digits_of n) }
    {
        if n < 10 {
            return self.put_octet((n % 10 + 48) as u8);
        }
        if n >= 100 {
            self.put_number(n / 100);
        }
        self.put_octets(&[(n / 10 % 10 + 48) as u8, (n % 10 + 48) as u8]);
    }

    // The line of an arrival that passes.
    // Ruled out: the class for the priority; a time of 0 where there is none.
    pub fn put_pass(&mut self, arrival: u64, p: Pass)
        ensures { self.new ≡ written self.old (pass_line_of arrival p) }
    {
        self.put_number(arrival);
        self.put_octets(b" pass ");
        self.put_number(p.priority as u64);
        self.put_octet(b' ');
        self.put_number(p.class as u64);
        self.put_octet(b' ');
        self.put_number(p.drop_mark as u64);
        self.put_octet(b' ');
        self.put_time(p.timed, p.eligible);
        self.put_octet(b'\n');
    }

    fn put_time(&mut self, timed: bool, time: u64)
        ensures { self.new ≡ written self.old (time_of timed time) }
    {
        if timed {
            self.put_number(time);
        } else {
            self.put_octet(b'-');
        }
    }

    // The line of an arrival that is dropped.
    // Ruled out: a drop told as a pass; the reason before the arrival.
    pub fn put_drop(&mut self, arrival: u64, d: Drop)
        ensures { self.new ≡ written self.old (drop_line_of arrival d) }
    {
        self.put_number(arrival);
        self.put_octets(b" drop ");
        self.put_number(u8::from(d) as u64);
        self.put_octet(b'\n');
    }

    // The last line where no octet is left.
    // Ruled out: the word of another line; no end of line.
    pub fn put_end(&mut self, records: u64)
        ensures { self.new ≡ written self.old (end_line_of records) }
    {
        self.put_octets(b"end ");
        self.put_number(records);
        self.put_octet(b'\n');
    }

    // The last line at a refusal.
    // Ruled out: number and offset changed over; the word of another line.
    pub fn put_refused(&mut self, number: u8, offset: u64)
        ensures { self.new ≡ written self.old (refused_line_of number offset) }
    {
        self.put_octets(b"refused ");
        self.put_number(number as u64);
        self.put_octets(b" at ");
        self.put_number(offset);
        self.put_octet(b'\n');
    }

    // All that an operator looks at and that is not 0.
    // Ruled out: the value of another counter; the gates before the filters.
    pub fn put_report(&mut self, bank: &Bank)
        ensures { self.new ≡ written self.old (report_of (rows_of bank.now)) }
    {
        for filter in 0..sizes::FILTERS {
            self.put_filter(filter as u64, bank.counters_at(filter));
        }
        for gate in 0..sizes::GATES {
            self.put_gate(gate as u64, bank.gate_at(gate));
        }
        for meter in 0..sizes::METERS {
            self.put_meter(meter as u64, bank.meter_at(meter));
        }
        for port in 0..sizes::PORTS {
            self.put_port(port as u64, bank.port_at(port));
        }
    }

    fn put_filter(&mut self, n: u64, c: Counters)
        ensures { self.new ≡ written self.old (filter_items_of n c) }
    {
        self.put_item(b"filter ", n, b" MatchingFrames ", c.matching);
        self.put_item(b"filter ", n, b" PassingSDU ", c.passing_sdu);
        self.put_item(b"filter ", n, b" NotPassingSDU ", c.not_passing_sdu);
        self.put_item(b"filter ", n, b" PassingFrames ", c.passing);
        self.put_item(b"filter ", n, b" NotPassingFrames ", c.not_passing);
        self.put_item(b"filter ", n, b" REDFrames ", c.red);
        self.put_item(b"filter ", n, b" oversize ", c.oversize as u64);
    }

    fn put_gate(&mut self, n: u64, g: Gate)
        ensures { self.new ≡ written self.old (gate_items_of n g) }
    {
        self.put_item(
            b"gate ",
            n,
            b" invalid-receive ",
            g.invalid_receive_flag as u64,
        );
        self.put_item(b"gate ", n, b" octets ", g.octets_flag as u64);
    }

    fn put_meter(&mut self, n: u64, m: Meter)
        ensures { self.new ≡ written self.old (meter_item_of n m) }
    {
        self.put_item(b"meter ", n, b" red ", m.red_flag as u64);
    }

    fn put_port(&mut self, n: u64, p: Port)
        ensures { self.new ≡ written self.old (port_item_of n p) }
    {
        self.put_item(b"port ", n, b" DiscardedFrames ", p.discarded);
    }

    // One line of the report; nothing where the value is 0.
    fn put_item(&mut self, table: &[u8], n: u64, name: &[u8], value: u64)
        ensures { self.new ≡ written self.old (item_of table.now n name.now value) }
    {
        if value == 0 {
            return;
        }
        self.put_octets(table);
        self.put_number(n);
        self.put_octets(name);
        self.put_number(value);
        self.put_octet(b'\n');
    }
}
