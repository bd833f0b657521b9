// The text form of records (docs/TEXT.md), put octet by octet into a page that is lent, as `text` does it.
// The text of a kind is a form, in which a capital letter stands for the value of a field (`put_value`).
#![tactic(auto)]

ghost use Rattle.std.specs.Prelude.{◌≡◌};
ghost use Rattle.text.specs.Meaning.{written};
ghost use Rattle.lines.specs.Meaning.{line_of};
ghost use Rattle.lines.specs.Form.{filled_in, shown_as, handle_as};

use record::Record;
use text::Page;

// The line of a record. A filter's any-handle and its handle are written as one.
// Kept: put on a page and no Display, for the reason that stands at text's `Page`.
// Ruled out: the name of another kind; the number 8 for the word null.
pub fn put_line<const N: usize>(page: &mut Page<N>, r: Record)
    ensures { page.new ≡ written page.old (line_of r) }
{
    match r {
        Record::Port(r) => put_form(
            page,
            b"port port=N overhead=N\n",
            &[r.port as u64, r.overhead as u64],
        ),
        Record::Filter(r) => {
            put_form(page, b"filter id=N handle=", &[r.id as u64]);
            put_handle(page, r.any_handle, r.handle);
            put_form(
                page,
                b" priority=A gate=N max-sdu=Z oversize-block=N meter=L scheduler=L\n",
                &[
                    r.priority as u64,
                    r.gate as u64,
                    r.max_sdu as u64,
                    r.oversize_block as u64,
                    r.meter as u64,
                    r.scheduler as u64,
                ],
            );
        }
        Record::Gate(r) => put_form(
            page,
            b"gate id=N state=N ipv=U invalid-receive-block=N octets-block=N base-time=N\n",
            &[
                r.id as u64,
                r.state as u64,
                r.ipv as u64,
                r.invalid_receive_block as u64,
                r.octets_block as u64,
                r.base_time,
            ],
        ),
        Record::GateEntry(r) => put_form(
            page,
            b"gate-entry gate=N state=N ipv=U interval=N octet-maximum=M\n",
            &[
                r.gate as u64,
                r.state as u64,
                r.ipv as u64,
                r.interval as u64,
                r.octet_maximum as u64,
            ],
        ),
        Record::Meter(r) => put_form(
            page,
            b"meter id=N cir=N cbs=N eir=N ebs=N coupling=N colour-aware=N drop-on-yellow=N red-block=N\n",
            &[
                r.id as u64,
                r.cir.0,
                r.cbs.0 as u64,
                r.eir.0,
                r.ebs.0 as u64,
                r.coupling as u64,
                r.colour_aware as u64,
                r.drop_on_yellow as u64,
                r.red_block as u64,
            ],
        ),
        Record::Group(r) => put_form(
            page,
            b"group id=N residence=N\n",
            &[r.id as u64, r.residence as u64],
        ),
        Record::Scheduler(r) => put_form(
            page,
            b"scheduler id=N group=N cir=N cbs=N\n",
            &[r.id as u64, r.group as u64, r.cir.0, r.cbs.0 as u64],
        ),
        Record::Start(r) => put_form(page, b"start classes=N\n", &[r.classes as u64]),
        Record::Arrival(r) => put_form(
            page,
            b"arrival port=N time=N handle=N priority=N drop-eligible=N msdu=N\n",
            &[
                r.port as u64,
                r.time,
                r.handle as u64,
                r.priority as u64,
                r.drop_eligible as u64,
                r.msdu as u64,
            ],
        ),
        Record::Clear(r) => put_form(page, b"clear flag=N id=N\n", &[r.flag as u64, r.id as u64]),
    }
}

fn put_handle<const N: usize>(page: &mut Page<N>, any: u8, handle: u32)
    ensures { page.new ≡ written page.old (handle_as any handle) }
{
    if any == 1 {
        page.put_octets(b"any");
    } else {
        page.put_number(handle as u64);
    }
}

// A form, its marks in turn replaced by the values.
fn put_form<const N: usize>(page: &mut Page<N>, form: &[u8], values: &[u64])
    ensures { page.new ≡ written page.old (filled_in form.now values.now) }
{
    let mut left = values.iter();
    for c in form {
        let value = if c.is_ascii_uppercase() {
            left.next()
        } else {
            None
        };
        match value {
            Some(value) => put_value(page, *c, *value),
            None => page.put_octet(*c),
        }
    }
}

// Kept: a mark is a letter of the form and no enum: the forms stand as the line is read.
// A value at its mark: for A 8 is `any`, for U 8 is `null`, for Z 0 is `none`, for L 255, for M 2^32 - 1; for N every value is a number.
#[tactic(auto, unfolding(crate::specs::Form::shown_as))]
fn put_value<const N: usize>(page: &mut Page<N>, mark: u8, value: u64)
    ensures { page.new ≡ written page.old (shown_as mark value) }
{
    match (mark, value) {
        (b'A', 8) => page.put_octets(b"any"),
        (b'U', 8) => page.put_octets(b"null"),
        (b'Z', 0) | (b'L', 255) | (b'M', 4_294_967_295) => page.put_octets(b"none"),
        _ => page.put_number(value),
    }
}
