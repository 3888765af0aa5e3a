//! Marks that no frame gets from a script: of a frame that is red already, of more octets than a frame has, and at an
//! instant that falls. `examples/tables/frames-meters.txt` has the others.
ghost use Rattle.std.specs.Prelude.{◌≤◌, ◌^◌};

use crate::comparing::same;
use std::process::Abort;
use tsn_meter::bucket::{Bucket, Colour};
use tsn_samples::meter_of;
use tsn_types::numbers::{BitRate, Instant, Octets};
use tsn_types::records::FlowMeter;

fn instant(number: u64) -> Instant
    requires { number ≤ 2 ^ 62 }
{
    Instant::new(number).unwrap()
}

fn octets(number: u64) -> Octets
    requires { number ≤ 4294967295 }
{
    Octets::new(number).unwrap()
}

/// The mark of a green frame.
fn mark(bucket: &mut Bucket, meter: &FlowMeter, now: u64, count: u64) -> Colour
    requires time { now ≤ 2 ^ 62 }
    requires length { count ≤ 4294967295 }
{
    bucket.mark(meter, instant(now), octets(count), Colour::Green)
}

/// In colour-aware mode a red frame stays red and takes nothing, and a drop eligible one tries the excess alone; in
/// blind mode every frame counts as green.
fn colours_count(rt: &impl Abort) {
    let blind = meter_of(100, 100);
    let aware = FlowMeter {
        aware: true,
        ..blind
    };
    let mut bucket = Bucket::full(&aware, instant(0));
    for (by, count, colour, marked) in [
        (aware, octets(100), Colour::Red, Colour::Red),
        (aware, octets(100), Colour::Yellow, Colour::Yellow),
        (aware, octets(1), Colour::Yellow, Colour::Red),
        (blind, octets(100), Colour::Yellow, Colour::Green),
    ] {
        same(rt, &bucket.mark(&by, instant(0), count, colour), &marked);
    }
}

/// The greatest rates and sizes over the longest time: the excess is full again by what overflows, and no more.
fn greatest_numbers(rt: &impl Abort) {
    let most = 4_294_967_295;
    let meter = FlowMeter {
        cir: BitRate::new(1_000_000_000_000).unwrap(),
        eir: BitRate::new(1_000_000_000_000).unwrap(),
        cf: true,
        ..meter_of(most, most)
    };
    let mut bucket = Bucket::full(&meter, instant(0));
    for now in [0, 1 << 62] {
        same(rt, &mark(&mut bucket, &meter, now, most), &Colour::Green);
        same(rt, &mark(&mut bucket, &meter, now, most), &Colour::Yellow);
        same(rt, &mark(&mut bucket, &meter, now, 1), &Colour::Red);
    }
}

/// An instant before the last one adds nothing.
fn earlier_instant(rt: &impl Abort) {
    let meter = meter_of(100, 0);
    let mut bucket = Bucket::full(&meter, instant(1_000_000));
    let first = mark(&mut bucket, &meter, 1_000_000, 100);
    same(rt, &first, &Colour::Green);
    same(rt, &mark(&mut bucket, &meter, 0, 1), &Colour::Red);
}

#[test]
fn marks_that_no_frame_gets(rt: HostRuntime) {
    colours_count(&rt);
    greatest_numbers(&rt);
    earlier_instant(&rt);
}
