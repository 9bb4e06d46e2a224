use crate::{ClockRefusal, Drift, TICK_GRAIN, TableClock, TaskClock, TaskClockNumbers};

// While the local clock gains 3 ticks, the table's gains at most 4, and 1 at once.
fn fast_by_a_third() -> Drift {
    Drift {
        extra: 1,
        per: 3,
        grain: 1,
    }
}

#[test]
fn task_reads_least_bound(rt: HostRuntime) {
    let mut clock = TaskClock::new(fast_by_a_third(), 1_000);
    assert_eq!(rt; clock.read(5), Err(ClockRefusal::NoSample));
    // 100 and 2 ticks, of which a third is rounded up, and a grain
    assert_eq!(rt; clock.sample(10, 100, 12), Ok(()));
    assert_eq!(rt; clock.read(12), Ok(104));
    assert_eq!(rt; clock.read(16), Ok(109));
    // a better sample, first below what was answered
    assert_eq!(rt; clock.sample(14, 103, 16), Ok(()));
    assert_eq!(rt; clock.read(17), Ok(109));
    assert_eq!(rt; clock.read(18), Ok(110));
    // an answer that came late, and is better still
    assert_eq!(rt; clock.sample(11, 90, 18), Ok(()));
    assert_eq!(rt; clock.read(18), Ok(110));
    assert_eq!(rt; clock.read(40), Ok(130));
    // one that is worse
    assert_eq!(rt; clock.sample(40, 140, 41), Ok(()));
    assert_eq!(rt; clock.read(41), Ok(131));
}

#[test]
fn task_counts_the_age_of_the_newest_sample(rt: HostRuntime) {
    let mut clock = TaskClock::new(fast_by_a_third(), 30);
    assert_eq!(rt; clock.sample(10, 100, 11), Ok(()));
    // worse than the first, and newer
    assert_eq!(rt; clock.sample(20, 120, 21), Ok(()));
    assert_eq!(rt; clock.read(50), Ok(155));
    assert_eq!(rt; clock.read(51), Err(ClockRefusal::TooOld));
    // an older one changes nothing
    assert_eq!(rt; clock.sample(15, 130, 51), Ok(()));
    assert_eq!(rt; clock.read(51), Err(ClockRefusal::TooOld));
    assert_eq!(rt; clock.sample(51, 158, 52), Ok(()));
    assert_eq!(rt; clock.read(52), Ok(157));
}

#[test]
fn drift_has_a_period(rt: HostRuntime) {
    assert_eq!(rt; Drift::new(1, 0, TICK_GRAIN), None);
    assert_eq!(rt; Drift::new(1, 3, 1), Some(fast_by_a_third()));
}

// Two clocks within 100 parts in a million of true time each, in nanoseconds: a reading of 10^18,
// asked for at 5 * 10^18 and read a second later, may have come to 1 second, 201 microseconds and
// the grain more.
#[test]
fn task_reads_nanoseconds(rt: HostRuntime) {
    let drift = Drift {
        extra: 201,
        per: 1_000_000,
        grain: TICK_GRAIN,
    };
    let mut clock = TaskClock::new(drift, u64::MAX);
    let sent = 5_000_000_000_000_000_000;
    assert_eq!(rt;
        clock.sample(sent, 1_000_000_000_000_000_000, sent + 3_000_000),
        Ok(())
    );
    assert_eq!(rt;
        clock.read(sent + 1_000_000_000),
        Ok(1_000_000_001_000_201_002)
    );
}

#[test]
fn task_refuses(rt: HostRuntime) {
    let mut clock = TaskClock::new(fast_by_a_third(), u64::MAX);
    assert_eq!(rt; clock.sample(9, 100, 8), Err(ClockRefusal::SentAhead));
    assert_eq!(rt; clock.read(8), Err(ClockRefusal::NoSample));
    assert_eq!(rt; clock.sample(8, u64::MAX - 4, 8), Ok(()));
    assert_eq!(rt; clock.read(7), Err(ClockRefusal::LocalClockBack));
    assert_eq!(rt; clock.sample(7, 3, 7), Err(ClockRefusal::LocalClockBack));
    assert_eq!(rt; clock.read(10), Ok(u64::MAX));
    assert_eq!(rt; clock.read(11), Err(ClockRefusal::TooLarge));
    assert_eq!(rt; clock.read(u64::MAX), Err(ClockRefusal::TooLarge));
    assert_eq!(rt; clock.read(10), Ok(u64::MAX));
}

// A drift of 1, in so many ticks that 64 bits are too few for what is divided from 2 ticks on.
#[test]
fn numbers_are_read_as_their_clock(rt: HostRuntime) {
    let mut numbers = TaskClockNumbers {
        extra: 1 << 63,
        per: 1 << 63,
        grain: 1,
        oldest: 9,
        sampled: 1,
        sent: 10,
        reading: 100,
        newest: 10,
        last: 10,
        given: 0,
    };
    assert_eq!(rt; numbers.read(11), Some(Ok(103)));
    assert_eq!(rt; numbers.read(14), Some(Ok(109)));
    assert_eq!(rt; (numbers.last, numbers.given), (14, 109));
    assert_eq!(rt; numbers.read(13), Some(Err(ClockRefusal::LocalClockBack)));
    assert_eq!(rt; numbers.read(20), Some(Err(ClockRefusal::TooOld)));
    assert_eq!(rt; (numbers.last, numbers.given), (14, 109));
    numbers.per = 0;
    assert_eq!(rt; numbers.read(20), None);
}

#[test]
fn table_goes_on_from_what_was_kept(rt: HostRuntime) {
    let mut clock = TableClock::open(1000, 100, 7);
    assert_eq!(rt; clock.read(50), Err(ClockRefusal::NotYet { until: 1000 }));
    assert_eq!(rt; clock.read(106), Err(ClockRefusal::NotYet { until: 1000 }));
    assert_eq!(rt; clock.read(107), Ok(1000));
    assert_eq!(rt; clock.read(110), Ok(1003));
    assert_eq!(rt; clock.read(109), Err(ClockRefusal::LocalClockBack));
    assert_eq!(rt; clock.read(110), Ok(1003));
    let mut first = TableClock::open(0, 100, 40);
    assert_eq!(rt; first.read(40), Ok(0));
    assert_eq!(rt; first.read(41), Ok(1));
    let mut last = TableClock::open(u64::MAX, 0, 0);
    assert_eq!(rt; last.read(0), Ok(u64::MAX));
    assert_eq!(rt; last.read(1), Err(ClockRefusal::TooLarge));
}
