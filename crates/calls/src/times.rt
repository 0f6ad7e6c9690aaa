//! Spans, instants and waits (`time_text`).

use time_text::{DurationRefused, TimeRefused, backoff_delay, read_created, read_duration};

const BAD: Result<u64, DurationRefused> = Err(DurationRefused::BadForm);

const LONG: Result<u64, DurationRefused> = Err(DurationRefused::TooLong);

#[test]
fn reads_durations(rt: HostRuntime) {
    for (text, seconds) in [
        ("1h2m3s", Ok(3723)),
        ("90", Ok(90)),
        ("2m", Ok(120)),
        ("1h1s", Ok(3601)),
        ("00000001s", Ok(1)),
        ("0", Ok(0)),
        ("31536000", Ok(31_536_000)),
        ("31536001", LONG),
        ("8760h", Ok(31_536_000)),
        ("8760h0m1s", LONG),
        ("99999999h99999999m99999999s", LONG),
        ("100000000", BAD),
        ("", BAD),
        ("5x", BAD),
        ("h", BAD),
        ("1m1h", BAD),
        ("1s1s", BAD),
        ("1h2", BAD),
        ("-1", BAD),
        ("1 m", BAD),
    ] {
        assert_eq!(rt; read_duration(text), seconds, "{text}");
    }
}

/// An instant lies in the second that began before it, before 1970 too.
#[test]
fn reads_instants_and_waits(rt: HostRuntime) {
    for (text, second) in [
        ("2024-05-01T10:00:00Z", Ok(1_714_557_600)),
        ("1970-01-01T00:00:00Z", Ok(0)),
        ("1970-01-01T01:00:00.999+01:00", Ok(0)),
        ("1969-12-31T23:59:59.999Z", Ok(-1)),
        ("1969-12-31T23:59:58.5Z", Ok(-2)),
        ("1969-12-31T23:59:58Z", Ok(-2)),
        ("2024-05-01T10:00:00", Err(TimeRefused::Bad)),
        ("x", Err(TimeRefused::Bad)),
    ] {
        assert_eq!(rt; read_created(text), second, "{text}");
    }
    for (duration, factor, attempt, wait) in [
        (5, 2, 3, 20),
        (5, 2, 1, 5),
        (5, 1, 9, 5),
        (5, 0, 1, 5),
        (5, 0, 2, 0),
        (0, 1000, 9, 0),
        (5, 1000, 4_000_000_000, 31_536_000),
        (31_536_001, 1, 1, 31_536_000),
        (u64::MAX, u64::MAX, u32::MAX, 31_536_000),
    ] {
        assert!(rt; attempt >= 1);
        assert_eq!(rt;
            backoff_delay(duration, factor, attempt),
            wait,
            "{duration} {factor} {attempt}"
        );
    }
}
