use iv_time::{
    BadDuration, BadInstant, Granularity, bucket, finer, in_range, parse, parse_duration, write,
};

#[test]
fn texts_of_instants(rt: HostRuntime) {
    for (text, ms) in [
        ("2024-03-01", 1_709_251_200_000),
        ("2024-03-01T00:00Z", 1_709_251_200_000),
        ("2024-03-01T00:00:00", 1_709_251_200_000),
        ("2024-02-29T23:59:59.999Z", 1_709_251_199_999),
        ("2000-02-29", 951_782_400_000),
        ("1970-01-01T00:00:00.000", 0),
        ("0000-01-01", -62_167_219_200_000),
        ("9999-12-31T23:59:59.999", 253_402_300_799_999),
    ] {
        assert!(rt; parse(text.as_bytes()) == Ok(ms), "{text}");
    }
}

#[test]
fn texts_of_no_instant(rt: HostRuntime) {
    for text in [
        "2024-02-30",
        "2024-03-01T24:00Z",
        "",
        "2023-02-29",
        "1900-02-29",
        "2024-13-01",
        "2024-00-01",
        "2024-03-00",
        "2024-3-01",
        "2024-03-01Z",
        "2024-03-01T00",
        "2024-03-01T00:60",
        "2024-03-01T00:00:60",
        "2024-03-01T00:00:00.00Z",
        "2024-03-01T00:00ZZ",
        "2024-03-01t00:00",
        "+2024-03-01",
        " 2024-03-01",
    ] {
        assert!(rt; parse(text.as_bytes()) == Err(BadInstant), "{text}");
    }
}

#[test]
fn instants_are_written_in_full(rt: HostRuntime) {
    for (ms, text) in [
        (1_709_251_200_000, *b"2024-03-01T00:00:00.000Z"),
        (1_709_704_032_345, *b"2024-03-06T05:47:12.345Z"),
        (-1, *b"1969-12-31T23:59:59.999Z"),
        (-62_167_219_200_000, *b"0000-01-01T00:00:00.000Z"),
        (253_402_300_799_999, *b"9999-12-31T23:59:59.999Z"),
    ] {
        assert!(rt; write(ms) == text, "at {ms}");
    }
}

#[test]
fn instants_are_those_of_the_years_0_to_9999(rt: HostRuntime) {
    for (ms, is) in [
        (0, true),
        (-62_167_219_200_001, false),
        (253_402_300_800_000, false),
    ] {
        assert!(rt; in_range(ms) == is, "at {ms}");
    }
}

#[test]
fn buckets_of_a_wednesday(rt: HostRuntime) {
    let at = 1_709_704_032_345;
    for (granularity, start, end) in [
        (Granularity::Minute, 1_709_704_020_000, 1_709_704_080_000),
        (
            Granularity::FifteenMinute,
            1_709_703_900_000,
            1_709_704_800_000,
        ),
        (Granularity::Hour, 1_709_701_200_000, 1_709_704_800_000),
        (Granularity::Day, 1_709_683_200_000, 1_709_769_600_000),
        (Granularity::Week, 1_709_510_400_000, 1_710_115_200_000),
        (Granularity::Month, 1_709_251_200_000, 1_711_929_600_000),
        (Granularity::Year, 1_704_067_200_000, 1_735_689_600_000),
    ] {
        assert!(rt; bucket(granularity, at) == Some((start, end)));
    }
}

// 1900 was no leap year, and the epoch is no border of a bucket that lies before it.
#[test]
fn buckets_before_the_epoch(rt: HostRuntime) {
    for (granularity, at, start, end) in [
        (
            Granularity::Month,
            -2_203_934_400_000,
            -2_206_310_400_000,
            -2_203_891_200_000,
        ),
        (Granularity::Minute, -1, -60_000, 0),
        (
            Granularity::Year,
            -62_167_219_200_000,
            -62_167_219_200_000,
            -62_135_596_800_000,
        ),
    ] {
        assert!(rt; bucket(granularity, at) == Some((start, end)), "at {at}");
    }
}

#[test]
fn a_bucket_that_leaves_the_years_is_none(rt: HostRuntime) {
    for (granularity, at) in [
        (Granularity::Minute, 253_402_300_799_999),
        (Granularity::Year, 253_402_300_799_999),
        (Granularity::Week, -62_167_219_200_000),
    ] {
        assert!(rt; bucket(granularity, at) == None, "at {at}");
    }
}

#[test]
fn granularities_have_a_next_finer_one(rt: HostRuntime) {
    for (granularity, next) in [
        (Granularity::Year, Some(Granularity::Month)),
        (Granularity::Minute, None),
    ] {
        assert!(rt; finer(granularity) == next);
    }
}

#[test]
fn texts_of_durations(rt: HostRuntime) {
    for (text, ms) in [
        ("PT1H", 3_600_000),
        ("PT30M", 1_800_000),
        ("PT1H30M10S", 5_410_000),
        ("PT0H1S", 1_000),
        ("PT0000060M", 3_600_000),
        ("PT9999999H9999999M9999999S", 36_609_996_339_000),
    ] {
        assert!(rt; parse_duration(text.as_bytes()) == Ok(ms), "{text}");
    }
}

#[test]
fn texts_of_no_duration(rt: HostRuntime) {
    for text in [
        "",
        "PT",
        "PT0S",
        "P1D",
        "1H",
        "PT1",
        "PT1M1H",
        "PT1H1H",
        "PT12345678S",
        "pt1h",
        "PT-1S",
        "PT1.5S",
        "PT1S ",
    ] {
        assert!(rt;
            parse_duration(text.as_bytes()) == Err(BadDuration),
            "{text}"
        );
    }
}
