//! What the moment of a check may be written as.

use rpki_basics::Time;
use rpki_program::verify::request::When;
use rpki_program::verify::time::time_of;
use std::test::Fail;

/// The moment that a word names.
enum Named {
    Now,
    /// This day of a month of a year, and this time of day.
    At([u8; 2], u16, [u8; 3]),
    Nothing,
}

static MOMENTS: [(&str, Named); 30] = [
    ("now", Named::Now),
    ("20270101000000Z", Named::At([1, 1], 2027, [0, 0, 0])),
    ("2027-01-01T00:00:00Z", Named::At([1, 1], 2027, [0, 0, 0])),
    (
        "2024-02-29T23:59:59Z",
        Named::At([29, 2], 2024, [23, 59, 59]),
    ),
    ("0000-01-01T00:00:00Z", Named::At([1, 1], 0, [0, 0, 0])),
    (
        "9999-12-31T23:59:59Z",
        Named::At([31, 12], 9999, [23, 59, 59]),
    ),
    (
        "1985-04-12T23:20:50Z",
        Named::At([12, 4], 1985, [23, 20, 50]),
    ),
    ("1985-04-12T23:20:50.52Z", Named::Nothing),
    ("1996-12-19T16:39:57-08:00", Named::Nothing),
    ("1996-12-19T16:39:57+00:00", Named::Nothing),
    ("1990-12-31T23:59:60Z", Named::Nothing),
    ("2023-02-29T00:00:00Z", Named::Nothing),
    ("2027-13-01T00:00:00Z", Named::Nothing),
    ("2027-00-01T00:00:00Z", Named::Nothing),
    ("2027-01-32T00:00:00Z", Named::Nothing),
    ("2027-01-01T24:00:00Z", Named::Nothing),
    ("2027-01-01T00:60:00Z", Named::Nothing),
    ("2027-01-01t00:00:00Z", Named::Nothing),
    ("2027-01-01T00:00:00z", Named::Nothing),
    ("2027-01-01 00:00:00Z", Named::Nothing),
    ("2027-01-01T00:00:00", Named::Nothing),
    ("2027-01-01T00:00Z", Named::Nothing),
    ("2027-01-01", Named::Nothing),
    ("2027/01/01T00:00:00Z", Named::Nothing),
    ("2027-01-01T00-00-00Z", Named::Nothing),
    ("2027-0A-01T00:00:00Z", Named::Nothing),
    ("20270101T000000Z", Named::Nothing),
    ("Now", Named::Nothing),
    ("today", Named::Nothing),
    ("", Named::Nothing),
];

/// The moment, where it does not depend on a clock.
fn moment_of(wanted: &Named) -> Option<Time> {
    match wanted {
        Named::At([day, month], year, [hour, minute, second]) => {
            Time::utc(*year, *month, *day, *hour, *minute, *second)
        }
        _ => None,
    }
}

fn is_moment(when: When, wanted: &Named) -> bool {
    !matches!(wanted, Named::Nothing) && when.moment(None) == moment_of(wanted)
}

fn is_named(word: &str, wanted: &Named) -> bool {
    match time_of(word) {
        None => matches!(wanted, Named::Nothing),
        Some(when) => is_moment(when, wanted),
    }
}

fn are_named(rows: &[(&str, Named)]) -> bool {
    for (word, wanted) in rows {
        if !is_named(word, wanted) {
            return false;
        }
    }
    true
}

#[test]
fn words_name_moments(rt: HostRuntime) -> Result<(), Fail> {
    assert!(rt; are_named(&MOMENTS));
    Ok(())
}
