//! Rows of moments and of their texts.

use rpki_basics::Time;
use std::alloc::{AllocError, Global};

/// A text, and the moment that it names, if there is one: those of Python's datetime.
static ROWS: [(&str, &str); 40] = [
    ("19000229000000Z", ""),
    ("20000229000000Z", "2000-02-29T00:00:00Z"),
    ("20230229000000Z", ""),
    ("20240229235959Z", "2024-02-29T23:59:59Z"),
    ("99991231235959Z", "9999-12-31T23:59:59Z"),
    ("19491231235959Z", "1949-12-31T23:59:59Z"),
    ("19500101000000Z", "1950-01-01T00:00:00Z"),
    ("20491231235959Z", "2049-12-31T23:59:59Z"),
    ("20500101000000Z", "2050-01-01T00:00:00Z"),
    ("20240101000000Z", "2024-01-01T00:00:00Z"),
    ("20240101240000Z", ""),
    ("20240101006000Z", ""),
    ("20240101000060Z", ""),
    ("20240001000000Z", ""),
    ("20241301000000Z", ""),
    ("20240100000000Z", ""),
    ("20240431000000Z", ""),
    ("00010101000000Z", "0001-01-01T00:00:00Z"),
    ("21000229120000Z", ""),
    ("24000229120000Z", "2400-02-29T12:00:00Z"),
    ("16910428232530Z", "1691-04-28T23:25:30Z"),
    ("10900326002535Z", "1090-03-26T00:25:35Z"),
    ("36370526163423Z", "3637-05-26T16:34:23Z"),
    ("17400527081359Z", "1740-05-27T08:13:59Z"),
    ("42650131081210Z", "4265-01-31T08:12:10Z"),
    ("61020528025438Z", "6102-05-28T02:54:38Z"),
    ("63560631161511Z", ""),
    ("45880429025952Z", "4588-04-29T02:59:52Z"),
    ("01190928093645Z", "0119-09-28T09:36:45Z"),
    ("31970530132738Z", "3197-05-30T13:27:38Z"),
    ("73960529051419Z", "7396-05-29T05:14:19Z"),
    ("13290526012940Z", "1329-05-26T01:29:40Z"),
    ("87600530203044Z", "8760-05-30T20:30:44Z"),
    ("32050627022658Z", "3205-06-27T02:26:58Z"),
    ("72280431081122Z", ""),
    ("96470731104035Z", "9647-07-31T10:40:35Z"),
    ("16550428014514Z", "1655-04-28T01:45:14Z"),
    ("38900530032159Z", "3890-05-30T03:21:59Z"),
    ("75210328000222Z", "7521-03-28T00:02:22Z"),
    ("46811226234320Z", "4681-12-26T23:43:20Z"),
];

/// Texts of another form.
static OTHERS: [&str; 6] = [
    "20240101000000",
    "20240101000000z",
    "20240101000000ZZ",
    "2024-01-0100000Z",
    "240101000000Z",
    "",
];

// Whether each text names its moment, or none.
fn are_named(alloc: Global) -> Result<bool, AllocError> {
    for (text, want) in &ROWS {
        match Time::from_generalized(text.as_bytes()) {
            None if want.is_empty() => {}
            Some(time) if format!(in alloc; "{time}")?.as_str() == *want => {}
            _ => return Ok(false),
        }
    }
    Ok(true)
}

/// Years, months and days, and whether there is one.
static DAYS: [(u16, u8, u8, bool); 5] = [
    (0, 2, 29, true),
    (9999, 12, 31, true),
    (10000, 1, 1, false),
    (1900, 2, 29, false),
    (2000, 2, 29, true),
];

// Whether other texts name no moment, and each day is there or not.
fn are_there() -> bool {
    for text in &OTHERS {
        if Time::from_generalized(text.as_bytes()).is_some() {
            return false;
        }
    }
    for (year, month, day, is_there) in &DAYS {
        if Time::utc(*year, *month, *day, 0, 0, 0).is_some() != *is_there {
            return false;
        }
    }
    true
}

#[test]
fn named(rt: HostRuntime) -> Result<(), AllocError> {
    assert!(rt; are_named(rt.alloc())? && are_there());
    Ok(())
}
