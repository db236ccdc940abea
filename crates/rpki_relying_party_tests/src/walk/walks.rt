//! Walks, row by row.

use super::numbers::Numbers;
use rpki_relying_party::{Places, Reading, Unread, Why, walk_from};
use std::alloc::{AllocError, Global};

/// Pairs of a place and a child, pairs of a place and what it says, the first place that costs 100,
/// the limit, what is found from place 0 on, and which places are left unread.
type Row = (
    &'static [(u8, u8)],
    &'static [(u8, u8)],
    u8,
    u64,
    &'static [u8],
    &'static [u8],
);

/// What each of some places says.
const SAID: &[(u8, u8)] = &[(0, 10), (1, 11), (2, 12), (3, 13), (3, 23), (4, 14)];

/// Places that issued each other, and one that issued itself.
const CIRCLE: &[(u8, u8)] = &[(0, 1), (1, 2), (2, 0), (2, 2), (2, 3), (3, 1), (1, 4)];

static ROWS: [Row; 12] = [
    (&[], &[], 255, 8, &[], &[]),
    (&[(0, 1)], SAID, 255, 80, &[10, 11], &[]),
    // of each key one is read, whichever told of it
    (
        &[(0, 1), (0, 1), (0, 2), (1, 3), (2, 3)],
        SAID,
        255,
        80,
        &[10, 11, 12, 13, 23],
        &[],
    ),
    (CIRCLE, SAID, 255, 80, &[10, 11, 12, 14, 13, 23], &[]),
    // with room for the first, with room for two, and with just as much as is needed
    (CIRCLE, SAID, 255, 1, &[10], &[1]),
    (CIRCLE, SAID, 255, 2, &[10, 11], &[2, 4]),
    (CIRCLE, SAID, 255, 5, &[10, 11, 12, 14, 13, 23], &[]),
    // one of 100 is tried with 1, 2, 4 .. 64, which is 127, before it is read
    (&[(0, 100), (0, 1)], SAID, 100, 228, &[10, 11], &[100]),
    (&[(0, 100), (0, 1)], SAID, 100, 229, &[10, 11], &[]),
    // and no more often where it is told more often: then each that was told is left, or one is read
    (
        &[(0, 100), (0, 100), (0, 100), (0, 1)],
        SAID,
        100,
        228,
        &[10, 11],
        &[100, 100, 100],
    ),
    (
        &[(0, 100), (0, 100), (0, 100), (0, 1)],
        SAID,
        100,
        229,
        &[10, 11],
        &[],
    ),
    // of whichever told it
    (
        &[(0, 100), (0, 1), (1, 100)],
        SAID,
        100,
        228,
        &[10, 11],
        &[100, 100],
    ),
];

/// Pairs of a place and a child, and the limit: from place 0 on, 2, 3 and 4 lead to the victim 5,
/// which says 77. Beside them something costs as much as all there is room for, or more.
static VICTIMS: [(&[(u8, u8)], u64); 6] = [
    // a neighbour with many dear children
    (
        &[
            (0, 1),
            (1, 100),
            (1, 101),
            (1, 102),
            (1, 103),
            (1, 104),
            (1, 105),
            (1, 106),
            (1, 107),
            (1, 108),
            (0, 2),
            (2, 3),
            (3, 4),
            (4, 5),
        ],
        60,
    ),
    // dear neighbours
    (
        &[
            (0, 100),
            (0, 101),
            (0, 102),
            (0, 103),
            (0, 104),
            (0, 105),
            (0, 106),
            (0, 107),
            (0, 108),
            (0, 2),
            (2, 3),
            (3, 4),
            (4, 5),
        ],
        90,
    ),
    // a neighbour that lists the victim too, after dear children
    (
        &[
            (0, 1),
            (1, 100),
            (1, 101),
            (1, 102),
            (1, 103),
            (1, 104),
            (1, 105),
            (1, 106),
            (1, 107),
            (1, 108),
            (1, 5),
            (0, 2),
            (2, 3),
            (3, 4),
            (4, 5),
        ],
        60,
    ),
    // one that lists it before all others, behind a dear place
    (&[(0, 100), (100, 5), (0, 2), (2, 3), (3, 4), (4, 5)], 60),
    // a circle of two, and one that lists a child many times
    (&[(0, 1), (1, 6), (6, 1), (0, 2), (2, 3), (3, 4), (4, 5)], 8),
    (
        &[
            (0, 1),
            (1, 6),
            (1, 6),
            (1, 6),
            (1, 6),
            (6, 7),
            (6, 7),
            (6, 7),
            (6, 7),
            (0, 2),
            (2, 3),
            (3, 4),
            (4, 5),
        ],
        8,
    ),
];

// Walks from place 0 on, which there is room to read. That there was no memory to read a place is
// handed on, but of the one for which there is none.
fn walked(
    alloc: Global,
    numbers: &Numbers<'_>,
    limit: u64,
    found: &mut Vec<u8>,
) -> Result<Vec<Unread<u8>>, AllocError> {
    match numbers.read(alloc, &0, limit)? {
        Reading::Cut => Err(AllocError),
        Reading::Told(told) => {
            let unread = walk_from(alloc, numbers, 0, told, limit, found)?;
            if unread.iter().any(|left| left.why == Why::Memory
                && numbers.large != Some(left.place))
            {
                return Err(AllocError);
            }
            Ok(unread)
        }
    }
}

// Whether these places are left, for the limit, and these numbers found.
fn is_right(alloc: Global, numbers: &Numbers<'_>, row: &Row) -> Result<bool, AllocError> {
    let (_, _, _, limit, wanted, left) = *row;
    let mut found = Vec::new(alloc);
    let unread = walked(alloc, numbers, limit, &mut found)?;
    let is_left = unread.len() == left.len()
        && unread
            .iter()
            .zip(left)
            .all(|(unread, place)| unread.place == *place);
    Ok(is_left && found.as_slice() == wanted)
}

fn are_right(alloc: Global, rows: &[Row]) -> Result<bool, AllocError> {
    for row in rows {
        let (issued, said, dear, _, _, _) = *row;
        let numbers = Numbers {
            issued,
            said,
            dear,
            large: None,
        };
        if !is_right(alloc, &numbers, row)? {
            return Ok(false);
        }
    }
    Ok(true)
}

#[test]
fn walks_read_each_place_once(rt: HostRuntime) -> Result<(), AllocError> {
    assert!(rt; are_right(rt.alloc(), &ROWS)?);
    Ok(())
}

// How many rows there are before the first in which the victim is not found, or all.
fn victims(alloc: Global, rows: &[(&[(u8, u8)], u64)]) -> Result<usize, AllocError> {
    for (at, (issued, limit)) in rows.iter().enumerate() {
        let numbers = Numbers {
            issued,
            said: &[(5, 77)],
            dear: 100,
            large: None,
        };
        let mut found = Vec::new(alloc);
        drop(walked(alloc, &numbers, *limit, &mut found)?);
        if found.as_slice() != [77].as_slice() {
            return Ok(at);
        }
    }
    Ok(rows.len())
}

#[test]
fn victims_are_found(rt: HostRuntime) -> Result<(), AllocError> {
    assert_eq!(rt; victims(rt.alloc(), &VICTIMS)?, VICTIMS.len());
    Ok(())
}

// Whether each telling of a place for which there is no memory is left, the first after a try.
fn are_lacking(alloc: Global) -> Result<bool, AllocError> {
    let numbers = Numbers {
        issued: &[(0, 9), (0, 1), (0, 9), (1, 9)],
        said: SAID,
        dear: 100,
        large: Some(9),
    };
    let mut found = Vec::new(alloc);
    let unread = walked(alloc, &numbers, 80, &mut found)?;
    let are_left = unread.iter().all(|left| left.place == 9
        && left.why == Why::Memory
        && left.tried <= 1);
    let tries = unread.iter().filter(|left| left.tried == 1).count();
    Ok(are_left && unread.len() == 3 && tries == 1 && found.as_slice() == [10, 11].as_slice())
}

#[test]
fn lacking_places_are_told(rt: HostRuntime) -> Result<(), AllocError> {
    assert!(rt; are_lacking(rt.alloc())?);
    Ok(())
}
