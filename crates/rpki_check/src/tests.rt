//! Each call, on the files of examples/, which `openssl` signed.

mod octets;

use crate::edition::Edition;
use crate::exports::{
    rpki_check_aspa, rpki_check_checklist, rpki_check_edition, rpki_check_manifest,
    rpki_check_object, rpki_check_objects, rpki_check_roa, rpki_check_show, rpki_check_signature,
    rpki_check_version,
};
use crate::files::Entry;
use crate::many::Object;
use crate::question::{Date, Octets, Question};
use crate::rows::Payload;
use octets::{
    ANCHOR, AUTHORITY, HOLDING, KEY, LETTER, MANIFEST, ORIGIN, PROVIDERS, REVOKING, SIGNATURE,
    SIGNED,
};
use std::alloc::Global;

static CHAIN: [Octets<'static>; 1] = [Octets { octets: AUTHORITY }];

static LISTS: [Octets<'static>; 1] = [Octets { octets: REVOKING }];

/// The question about the files of examples/, in this year and with these lists.
fn asked<'a>(year: u16, lists: &'a [Octets<'a>]) -> Question<'a> {
    Question {
        anchor: ANCHOR,
        chain: &CHAIN,
        lists,
        moment: Date {
            year,
            month: 1,
            day: 1,
            hour: 0,
            minute: 0,
            second: 0,
        },
        relaxed: 0,
        registered: 0,
        wide: 0,
    }
}

/// The status and the length of the text of an object of a kind.
fn status_of(alloc: Global, question: &Question<'_>, kind: u32, object: &[u8]) -> (u32, usize) {
    let mut room = [0; 4096];
    let mut len = 0;
    let status = rpki_check_object(alloc, question, kind, object, &mut room, &mut len);
    (status, len)
}

#[test]
fn the_version_is_one(rt: HostRuntime) {
    assert_eq!(rt; rpki_check_version(), 65536);
}

#[test]
fn signatures_are_verified(rt: HostRuntime) {
    let alloc = rt.alloc();
    assert_eq!(rt; rpki_check_signature(alloc, KEY, SIGNED, SIGNATURE), 0);
    assert_eq!(rt; rpki_check_signature(alloc, KEY, SIGNATURE, SIGNATURE), 303);
    assert_eq!(rt; rpki_check_signature(alloc, SIGNED, SIGNED, SIGNATURE), 303);
}

#[test]
fn objects_of_each_kind_are_good(rt: HostRuntime) {
    let question = asked(2027, &[]);
    let alloc = rt.alloc();
    assert_eq!(rt; status_of(alloc, &question, 1, ORIGIN), (0, 62));
    assert_eq!(rt; status_of(alloc, &question, 2, PROVIDERS).0, 0);
    assert_eq!(rt; status_of(alloc, &question, 3, MANIFEST).0, 0);
    assert_eq!(rt; status_of(alloc, &question, 4, LETTER).0, 0);
}

#[test]
fn objects_are_shown(rt: HostRuntime) {
    let question = asked(10000, &[]);
    let mut room = [0; 62];
    let mut len = 0;
    let status = rpki_check_show(rt.alloc(), &question, 0, ORIGIN, &mut room, &mut len);
    assert_eq!(rt; (status, len), (0, 62));
    let text = b"roa\nas AS64496\norigin 192.0.2.0/24-26\norigin 2001:db8::/32-48\n";
    assert_eq!(rt; room.as_slice(), text.as_slice());
    let status = rpki_check_show(rt.alloc(), &question, 0, ANCHOR, &mut room, &mut len);
    assert_eq!(rt; (status, len), (3, 0));
}

#[test]
fn attestations_are_granted(rt: HostRuntime) {
    let alloc = rt.alloc();
    let question = asked(2027, &[]);
    assert_eq!(rt; status_of(alloc, &question, 5, HOLDING).0, 0);
    assert_eq!(rt; status_of(alloc, &question, 0, HOLDING).0, 0);
    assert_eq!(rt; status_of(alloc, &question, 5, ORIGIN).0, 100);
    let mut room = [0; 4];
    let mut len = 0;
    let status = rpki_check_show(alloc, &question, 0, HOLDING, &mut room, &mut len);
    assert_eq!(rt; (status, len > 4), (0, true));
    assert_eq!(rt; room, [0; 4]);
}

#[test]
fn refusals_have_numbers(rt: HostRuntime) {
    let alloc = rt.alloc();
    let question = asked(2027, &[]);
    assert_eq!(rt; status_of(alloc, &question, 2, ORIGIN).0, 100);
    assert_eq!(rt; status_of(alloc, &question, 9, ORIGIN), (3, 0));
    assert_eq!(rt; status_of(alloc, &asked(10000, &[]), 1, ORIGIN).0, 2);
    assert_eq!(rt; status_of(alloc, &asked(2041, &[]), 1, ORIGIN).0, 1306);
    assert_eq!(rt; status_of(alloc, &asked(2027, &LISTS), 1, ORIGIN).0, 337);
    assert_eq!(rt; status_of(alloc, &asked(2027, &CHAIN), 1, ORIGIN).0, 4);
}

#[test]
fn a_text_that_does_not_fit_is_not_written(rt: HostRuntime) {
    let question = asked(2027, &[]);
    let mut room = [7; 10];
    let mut len = 0;
    let status = rpki_check_object(rt.alloc(), &question, 1, ORIGIN, &mut room, &mut len);
    assert_eq!(rt; (status, len), (0, 62));
    assert_eq!(rt; room, [7; 10]);
}

#[test]
fn rows_are_those_of_the_content(rt: HostRuntime) {
    let question = asked(2027, &[]);
    let mut rows = [Payload {
        address: [7; 16],
        asn: 7,
        family: 7,
        prefix_length: 7,
        max_length: 7,
        zero: 7,
    }; 3];
    let mut count = 0;
    let status = rpki_check_roa(rt.alloc(), &question, ORIGIN, &mut rows, &mut count);
    assert_eq!(rt; (status, count), (0, 2));
    assert_eq!(rt;
        (rows[0].asn, rows[0].family, rows[0].prefix_length),
        (64496, 4, 24)
    );
    assert_eq!(rt;
        (rows[1].max_length, rows[1].family, rows[1].zero),
        (48, 6, 0)
    );
    assert_eq!(rt; rows[2].asn, 7);
    let mut numbers = [0; 8];
    let status = rpki_check_aspa(rt.alloc(), &question, PROVIDERS, &mut numbers, &mut count);
    assert_eq!(rt; status, 0);
    assert_eq!(rt; numbers[0], 64496);
}

#[test]
fn files_are_those_of_the_content(rt: HostRuntime) {
    let question = asked(2027, &[]);
    let mut rows = [Entry {
        name: 7,
        name_length: 7,
        hash: 7,
        hash_length: 7,
        named: 7,
    }; 8];
    let mut octets = [0; 1024];
    let mut count = 0;
    let mut len = 0;
    let alloc = rt.alloc();
    let status = rpki_check_manifest(
        alloc,
        &question,
        MANIFEST,
        &mut rows,
        &mut count,
        &mut octets,
        &mut len,
    );
    assert_eq!(rt; (status, count), (0, 6));
    assert_eq!(rt; (octets[0], octets[12]), (b'a', b'l'));
    assert_eq!(rt;
        (rows[0].name_length, rows[0].hash, rows[0].hash_length),
        (13, 13, 32)
    );
    let status = rpki_check_checklist(
        alloc,
        &question,
        LETTER,
        &mut rows,
        &mut count,
        &mut octets,
        &mut len,
    );
    assert_eq!(rt; (status, count, rows[0].named), (0, 2, 1));
    assert_eq!(rt; rows[0].hash_length, 32);
}

#[test]
fn a_manifest_has_a_number_and_moments(rt: HostRuntime) {
    let question = asked(2027, &[]);
    let mut edition = Edition {
        this_update: 7,
        next_update: 7,
    };
    let mut room = [0; 40];
    let mut len = 0;
    let alloc = rt.alloc();
    let status = rpki_check_edition(alloc, &question, ORIGIN, &mut edition, &mut room, &mut len);
    assert_eq!(rt; (status, len, edition.this_update), (100, 0, 7));
    let status = rpki_check_edition(
        alloc,
        &question,
        MANIFEST,
        &mut edition,
        &mut room,
        &mut len,
    );
    assert_eq!(rt; (status, len, room[0]), (0, 1, b'1'));
    assert_eq!(rt; edition.this_update < edition.next_update, true);
}

#[test]
fn many_objects_are_judged(rt: HostRuntime) {
    let question = asked(2027, &LISTS);
    let objects = [
        Object {
            kind: 1,
            octets: ORIGIN,
        },
        Object {
            kind: 0,
            octets: MANIFEST,
        },
        Object {
            kind: 6,
            octets: LETTER,
        },
        Object {
            kind: 0,
            octets: HOLDING,
        },
    ];
    let mut room = [7; 4];
    let mut count = 0;
    let status = rpki_check_objects(rt.alloc(), &question, &objects, &mut room, &mut count);
    assert_eq!(rt; (status, count), (0, 4));
    assert_eq!(rt; room, [337, 0, 3, 0]);
}
