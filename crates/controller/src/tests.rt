// Worked examples, each expected value computed by hand from the definitions. A line of bytes is a record.
use crate::answers::{CountAnswer, TableAnswer};
use crate::counts::splitter_count;
use crate::tables::splitter_table;
use std::process::Abort;

// The buffer has room for six rules, and holds only 7 before the call.
fn is_table(rt: &impl Abort, width: u32, weight: u32, rules: u32, expected: &[u8; 48]) {
    let mut out = [7; 48];
    assert_eq!(rt;
        splitter_table(width, weight, &mut out),
        TableAnswer { refusal: 0, rules }
    );
    assert_eq!(rt; out, *expected);
}

#[test]
fn tables_from_below_and_from_above(rt: HostRuntime) {
    is_table(
        &rt,
        8,
        51,
        5,
        b"\x00\x00\x00\x00\x00\x02\x00\x00\
          \x00\x00\x00\x00\x02\x01\x00\x00\
          \x00\x00\x00\x30\x04\x02\x00\x00\
          \x00\x00\x00\x30\x06\x01\x00\x00\
          \x00\x00\x00\x33\x08\x02\x00\x00\
          \x07\x07\x07\x07\x07\x07\x07\x07",
    );
    is_table(
        &rt,
        8,
        205,
        5,
        b"\x00\x00\x00\x00\x00\x01\x00\x00\
          \x00\x00\x00\xc0\x02\x02\x00\x00\
          \x00\x00\x00\xc0\x04\x01\x00\x00\
          \x00\x00\x00\xcc\x06\x02\x00\x00\
          \x00\x00\x00\xcc\x08\x01\x00\x00\
          \x07\x07\x07\x07\x07\x07\x07\x07",
    );
}

// 2^20 + 2^9 + 1 of 2^24 addresses: starts of three bytes.
#[test]
fn byte_order(rt: HostRuntime) {
    is_table(
        &rt,
        24,
        1_049_089,
        4,
        b"\x00\x00\x00\x00\x00\x02\x00\x00\
          \x00\x00\x00\x00\x04\x01\x00\x00\
          \x00\x10\x00\x00\x0f\x01\x00\x00\
          \x00\x10\x02\x00\x18\x01\x00\x00\
          \x07\x07\x07\x07\x07\x07\x07\x07\
          \x07\x07\x07\x07\x07\x07\x07\x07",
    );
}

fn no_table(rt: &impl Abort, width: u32, weight: u32, refusal: u32) {
    let mut out = [7; 39];
    assert_eq!(rt;
        splitter_table(width, weight, &mut out),
        TableAnswer { refusal, rules: 0 }
    );
    assert_eq!(rt; out, [7; 39]);
}

#[test]
fn refused_tables(rt: HostRuntime) {
    no_table(&rt, 0, 2, 3);
    no_table(&rt, 25, 0, 3);
    no_table(&rt, 8, 257, 8);
    no_table(&rt, 8, 51, 16);
}

fn is_count(
    rt: &impl Abort,
    width: u32,
    records: &[u8],
    shares: (u32, u32, u32),
    excess: Option<u32>,
) {
    let (one, two, unmatched) = shares;
    assert_eq!(rt;
        splitter_count(width, records),
        CountAnswer {
            refusal: 0,
            one,
            two,
            unmatched,
            complete: excess.is_some() as u32,
            excess: excess.unwrap_or(0),
        }
    );
}

#[test]
fn counts(rt: HostRuntime) {
    // The table of 51 from the longest prefix on.
    is_count(
        &rt,
        8,
        b"\x00\x00\x00\x33\x08\x02\x00\x00\
          \x00\x00\x00\x30\x06\x01\x00\x00\
          \x00\x00\x00\x30\x04\x02\x00\x00\
          \x00\x00\x00\x00\x02\x01\x00\x00\
          \x00\x00\x00\x00\x00\x02\x00\x00",
        (51, 205, 0),
        Some(0),
    );
    // A rule for nothing behind one for all; a gap; one address of 2^24; no rule.
    is_count(
        &rt,
        8,
        b"\x00\x00\x00\x00\x00\x02\x00\x00\
          \x00\x00\x00\x00\x02\x01\x00\x00",
        (0, 256, 0),
        Some(1),
    );
    is_count(
        &rt,
        8,
        b"\x00\x00\x00\x00\x02\x01\x00\x00\
          \x00\x00\x00\x80\x01\x02\x00\x00",
        (64, 128, 64),
        None,
    );
    is_count(
        &rt,
        24,
        b"\x00\x10\x02\x00\x18\x01\x00\x00",
        (1, 0, 16_777_215),
        None,
    );
    is_count(&rt, 8, b"", (0, 0, 256), None);
}

fn no_count(rt: &impl Abort, width: u32, records: &[u8], refusal: u32) {
    assert_eq!(rt;
        splitter_count(width, records),
        CountAnswer {
            refusal,
            one: 0,
            two: 0,
            unmatched: 0,
            complete: 0,
            excess: 0,
        }
    );
}

#[test]
fn refused_lists(rt: HostRuntime) {
    no_count(&rt, 0, &[0; 8193], 3);
    no_count(&rt, 25, b"", 3);
    no_count(&rt, 8, &[0; 8193], 12);
    no_count(&rt, 8, &[0; 8192], 13);
}

#[test]
fn refused_records(rt: HostRuntime) {
    // Cut short, once alone and once behind a whole one.
    no_count(&rt, 8, b"\x00\x00\x00\x00\x00\x01\x00", 13);
    no_count(&rt, 8, b"\x00\x00\x00\x00\x00\x01\x00\x00\x00", 13);
    // Other than zeros at the end, and no server.
    no_count(&rt, 8, b"\x00\x00\x00\x00\x00\x01\x01\x00", 13);
    no_count(&rt, 8, b"\x00\x00\x00\x00\x00\x01\x00\x01", 13);
    no_count(&rt, 8, b"\x00\x00\x00\x00\x00\x00\x00\x00", 13);
    no_count(&rt, 8, b"\x00\x00\x00\x00\x00\x03\x00\x00", 13);
    // Too long, outside the addresses, not aligned.
    no_count(&rt, 8, b"\x00\x00\x00\x00\x09\x01\x00\x00", 13);
    no_count(&rt, 8, b"\x00\x00\x01\x00\x08\x01\x00\x00", 13);
    no_count(&rt, 8, b"\x00\x00\x00\x20\x02\x01\x00\x00", 13);
}
