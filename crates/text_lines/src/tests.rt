use super::*;
use std::fmt::Debug;
use std::process::Abort;

/// Ends a test where two values differ, and says both. An `assert_eq!` is written out, and proved, wherever it stands,
/// which takes most of the time of a test's proof.
fn same<R: Abort, T: PartialEq + Debug>(rt: &R, found: &T, wanted: &T) {
    assert_eq!(rt; found, wanted);
}

#[derive(Clone, Copy, Debug, PartialEq, Eq)]
enum Beast {
    Cat,
    Dog,
}

const BEASTS: [(&str, Beast); 3] = [
    ("cat", Beast::Cat),
    ("dog", Beast::Dog),
    ("cat", Beast::Dog),
];

#[test]
fn a_line_ends_with_a_line_feed_which_the_last_may_lack(rt: HostRuntime) {
    same(
        &rt,
        &cut_line(b"one\n\ntwo"),
        &(b"one".as_slice(), b"\ntwo".as_slice()),
    );
    same(
        &rt,
        &cut_line(b"\ntwo"),
        &(b"".as_slice(), b"two".as_slice()),
    );
    same(&rt, &cut_line(b"two"), &(b"two".as_slice(), b"".as_slice()));
    same(
        &rt,
        &cut_line(b"two\n"),
        &(b"two".as_slice(), b"".as_slice()),
    );
}

#[test]
fn a_line_feed_at_the_end_begins_no_line(rt: HostRuntime) {
    let cases: [(&str, u32); 6] = [
        ("", 1),
        ("one", 1),
        ("one\n", 1),
        ("one\ntwo", 2),
        ("one\n\n", 2),
        ("\n\n\nfour", 4),
    ];
    for (text, line) in &cases {
        same(&rt, &last_line(text.as_bytes()), &*line);
    }
}

#[test]
fn words_are_separated_by_spaces_alone(rt: HostRuntime) {
    let mut words = Words::of(b"  a\tb  c ");
    same(&rt, &words.next_word(), &Some(b"a\tb".as_slice()));
    assert!(rt; !words.is_empty());
    same(&rt, &words.next_word(), &Some(b"c".as_slice()));
    assert!(rt; words.is_empty());
    same(&rt, &words.next_word(), &None);
    assert!(rt; Words::of(b"   ").is_empty());
}

#[test]
fn words_are_taken_where_they_are_this_many(rt: HostRuntime) {
    let words = Words::of(b"claim 100 0");
    same(&rt, &words.two(), &Err(LineFault::UnknownWord));
    same(&rt, &words.four(), &Err(LineFault::UnknownWord));
    let Ok((claim, tid, tracer)) = words.three() else {
        assert!(rt; false);
        return;
    };
    same(&rt, &words.one(), &Err(LineFault::UnknownWord));
    same(&rt, &words.end(), &Err(LineFault::UnknownWord));
    same(&rt, &Words::of(b" state ").one(), &Ok(b"state".as_slice()));
    same(&rt, &Words::of(b" ").end(), &Ok(()));
    same(&rt, &claim, &b"claim".as_slice());
    same(&rt, &tid, &b"100".as_slice());
    same(&rt, &tracer, &b"0".as_slice());
}

#[test]
fn words_are_parted_at_the_first_that_is_the_one(rt: HostRuntime) {
    let Some((before, after)) = Words::of(b"claim 100 0 = refused = ==").split_at(b"=") else {
        assert!(rt; false);
        return;
    };
    same(
        &rt,
        &before.three(),
        &Ok((b"claim".as_slice(), b"100".as_slice(), b"0".as_slice())),
    );
    same(
        &rt,
        &after.three(),
        &Ok((b"refused".as_slice(), b"=".as_slice(), b"==".as_slice())),
    );
    assert!(rt; Words::of(b"claim == 0").split_at(b"=").is_none());
}

#[test]
fn a_number_has_no_sign_and_fits_64_bits(rt: HostRuntime) {
    let cases: [(&str, Option<u64>); 15] = [
        ("0", Some(0)),
        ("9999999999999999999", Some(9_999_999_999_999_999_999)),
        ("00000000000000000000001", Some(1)),
        ("12a", None),
        ("010", Some(10)),
        ("0x1fF", Some(511)),
        ("18446744073709551615", Some(18_446_744_073_709_551_615)),
        ("18446744073709551616", None),
        ("0x10000000000000000", None),
        ("", None),
        ("0x", None),
        ("0X1", None),
        ("-1", None),
        ("+1", None),
        ("1\r", None),
    ];
    for (word, value) in &cases {
        same(&rt, &number(word.as_bytes()), &*value);
    }
}

#[test]
fn an_integer_is_decimal_with_a_minus_sign_or_none(rt: HostRuntime) {
    let cases: [(&str, Option<i64>); 15] = [
        ("0", Some(0)),
        ("-0", Some(0)),
        ("-007", Some(-7)),
        ("4095", Some(4095)),
        ("9223372036854775807", Some(9_223_372_036_854_775_807)),
        ("9223372036854775808", None),
        ("-9223372036854775808", Some(-9_223_372_036_854_775_808)),
        ("-9223372036854775809", None),
        ("18446744073709551616", None),
        ("", None),
        ("-", None),
        ("--1", None),
        ("+1", None),
        ("0x10", None),
        ("-0x10", None),
    ];
    for (word, value) in &cases {
        same(&rt, &integer(word.as_bytes()), &*value);
    }
}

#[test]
fn a_range_has_both_its_ends(rt: HostRuntime) {
    same(&rt, &number_between(1, 64, b"1"), &Ok(1));
    same(&rt, &number_between(1, 64, b"0x40"), &Ok(64));
    same(
        &rt,
        &number_between(1, 64, b"0"),
        &Err(LineFault::BadNumber),
    );
    same(
        &rt,
        &number_between(1, 64, b"65"),
        &Err(LineFault::BadNumber),
    );
    same(
        &rt,
        &number_between(1, 64, b"x"),
        &Err(LineFault::BadNumber),
    );
}

#[test]
fn the_first_name_that_is_the_word_has_the_value(rt: HostRuntime) {
    same(&rt, &keyword(&BEASTS, b"cat"), &Ok(Beast::Cat));
    same(&rt, &keyword(&BEASTS, b"dog"), &Ok(Beast::Dog));
    same(&rt, &keyword(&BEASTS, b"do"), &Err(LineFault::UnknownWord));
    same(&rt, &keyword(&BEASTS, b"Cat"), &Err(LineFault::UnknownWord));
}
