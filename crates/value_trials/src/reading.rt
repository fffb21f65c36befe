// Lines, fields and numbers by example.
use fields::{Fields, Lines, Numeral};
use std::process::Abort;

// Takes all lines of a text.
fn has_lines(rt: &impl Abort, text: &str, lines: &[&str]) {
    let mut left = Lines::new(text.as_bytes());
    for line in lines {
        assert_eq!(rt; left.next(), Some(line.as_bytes()));
    }
    assert!(rt; left.next().is_none());
}

#[test]
fn texts_have_lines(rt: HostRuntime) {
    has_lines(&rt, "", &[]);
    has_lines(&rt, "a", &["a"]);
    has_lines(&rt, "a\n", &["a"]);
    has_lines(&rt, "\n", &[""]);
    has_lines(&rt, "a\n\nb", &["a", "", "b"]);
    has_lines(&rt, "a\r\nb c\n", &["a\r", "b c"]);
}

// Takes all fields of a line.
fn has_fields(rt: &impl Abort, line: &str, fields: &[&str]) {
    let mut left = Fields::new(line.as_bytes());
    for field in fields {
        assert!(rt; !left.is_done());
        assert_eq!(rt; left.next(), Some(field.as_bytes()));
    }
    assert!(rt; left.is_done());
    assert!(rt; left.next().is_none());
}

#[test]
fn lines_have_fields(rt: HostRuntime) {
    has_fields(&rt, "", &[""]);
    has_fields(&rt, "W", &["W"]);
    has_fields(&rt, "W 5", &["W", "5"]);
    has_fields(&rt, "W  5", &["W", "", "5"]);
    has_fields(&rt, " ", &["", ""]);
    has_fields(&rt, "a\tb\n", &["a\tb\n"]);
}

#[test]
fn digits_are_numbers(rt: HostRuntime) {
    assert_eq!(rt; u64::read(b"0"), Some(0));
    assert_eq!(rt; u64::read(b"007"), Some(7));
    assert_eq!(rt;
        u64::read(b"18446744073709551615"),
        Some(18446744073709551615)
    );
    for other in [
        "",
        "-",
        "-5",
        "+5",
        " 5",
        "5 ",
        "0x1",
        "18446744073709551616",
        "99999999999999999999",
    ] {
        assert_eq!(rt; u64::read(other.as_bytes()), None);
    }
}

#[test]
fn signs_are_read(rt: HostRuntime) {
    assert_eq!(rt; i64::read(b"-0"), Some(0));
    assert_eq!(rt; i64::read(b"-12"), Some(-12));
    assert_eq!(rt; i64::read(b"007"), Some(7));
    assert_eq!(rt;
        i64::read(b"9223372036854775807"),
        Some(9223372036854775807)
    );
    assert_eq!(rt;
        i64::read(b"-9223372036854775808"),
        Some(-9223372036854775808)
    );
    for other in [
        "",
        "-",
        "--5",
        "+5",
        " 5",
        "5 ",
        "0x1",
        "9223372036854775808",
        "-9223372036854775809",
        "18446744073709551616",
    ] {
        assert_eq!(rt; i64::read(other.as_bytes()), None);
    }
}

#[test]
fn numbers_are_taken(rt: HostRuntime) {
    let mut left = Fields::new(b"7 x -8 -9");
    assert_eq!(rt; left.number::<u64>(), Some(7));
    assert_eq!(rt; left.number::<u64>(), None);
    assert_eq!(rt; left.number::<i64>(), Some(-8));
    assert_eq!(rt; left.number::<u64>(), None);
    assert!(rt; left.is_done());
    assert_eq!(rt; left.number::<i64>(), None);
}
