// Whole texts of questions and what is printed for them.
use reports::report;
use std::test::Fail;

#[test]
fn texts_are_answered_line_by_line(rt: HostRuntime) -> Result<(), Fail> {
    let heap = rt.alloc();
    let cases = [
        ("", "values 0\nrefusals 0\n"),
        ("\n", "1 23 script\nvalues 0\nrefusals 1\n"),
        ("W 50000 412", "100005000000412\nvalues 1\nrefusals 0\n"),
        ("W 50000 412\n", "100005000000412\nvalues 1\nrefusals 0\n"),
        (
            "R 300\n\nR 65536\nQ 5",
            "8589934892\n2 23 script\n3 21 kind\n4294967301\nvalues 2\nrefusals 2\n",
        ),
        (
            "V 1 200000000099999\nV 1 200000000100000",
            "1000000000 g, lot 99999\n2 21 kind\nvalues 1\nrefusals 1\n",
        ),
        (
            "D 8589934892 299\nD 8589934892 300\n",
            "may be drawn\nmay not be drawn\nvalues 2\nrefusals 0\n",
        ),
        (
            "B 7 10\nV 2 12885360650\n",
            "12885360650\nblocked for reason 7 since day 10\nvalues 2\nrefusals 0\n",
        ),
        (
            "W 18446744073709551616 0",
            "1 23 script\nvalues 0\nrefusals 1\n",
        ),
    ];
    for (text, printed) in cases {
        let got = report(heap, text.as_bytes())?;
        assert_eq!(rt; got.as_str(), printed);
    }
    Ok(())
}

#[test]
fn bytes_that_are_no_text_are_refused(rt: HostRuntime) -> Result<(), Fail> {
    let got = report(rt.alloc(), &[0xff, b'\n', 0, b'\n', b'Q', b' ', 0x80])?;
    assert_eq!(rt;
        got.as_str(),
        "1 23 script\n2 23 script\n3 23 script\nvalues 0\nrefusals 3\n"
    );
    Ok(())
}
