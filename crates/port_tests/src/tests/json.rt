//! Records as JSON: objects written by hand, each as RFC 8259 has it.

use crate::tests::want::{want, want_at};
use program_ends::json::{Member, Value, write_json};
use std::process::Abort;
use std::test::Fail;
use worked_files::rows;

// A key and a value, and the member that they are.
const MEMBERS: &[(&str, Value<'_>, &str)] = rows! {
    "", Value::Null, "\"\":null"; "is", Value::Bool(true), "\"is\":true";
    "is", Value::Bool(false), "\"is\":false"; "n", Value::Number(0), "\"n\":0";
    "n", Value::Number(u64::MAX), "\"n\":18446744073709551615";
    "n", Value::Negative(0), "\"n\":0"; "n", Value::Negative(1), "\"n\":-1";
    "n", Value::Negative(0x8000_0000_0000_0000), "\"n\":-9223372036854775808";
    "t", Value::Text(""), "\"t\":\"\""; "t", Value::Text("/a b"), "\"t\":\"/a b\"";
    "t", Value::Text("\"\\"), "\"t\":\"\\\"\\\\\"";
    "t", Value::Text("a\0\t\nb\x1f"), "\"t\":\"a\\u0000\\u0009\\u000ab\\u001f\"";
    "t", Value::Text(" ~\x7f\u{e9}\u{1f600}"), "\"t\":\" ~\x7f\u{e9}\u{1f600}\"";
    "é\"\n", Value::Null, "\"é\\\"\\u000a\":null";
    "name", Value::Name(b"ab@V1"), "\"name\":\"ab@V1\"";
    "name", Value::Name(b""), "\"name\":\"\"";
    "name", Value::Name(b"\x01\""), "\"name\":\"\\u0001\\\"\"";
    "name", Value::Name(b"\xc3\xa9"), "\"name\":\"\u{e9}\"";
    "name", Value::Name(b"\xe9"), "\"name_bytes\":\"e9\"";
    "name", Value::Name(b"a\x0f\xff"), "\"name_bytes\":\"610fff\"";
    "name", Value::Name(b"\xed\xa0\x80"), "\"name_bytes\":\"eda080\"";
    "a\"", Value::Name(b"\xc3"), "\"a\\\"_bytes\":\"c3\"";
};

#[test]
fn writes_a_member_of_each_value(rt: HostRuntime) -> Result<(), Fail> {
    for &(key, value, wanted) in MEMBERS {
        let mut line = Vec::new(rt.alloc());
        write_json(&[Member { key, value }], &mut line)?;
        let wanted = format!(in rt.alloc(); "{{{wanted}}}\n")?;
        want_at(
            &rt,
            (key, wanted.as_str()),
            line.as_slice(),
            wanted.as_bytes(),
        );
    }
    Ok(())
}

#[test]
fn writes_members_in_order(rt: HostRuntime) -> Result<(), Fail> {
    let members = [
        Member {
            key: "a",
            value: Value::Number(1),
        },
        Member {
            key: "b",
            value: Value::Name(b"\xff"),
        },
        Member {
            key: "c",
            value: Value::Null,
        },
    ];
    let mut lines = Vec::new(rt.alloc());
    for count in 0..=3 {
        write_json(&members[..count], &mut lines)?;
    }
    let wanted =
        "{}\n{\"a\":1}\n{\"a\":1,\"b_bytes\":\"ff\"}\n{\"a\":1,\"b_bytes\":\"ff\",\"c\":null}\n";
    want(&rt, lines.as_slice(), wanted.as_bytes());
    Ok(())
}
