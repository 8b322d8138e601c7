use super::*;
use std::test::*;

#[test]
fn reads_numbers(rt: HostRuntime) {
    let most = "340282366920938463463374607431768211455";
    let rows = [
        ("0", Ok(0)),
        ("007", Ok(7)),
        ("0xfF", Ok(255)),
        ("0b101", Ok(5)),
        (most, Ok(u128::MAX)),
        ("", Err(NumberStop::NoDigit(0))),
        ("0x", Err(NumberStop::NoDigit(2))),
        ("12a", Err(NumberStop::NoDigit(2))),
        ("0b12", Err(NumberStop::NoDigit(3))),
        (
            "340282366920938463463374607431768211456",
            Err(NumberStop::TooBig),
        ),
    ];
    for (text, want) in rows {
        assert!(rt; number(text.as_bytes()) == want, "{text}");
    }
}

#[test]
fn writes_numbers_and_walks_a_text(rt: HostRuntime) -> Result<(), Fail> {
    let mut out = Vec::new(rt.alloc());
    push_number(&mut out, 1207)?;
    assert!(rt; out.as_slice() == b"1207".as_slice());
    push_hex(&mut out, 0xff, 2)?;
    push_hex(&mut out, 5, 4)?;
    assert!(rt; out.as_slice() == b"12070xff0x0005".as_slice());
    let mut cursor = Cursor::new("a\nλb");
    for (character, line, column) in [('a', 1, 2), ('\n', 2, 1), ('λ', 2, 2), ('b', 2, 3)] {
        assert!(rt; cursor.peek() == Some(character));
        assert!(rt; cursor.bump() == Some(character));
        assert_eq!(rt; cursor.place(), Place { line, column });
    }
    assert!(rt; cursor.bump().is_none() && cursor.at() == 5);
    Ok(())
}
