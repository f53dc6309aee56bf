// Lines that are read and lines that are not, and how a text is cut into lines.
use crate::*;
use std::test::Fail;

#[test]
fn good_lines(rt: HostRuntime) {
    let cell = IVector { x: 1, y: -2, z: 3 };
    let origin = IVector { x: 0, y: 0, z: 0 };
    let table: [(&[u8], Option<Statement>); 6] = [
        (b"mark 1 -2 3", Some(Statement::Mark { cell })),
        (b"\twipe\t01  -2 3 \r", Some(Statement::Wipe { cell })),
        (
            b"sight 1 -2 3 0 -0 000# cot",
            Some(Statement::Sight {
                camera: cell,
                target: origin,
            }),
        ),
        (
            b"room 4 1 -2 3 999999999",
            Some(Statement::Room {
                exponent: 4,
                key: cell,
                id: 999_999_999,
            }),
        ),
        (b"", None),
        (b" \t\r# mark 1 2 3", None),
    ];
    for (line, meaning) in table {
        assert_eq!(rt; parse_line(line), Ok(meaning));
    }
}

#[test]
fn bad_lines(rt: HostRuntime) {
    let table: [(&[u8], Expected); 8] = [
        (b"marks 1 2 3", Expected::Keyword),
        (b"Mark 1 2 3", Expected::Keyword),
        (b"mark 1 2", Expected::Numbers(Keyword::Mark)),
        (b"wipe 1 2 x 4", Expected::Numbers(Keyword::Wipe)),
        (b"room 1 2 3 #4 5", Expected::Numbers(Keyword::Room)),
        (b"mark 1 - +3", Expected::WholeNumber(2)),
        (b"mark 1 2 1234567890", Expected::WholeNumber(3)),
        (b"sight 1 2 3 4 5 --6", Expected::WholeNumber(6)),
    ];
    for (line, expected) in table {
        assert_eq!(rt; parse_line(line), Err(expected));
    }
}

#[test]
fn lines_of_a_text(rt: HostRuntime) -> Result<(), Fail> {
    let (first, rest) = split_line(b"mark 1 2 3\n\nwipe 1 2 3\n").ok_or("no first line")?;
    assert_eq!(rt; first, b"mark 1 2 3".as_slice());
    let (second, rest) = split_line(rest).ok_or("no second line")?;
    assert!(rt; second.is_empty());
    let (third, rest) = split_line(rest).ok_or("no third line")?;
    assert_eq!(rt; third, b"wipe 1 2 3".as_slice());
    assert!(rt; split_line(rest).is_none());
    Ok(())
}

#[test]
fn iterators(rt: HostRuntime) -> Result<(), Fail> {
    let mut lines = lines_of(b"mark 1 2\n\n");
    assert_eq!(rt;
        lines.next().ok_or("no first line")?,
        b"mark 1 2".as_slice()
    );
    assert!(rt; lines.next().ok_or("no second line")?.is_empty());
    assert!(rt; lines.next().is_none());
    let mut words = words_of(b" mark\t1\r");
    assert_eq!(rt; words.next().ok_or("no first word")?, b"mark".as_slice());
    assert_eq!(rt; words.next().ok_or("no second word")?, b"1".as_slice());
    assert!(rt; words.next().is_none());
    Ok(())
}

#[test]
fn texts(rt: HostRuntime) -> Result<(), Fail> {
    let heap = rt.alloc();
    let statement = Statement::Sight {
        camera: IVector { x: 1, y: -2, z: 3 },
        target: IVector { x: 0, y: 7, z: 40 },
    };
    assert_eq!(rt; statement.to_string(heap)?.as_str(), "sight 1 -2 3 0 7 40");
    assert_eq!(rt;
        Expected::Keyword.to_string(heap)?.as_str(),
        "expected room, mark, wipe or sight"
    );
    assert_eq!(rt;
        Expected::Numbers(Keyword::Mark).to_string(heap)?.as_str(),
        "expected 3 numbers after mark"
    );
    assert_eq!(rt;
        Expected::WholeNumber(2).to_string(heap)?.as_str(),
        "expected a whole number of at most nine digits as number 2"
    );
    Ok(())
}
