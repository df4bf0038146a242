//! Examples of the text of scripts.
use scripts::hex::{HexFault, append_hex};
use scripts::number::number;
use scripts::parts::Parts;
use scripts::pieces::Pieces;
use scripts::words::{Words, without_comment};
use std::test::Fail;

#[test]
fn numbers_at_the_edges(rt: HostRuntime) {
    assert_eq!(rt; number(b"4294967295"), Some(4294967295));
    assert_eq!(rt; number(b"4294967296"), None);
    assert_eq!(rt; number(b"0xFfffffff"), Some(4294967295));
    assert_eq!(rt; number(b"0x100000000"), None);
    assert_eq!(rt;
        number(b"000000000000000000000000000000000000000017"),
        Some(17)
    );
}

#[test]
fn no_numbers(rt: HostRuntime) {
    assert_eq!(rt; number(b""), None);
    assert_eq!(rt; number(b"0x"), None);
    assert_eq!(rt; number(b"0X1"), None);
    assert_eq!(rt; number(b"+1"), None);
    assert_eq!(rt; number(b"1_0"), None);
    assert_eq!(rt; number(b"1a"), None);
}

#[test]
fn words_of_a_line(rt: HostRuntime) {
    let mut words = Words::new(without_comment(b"  book\t1   row\r # a comment # more"));
    assert_eq!(rt; words.next(), Some(b"book\t1".as_slice()));
    assert_eq!(rt; words.next(), Some(b"row\r".as_slice()));
    assert!(rt; words.next().is_none());
    assert!(rt; words.next().is_none());
}

#[test]
fn lines_of_a_script(rt: HostRuntime) {
    let mut lines = Pieces::new(b"first\n\nlast", b'\n');
    assert_eq!(rt; lines.next(), Some(b"first".as_slice()));
    assert_eq!(rt; lines.next(), Some(b"".as_slice()));
    assert_eq!(rt; lines.next(), Some(b"last".as_slice()));
    assert!(rt; lines.next().is_none());
}

#[test]
fn bytes_in_hexadecimal(rt: HostRuntime) {
    let mut list = Vec::new(rt.alloc());
    assert_eq!(rt; append_hex(&mut list, b" 0a B c1 2"), Ok(()));
    assert_eq!(rt; append_hex(&mut list, b"abc"), Err(HexFault::OddCount));
    assert_eq!(rt; append_hex(&mut list, b"ab 0x"), Err(HexFault::NoDigit));
    assert_eq!(rt; append_hex(&mut list, b""), Ok(()));
    assert_eq!(rt; list.as_slice(), [10, 188, 18].as_slice());
}

#[test]
fn numbers_of_a_level(rt: HostRuntime) -> Result<(), Fail> {
    let parts = Parts::read(b"1/0x8/0/07").ok_or("four numbers")?;
    assert_eq!(rt; parts.numbers(), [1, 8, 0, 7].as_slice());
    assert!(rt; Parts::read(b"1/2/3/4/5").is_none());
    assert!(rt; Parts::read(b"1//2").is_none());
    assert!(rt; Parts::read(b"/").is_none());
    Ok(())
}
