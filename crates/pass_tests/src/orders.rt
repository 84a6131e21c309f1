use bp_faults::{NodeId, OutOfMemory};
use order_text::laws::{journals_are_read_back, one_lines, some_lines};
use order_text::{journal_text, order_lines};
use std::alloc::Global;
use std::process::Abort;
use std::test::Fail;

/// The lines of an order file: for each its entry, and its text between brackets.
fn shown(alloc: Global, bytes: &[u8]) -> Result<String, OutOfMemory> {
    let mut text = String::new(alloc);
    for line in &order_lines(alloc, bytes)? {
        match line.entry {
            Some((pass, node)) => {
                let number = node.0;
                write!(text, "{pass}.{number}")?;
            }
            None => text.push_str("none")?,
        }
        let subject = line.text.as_str();
        write!(text, "[{subject}] ")?;
    }
    Ok(text)
}

/// The bytes of an order file, and its lines.
type Case = (&'static [u8], &'static str);

const CASES: [Case; 24] = [
    (b"", ""),
    (b"\n", "none[] "),
    (b"1 0\n", "1.0[1 0] "),
    (b"1 0", "1.0[1 0] "),
    (b"1 0\n\n", "1.0[1 0] none[] "),
    (b"\n1 0", "none[] 1.0[1 0] "),
    (b"13 7\n2 10", "13.7[13 7] 2.10[2 10] "),
    (b"0 0\n", "0.0[0 0] "),
    (b"01 0\n", "none[01 0] "),
    (b"1 00\n", "none[1 00] "),
    (b"+1 0\n", "none[+1 0] "),
    (b"1 -0\n", "none[1 -0] "),
    (b" 1 0\n", "none[ 1 0] "),
    (b"1 0 \n", "none[1 0 ] "),
    (b"1  0\n", "none[1  0] "),
    (b"1\t0\n", "none[1\t0] "),
    (b"1 0\r\n", "none[1 0\r] "),
    (b"1\n", "none[1] "),
    (b"1 \n", "none[1 ] "),
    (b" \n", "none[ ] "),
    (
        b"4294967295 4294967295",
        "4294967295.4294967295[4294967295 4294967295] ",
    ),
    (b"4294967296 0\n", "none[4294967296 0] "),
    (b"1 4294967296\n", "none[1 4294967296] "),
    (b"1 \xff\n2 0\n", "none[] 2.0[2 0] "),
];

fn cases() -> &'static [Case] {
    &CASES
}

#[test]
fn lines_of_order_files(rt: HostRuntime) -> Result<(), Fail> {
    let alloc = rt.alloc();
    for (bytes, want) in cases() {
        assert_eq!(rt; shown(alloc, bytes)?.as_str(), *want, "{bytes:?}");
    }
    Ok(())
}

const JOURNAL: [(u32, NodeId); 4] = [
    (1, NodeId(0)),
    (1, NodeId(10)),
    (13, NodeId(262_143)),
    (u32::MAX, NodeId(0)),
];

#[test]
fn a_journal_is_written(rt: HostRuntime) -> Result<(), Fail> {
    let text = journal_text(rt.alloc(), &JOURNAL)?;
    assert!(rt; text.as_slice() == b"1 0\n1 10\n13 262143\n4294967295 0\n".as_slice());
    Ok(())
}

#[test]
fn a_journal_of_nothing_is_empty(rt: HostRuntime) -> Result<(), Fail> {
    assert!(rt; journal_text(rt.alloc(), &[])?.is_empty());
    Ok(())
}

/// The lines of a journal that is written and read back.
fn there_and_back(alloc: Global, journal: &[(u32, NodeId)]) -> Result<String, OutOfMemory> {
    shown(alloc, &journal_text(alloc, journal)?)
}

fn check_back(
    rt: &impl Abort,
    alloc: Global,
    journal: &[(u32, NodeId)],
    want: &str,
) -> Result<(), Fail> {
    assert_eq!(rt; there_and_back(alloc, journal)?.as_str(), want);
    Ok(())
}

#[test]
fn a_journal_there_and_back(rt: HostRuntime) -> Result<(), Fail> {
    some_lines();
    one_lines();
    journals_are_read_back();
    let want = "1.0[1 0] 1.10[1 10] 13.262143[13 262143] 4294967295.0[4294967295 0] ";
    check_back(&rt, rt.alloc(), &JOURNAL, want)
}
