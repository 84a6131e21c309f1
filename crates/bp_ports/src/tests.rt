//! How a read that fails is told, by the kind of its error. All other tests are in `ground_tests`, which sees the
//! public calls.
use crate::ReadError;
use crate::fs_store::contents;
use std::io;
use std::io::{ErrorKind, Read};
use std::test::Fail;

/// A reader whose reads fail.
#[derive(Drop)]
struct FailingReader(ErrorKind);

impl Read for FailingReader {
    fn read(&mut self, _buf: &mut [u8]) -> io::Result<usize> {
        Err(io::Error::from(self.0))
    }
}

#[test]
fn a_read_that_fails(rt: HostRuntime) -> Result<(), Fail> {
    for (kind, error) in [
        (ErrorKind::OutOfMemory, ReadError::OutOfMemory),
        (ErrorKind::TimedOut, ReadError::Failed),
    ] {
        let answer = contents(rt.alloc(), FailingReader(kind), 9);
        assert_eq!(rt; answer.err(), Some(error));
    }
    Ok(())
}
