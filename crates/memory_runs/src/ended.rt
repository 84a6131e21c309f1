use bp_faults::OutOfMemory;
use std::alloc::Global;
use std::str;

/// How a call ended: its status, and what was put on the output and on the stream for messages.
#[derive(Drop)]
pub struct Ended {
    pub status: u8,
    pub out: Vec<u8>,
    pub said: Vec<u8>,
}

impl Ended {
    /// Whether the status is this one, and this text was put on the stream for messages.
    pub fn tells(&self, status: u8, said: &str) -> bool {
        self.status == status && self.said.as_slice() == said.as_bytes()
    }

    /// The same, where this text was put on the output too.
    pub fn shows(&self, status: u8, out: &str, said: &str) -> bool {
        self.tells(status, said) && self.out.as_slice() == out.as_bytes()
    }

    /// Nothing where a test found what it wants; else how the call ended, which the test prints.
    pub fn unless(&self, alloc: Global, is_right: bool) -> Result<Option<String>, OutOfMemory> {
        if is_right {
            return Ok(None);
        }
        let out = str::from_utf8(self.out.as_slice()).unwrap_or("not UTF-8");
        let said = str::from_utf8(self.said.as_slice()).unwrap_or("not UTF-8");
        Ok(Some(format!(in alloc; "status {}, output {out:?}, said {said:?}", self.status)?))
    }
}
