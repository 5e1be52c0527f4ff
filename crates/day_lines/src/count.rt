// Lines, counted.

/// How many lines have ended so far. LF, CR LF and CR alone each end one.
#[derive(Clone, Copy, Debug, PartialEq, Eq)]
pub struct LineCount {
    ended: u64,
    after_cr: bool,
}

impl LineCount {
    /// A count before the first byte of a text.
    pub fn new() -> LineCount {
        LineCount {
            ended: 0,
            after_cr: false,
        }
    }

    /// The line on which the next byte stands, from 1.
    pub fn line(&self) -> u64 {
        self.ended.saturating_add(1)
    }

    /// Goes over one more byte.
    fn pass(&mut self, byte: u8) {
        if byte == b'\r' || byte == b'\n' && !self.after_cr {
            self.ended = self.ended.saturating_add(1);
        }
        self.after_cr = byte == b'\r';
    }

    /// Goes over more bytes.
    pub fn pass_all(&mut self, bytes: &[u8]) {
        for byte in bytes {
            self.pass(*byte);
        }
    }
}
