use edge_io::{BytesSink, BytesSource};
use std::alloc::{AllocError, Global};
use std::mem;

/// How many bytes a read of the script gives at most.
const PIECE: usize = 4096;

/// The script of the next run, and the calls that fail in it.
#[derive(Drop)]
pub(crate) struct Stage {
    pub(crate) alloc: Global,
    pub(crate) reads: Vec<u32>,
    pub(crate) writes: Vec<u32>,
    script: Vec<u8>,
}

impl Stage {
    pub(crate) fn new(alloc: Global) -> Stage {
        Stage {
            alloc,
            reads: Vec::new(alloc),
            writes: Vec::new(alloc),
            script: Vec::new(alloc),
        }
    }

    pub(crate) fn add_line(&mut self, line: &str) -> Result<(), AllocError> {
        self.script.extend_from_slice(line.as_bytes())?;
        self.script.push(b'\n')?;
        Ok(())
    }

    /// A remark of so many bytes.
    pub(crate) fn add_remark(&mut self, count: u32) -> Result<(), AllocError> {
        for _ in 0..count {
            self.script.push(b'#')?;
        }
        self.script.push(b'\n')?;
        Ok(())
    }

    /// The script, which is forgotten here.
    pub(crate) fn take_source(&mut self) -> BytesSource {
        let script = mem::replace(&mut self.script, Vec::new(self.alloc));
        let failing = mem::replace(&mut self.reads, Vec::new(self.alloc));
        BytesSource::new(script, PIECE, failing)
    }

    pub(crate) fn take_sink(&mut self) -> BytesSink {
        let failing = mem::replace(&mut self.writes, Vec::new(self.alloc));
        BytesSink::new(self.alloc, failing)
    }
}
