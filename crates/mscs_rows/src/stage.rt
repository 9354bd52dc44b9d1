use disk_core::{CrashDisk, Disk, MemDisk};
use edge_io::{BytesSink, BytesSource, ScriptDoor};
use row_words::{Names, RowFault};
use std::alloc::{AllocError, Global};
use std::mem;

/// The least disk for every cap.
pub(crate) const DISK: u64 = 34_209_856;

/// The calls that fail in the next run.
#[derive(Drop)]
pub(crate) struct Failing {
    pub(crate) reads: Vec<u32>,
    pub(crate) writes: Vec<u32>,
    pub(crate) doors: Vec<u32>,
}

impl Failing {
    fn new(alloc: Global) -> Failing {
        Failing {
            reads: Vec::new(alloc),
            writes: Vec::new(alloc),
            doors: Vec::new(alloc),
        }
    }
}

/// What the next run finds.
#[derive(Drop)]
pub(crate) struct Stage {
    pub(crate) alloc: Global,
    pub(crate) names: Names,
    pub(crate) input: Vec<u8>,
    pub(crate) failing: Failing,
    pub(crate) disk: MemDisk,
    /// Whether the next run is over the disk as it is, whatever it does.
    pub(crate) is_kept: bool,
    connections: Vec<Vec<u8>>,
    piece: u16,
}

impl Stage {
    pub(crate) fn new(alloc: Global) -> Result<Stage, AllocError> {
        Ok(Stage {
            alloc,
            names: Names::new(alloc),
            input: Vec::new(alloc),
            failing: Failing::new(alloc),
            disk: MemDisk::new(alloc, DISK)?,
            is_kept: false,
            connections: Vec::new(alloc),
            piece: 4096,
        })
    }

    /// The disk is a new one.
    pub(crate) fn renew_disk(&mut self) -> Result<(), AllocError> {
        self.disk = MemDisk::new(self.alloc, DISK)?;
        self.is_kept = true;
        Ok(())
    }

    /// What was written to the disk is synced, and its calls are counted from here on.
    pub(crate) fn mark(&mut self) -> Result<(), RowFault> {
        let claim = self.disk.held();
        self.disk.sync(claim).map_err(|_| RowFault::Bad)?;
        self.disk.mark();
        self.is_kept = true;
        Ok(())
    }

    pub(crate) fn set_piece(&mut self, piece: u16) -> Result<(), RowFault> {
        if piece == 0 {
            return Err(RowFault::Bad);
        }
        self.piece = piece;
        Ok(())
    }

    /// The input so far becomes that of the next connection.
    pub(crate) fn end_connection(&mut self) -> Result<(), RowFault> {
        let input = mem::replace(&mut self.input, Vec::new(self.alloc));
        self.connections.push(input)?;
        Ok(())
    }

    /// The input of the next run, which is forgotten here.
    pub(crate) fn take_source(&mut self) -> BytesSource {
        let input = mem::replace(&mut self.input, Vec::new(self.alloc));
        let failing = mem::replace(&mut self.failing.reads, Vec::new(self.alloc));
        BytesSource::new(input, usize::from(self.piece).max(1), failing)
    }

    pub(crate) fn take_sink(&mut self) -> BytesSink {
        let failing = mem::replace(&mut self.failing.writes, Vec::new(self.alloc));
        BytesSink::new(self.alloc, failing)
    }

    /// The connections of the next run, which are forgotten here.
    pub(crate) fn take_door(&mut self) -> ScriptDoor {
        let inputs = mem::replace(&mut self.connections, Vec::new(self.alloc));
        let failing = mem::replace(&mut self.failing.doors, Vec::new(self.alloc));
        ScriptDoor::new(self.alloc, inputs, failing)
    }

    pub(crate) fn put(&mut self, place: u64, bytes: &[u8]) -> Result<(), RowFault> {
        let size = self.disk.size();
        if size < place || size - place < bytes.len() as u64 {
            return Err(RowFault::Bad);
        }
        let claim = self.disk.held();
        self.disk
            .write(claim, place, bytes)
            .map_err(|_| RowFault::Bad)
    }

    pub(crate) fn bytes(&mut self, place: u64, count: u16) -> Result<Vec<u8>, RowFault> {
        let mut bytes = vec![in self.alloc; 0; usize::from(count)]?;
        let size = self.disk.size();
        if size < place || size - place < bytes.len() as u64 {
            return Err(RowFault::Bad);
        }
        match self.disk.read(place, &mut bytes) {
            Ok(()) => Ok(bytes),
            Err(_) => Err(RowFault::Bad),
        }
    }
}
