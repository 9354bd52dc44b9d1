ghost use Rattle.std.specs.Prelude.{◌≡◌, IfOk};

use std::alloc::{AllocError, Global};
use update_records::{Record, Update};
use wire_fields::Octets;

/// What a message says.
#[derive(Debug, Drop)]
pub enum Body {
    /// Asks the locker for the update lock, with the sender's request.
    Ask {
        req: u64,
        update: Update,
    },
    /// The request is logged as this record, and its sender has the lock.
    Granted {
        entry: Record,
    },
    /// Hands a record on, in spreading order.
    Apply {
        entry: Record,
    },
    /// The sender has applied the record at this place.
    Applied {
        place: u64,
    },
    /// Gives the lock back.
    Release {
        req: u64,
    },
    /// The log as the locker found it: how many records, the cap of the registry, and the last record.
    Offer {
        count: u64,
        cap: u32,
        last: Option<Record>,
    },
    /// Asks for the locker's state from this offset on.
    Need {
        offset: u32,
    },
    /// A piece of a state of `total` bytes.
    Piece {
        total: u32,
        offset: u32,
        bytes: Octets,
    },
    /// The sender has all records that were logged before this view.
    Ready,
    /// All members are ready.
    OpenView,
}

impl Body {
    pub fn copy(&self, alloc: Global) -> Result<Body, AllocError>
        ensures { IfOk result (λ copied. copied ≡ self.now) }
    {
        match self {
            Body::Ask { req, update } => Ok(Body::Ask {
                req: *req,
                update: update.copy(alloc)?,
            }),
            Body::Granted { entry } => Ok(Body::Granted {
                entry: entry.copy(alloc)?,
            }),
            Body::Apply { entry } => Ok(Body::Apply {
                entry: entry.copy(alloc)?,
            }),
            Body::Applied { place } => Ok(Body::Applied { place: *place }),
            Body::Release { req } => Ok(Body::Release { req: *req }),
            Body::Offer { count, cap, last } => Ok(Body::Offer {
                count: *count,
                cap: *cap,
                last: copy_last(alloc, last)?,
            }),
            Body::Need { offset } => Ok(Body::Need { offset: *offset }),
            Body::Piece {
                total,
                offset,
                bytes,
            } => Ok(Body::Piece {
                total: *total,
                offset: *offset,
                bytes: bytes.copy(alloc)?,
            }),
            Body::Ready => Ok(Body::Ready),
            Body::OpenView => Ok(Body::OpenView),
        }
    }
}

fn copy_last(alloc: Global, last: &Option<Record>) -> Result<Option<Record>, AllocError>
    ensures { IfOk result (λ copied. copied ≡ last.now) }
{
    match last {
        Some(entry) => Ok(Some(entry.copy(alloc)?)),
        None => Ok(None),
    }
}
