use crate::fault::RowFault;
use std::alloc::Global;

#[derive(Drop)]
struct Named {
    name: String,
    bytes: Vec<u8>,
}

/// Bytes that rows have named; a later name hides an earlier one.
#[derive(Drop)]
pub struct Names {
    alloc: Global,
    all: Vec<Named>,
}

impl Names {
    pub fn new(alloc: Global) -> Names {
        Names {
            alloc,
            all: Vec::new(alloc),
        }
    }

    pub fn add(&mut self, name: &str, bytes: Vec<u8>) -> Result<(), RowFault> {
        let name = String::from_str(self.alloc, name)?;
        self.all.push(Named { name, bytes })?;
        Ok(())
    }

    pub fn get(&self, name: &str) -> Result<&[u8], RowFault> {
        for named in self.all.iter().rev() {
            if named.name.as_str() == name {
                return Ok(named.bytes.as_slice());
            }
        }
        Err(RowFault::Bad)
    }
}
