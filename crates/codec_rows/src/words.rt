//! The words of a row, one after the other.

use crate::units_of::units_of;
use clus_names::{Name, NameFault, Path};
use row_words::RowFault;
use std::alloc::Global;

#[derive(Drop)]
pub(crate) struct Words<'a> {
    rest: &'a str,
}

impl<'a> Words<'a> {
    pub(crate) fn new(text: &'a str) -> Words<'a> {
        Words { rest: text }
    }

    /// All words that are left.
    pub(crate) fn rest(&mut self) -> &'a str {
        let rest = self.rest;
        self.rest = "";
        rest
    }

    pub(crate) fn next(&mut self) -> Result<&'a str, RowFault> {
        let text = self.rest;
        if text.is_empty() {
            return Err(RowFault::Bad);
        }
        match text.split_once(' ') {
            Some((word, rest)) => {
                self.rest = rest;
                Ok(word)
            }
            None => {
                self.rest = "";
                Ok(text)
            }
        }
    }

    /// That no word is left.
    pub(crate) fn end(&self) -> Result<(), RowFault> {
        if self.rest.is_empty() {
            return Ok(());
        }
        Err(RowFault::Bad)
    }

    pub(crate) fn u16(&mut self) -> Result<u16, RowFault> {
        Ok(self.next()?.parse()?)
    }

    pub(crate) fn u32(&mut self) -> Result<u32, RowFault> {
        Ok(self.next()?.parse()?)
    }

    pub(crate) fn u64(&mut self) -> Result<u64, RowFault> {
        Ok(self.next()?.parse()?)
    }

    pub(crate) fn path(&mut self, alloc: Global) -> Result<Path, RowFault> {
        let units = units_of(alloc, self.next()?)?;
        Path::parse(alloc, &units).map_err(refused)
    }

    pub(crate) fn name(&mut self, alloc: Global) -> Result<Name, RowFault> {
        let units = units_of(alloc, self.next()?)?;
        Name::new(alloc, &units).map_err(refused)
    }
}

/// What stands before a `*`, and how many times it counts.
pub(crate) fn split_count(word: &str) -> Result<(&str, u16), RowFault> {
    match word.split_once('*') {
        Some((unit, count)) => Ok((unit, count.parse()?)),
        None => Ok((word, 1)),
    }
}

fn refused(fault: NameFault) -> RowFault {
    match fault {
        NameFault::Memory => RowFault::Memory,
        _ => RowFault::Bad,
    }
}
