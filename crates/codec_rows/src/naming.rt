//! Rows of names and paths.

use crate::shown::shown_units;
use crate::units_of::units_of;
use crate::words::Words;
use clus_names::{Name, NameFault, Path, Units, split_first_part};
use row_words::RowFault;
use std::alloc::Global;

pub(crate) fn path_row(alloc: Global, words: &mut Words<'_>) -> Result<String, RowFault> {
    let units = units_of(alloc, words.next()?)?;
    tell_path(alloc, Path::parse(alloc, &units))
}

pub(crate) fn join_row(alloc: Global, words: &mut Words<'_>) -> Result<String, RowFault> {
    let above = words.path(alloc)?;
    let below = words.path(alloc)?;
    tell_path(alloc, above.join(alloc, &below))
}

pub(crate) fn name_row(alloc: Global, words: &mut Words<'_>) -> Result<String, RowFault> {
    let units = units_of(alloc, words.next()?)?;
    match Name::new(alloc, &units) {
        Ok(name) => {
            let text = shown_units(alloc, name.copy(alloc)?.units())?;
            Ok(format!(in alloc; "name {text}\n")?)
        }
        Err(fault) => tell_fault(alloc, fault),
    }
}

pub(crate) fn units_row(alloc: Global, words: &mut Words<'_>) -> Result<String, RowFault> {
    let units = Units::new(units_of(alloc, words.next()?)?);
    let text = shown_units(alloc, units.copy(alloc)?.as_slice())?;
    Ok(format!(in alloc; "units {text}\n")?)
}

pub(crate) fn same_row(alloc: Global, words: &mut Words<'_>) -> Result<String, RowFault> {
    let same = match words.next()? {
        "path" => words.path(alloc)?.same(&words.path(alloc)?),
        "name" => words.name(alloc)?.same(&words.name(alloc)?),
        _ => return Err(RowFault::Bad),
    };
    let text = if same { "same" } else { "different" };
    Ok(format!(in alloc; "{text}\n")?)
}

fn tell_path(alloc: Global, found: Result<Path, NameFault>) -> Result<String, RowFault> {
    match found {
        Ok(path) => tell_parts(alloc, &path.copy(alloc)?),
        Err(fault) => tell_fault(alloc, fault),
    }
}

fn tell_parts(alloc: Global, path: &Path) -> Result<String, RowFault> {
    let count = path.parts();
    let mut text = format!(in alloc; "parts {count}")?;
    let mut rest = path.units();
    for _ in 0..count {
        let (part, below) = split_first_part(rest).ok_or(RowFault::Bad)?;
        text.push(' ')?;
        text.push_str(&shown_units(alloc, part)?)?;
        rest = below;
    }
    text.push('\n')?;
    Ok(text)
}

fn tell_fault(alloc: Global, fault: NameFault) -> Result<String, RowFault> {
    let cause = match fault {
        NameFault::TooLong => "too long",
        NameFault::EmptyPart => "empty part",
        NameFault::PartTooLong => "part too long",
        NameFault::Memory => return Err(RowFault::Memory),
    };
    Ok(format!(in alloc; "bad {cause}\n")?)
}
