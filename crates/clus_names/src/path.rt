ghost use Rattle.std.specs.Prelude.{◌≡◌, ◌≤◌, ◌⊎◌, List, ℕ, [], ◌++◌, length, IfOk, IfErr, IsTrue, ◌↔◌, Some};
ghost use Rattle.clus_names.specs.declared.fault.NameFault.TheVariants.{Memory};
ghost use Rattle.clus_names.specs.Folding.{folded_parts};
ghost use Rattle.clus_names.specs.Parts.{text_of, parts_of, joined_text};
ghost use Rattle.clus_names.specs.Limits.{LacksZero, IsPath};
ghost use Rattle.clus_names.specs.Faults.{text_fault, GivesPath, IsTooLong};

use crate::fault::NameFault;
use crate::folding::same_folded;
use crate::splitting::{SEPARATOR, count_separators, first_fault};
use std::alloc::{AllocError, Global};
use std::marker::Model;

pub const MOST_PATH_UNITS: usize = 1023;

/// A path of a key: parts of 1 to 255 units, none of them 0 or `\`, whose text has at most 1,023 units.
#[derive(Debug, Drop)]
pub struct Path {
    text: Vec<u16>,
}

impl Model for Path {
    ghost use Rattle.std.specs.Prelude.{ℕ, List};
    ghost use Rattle.clus_names.specs.Parts.{parts_of};
    ghost use Rattle.clus_names.specs.Limits.{IsPathText};

    ghost Value = { List (List ℕ) };

    ghost view = { λ path. parts_of path.text.items };

    ghost invariant = { λ path. IsPathText path.text.items };
}

impl Path {
    pub fn root(alloc: Global) -> Path
        ensures { result ≡ [] }
    {
        Path {
            text: Vec::new(alloc),
        }
    }

    /// Reads the text of a path.
    pub fn parse(alloc: Global, units: &[u16]) -> Result<Path, NameFault>
        requires { LacksZero units.now }
        ensures found { IfOk result (λ path. IsPath path × (text_of path ≡ units.now)) }
        ensures only { (path : List (List ℕ)) → IsPath path → text_of path ≡ units.now → GivesPath result path }
        ensures fault { IfErr result (λ fault. (fault ≡ Memory) ⊎ (text_fault units.now ≡ Some fault)) }
    {
        match text_fault(units) {
            Some(fault) => Err(fault),
            None => Ok(Path {
                text: units.to_vec(alloc)?,
            }),
        }
    }

    /// The path of a key below this one.
    pub fn join(&self, alloc: Global, below: &Path) -> Result<Path, NameFault>
        ensures found { IfOk result (λ path. (path ≡ self.now ++ below.now) × IsPath path) }
        ensures fault { IfErr result (IsTooLong (length (text_of (self.now ++ below.now)))) }
    {
        if MOST_PATH_UNITS < self.joined_len(below) {
            return Err(NameFault::TooLong);
        }
        Ok(Path {
            text: joined(alloc, &self.text, &below.text)?,
        })
    }

    /// How many units the text of the joined path has, whether or not there is one.
    pub fn joined_len(&self, below: &Path) -> usize
        ensures { result ≡ length (text_of (self.now ++ below.now)) }
    {
        joined_len(&self.text, &below.text)
    }

    /// The text of the path.
    pub fn units(&self) -> &[u16]
        ensures text { result.now ≡ text_of self.now }
        ensures parts { parts_of result.now ≡ self.now }
        ensures limits { IsPath self.now }
    {
        self.text.as_slice()
    }

    /// How many parts the path has.
    pub fn parts(&self) -> usize
        ensures { result ≡ length self.now }
    {
        let text = self.text.as_slice();
        if text.is_empty() {
            return 0;
        }
        count_separators(text) + 1
    }

    pub fn same(&self, other: &Path) -> bool
        ensures { IsTrue result ↔ (folded_parts self.now ≡ folded_parts other.now) }
    {
        same_folded(&self.text, &other.text)
    }

    pub fn copy(&self, alloc: Global) -> Result<Path, AllocError>
        ensures { IfOk result (λ copied. copied ≡ self.now) }
    {
        Ok(Path {
            text: self.text.to_vec(alloc)?,
        })
    }
}

fn text_fault(text: &[u16]) -> Option<NameFault>
    ensures { result ≡ text_fault text.now }
{
    if MOST_PATH_UNITS < text.len() {
        return Some(NameFault::TooLong);
    }
    if text.is_empty() {
        return None;
    }
    first_fault(text)
}

fn joined(alloc: Global, above: &[u16], below: &[u16]) -> Result<Vec<u16>, AllocError>
    ensures { IfOk result (λ text. text.items ≡ joined_text above.now below.now) }
{
    if above.is_empty() {
        return below.to_vec(alloc);
    }
    let mut text = above.to_vec(alloc)?;
    if below.is_empty() {
        return Ok(text);
    }
    text.push(SEPARATOR)?;
    text.extend_from_slice(below)?;
    Ok(text)
}

fn joined_len(above: &[u16], below: &[u16]) -> usize
    requires above { length above.now ≤ 1023 }
    requires below { length below.now ≤ 1023 }
    ensures { result ≡ length (joined_text above.now below.now) }
{
    if above.is_empty() {
        return below.len();
    }
    if below.is_empty() {
        return above.len();
    }
    above.len() + 1 + below.len()
}
