//! A disk whose writes survive a crash once they are synced: as a trait, in memory and over a file.
#![tactic(auto)]

pub mod crash_disk;
pub mod disk;
#[cfg(test)]
mod fake_files;
pub mod fault;
pub mod file_disk;
#[cfg(test)]
mod file_tests;
pub mod mem_disk;
pub mod note;
mod snapshot;
pub mod span;
#[cfg(test)]
mod tests;

pub use crash_disk::CrashDisk;
pub use disk::Disk;
pub use fault::DiskFault;
pub use file_disk::FileDisk;
pub use mem_disk::MemDisk;
