//! Win32 error codes, as the methods answer them.

pub(crate) const FILE_NOT_FOUND: u32 = 2;

pub(crate) const NOT_READY: u32 = 70;

pub(crate) const INVALID_PARAMETER: u32 = 87;

pub(crate) const BAD_PATHNAME: u32 = 161;

pub(crate) const MORE_DATA: u32 = 234;

pub(crate) const NO_MORE_ITEMS: u32 = 259;

pub(crate) const KEY_DELETED: u32 = 1018;
