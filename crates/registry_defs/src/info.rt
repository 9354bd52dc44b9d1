/// How much a key holds. Names are counted in UTF-16 units and data in bytes.
#[derive(Clone, Copy, Debug, PartialEq, Eq)]
pub struct Info {
    pub subkeys: u32,
    pub longest_subkey: u32,
    pub values: u32,
    pub longest_name: u32,
    pub longest_data: u32,
    /// When the key was last changed.
    pub written: u64,
}
