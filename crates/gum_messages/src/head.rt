/// What begins each message.
#[derive(Clone, Copy)]
pub struct Head {
    pub kind: u8,
    pub view: u32,
    pub from: u16,
    pub to: u16,
}
