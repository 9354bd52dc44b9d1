/// What a stub is sent as: what its fragments have in common.
#[derive(Clone, Copy)]
pub(crate) enum Sent {
    Request {
        call_id: u32,
        context: u16,
        opnum: u16,
    },
    Response {
        call_id: u32,
        context: u16,
    },
}
