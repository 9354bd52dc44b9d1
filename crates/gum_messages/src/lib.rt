//! Views of the cluster, the messages between its nodes, and their one encoding as bytes.
#![tactic(auto)]

mod body;
mod decoding;
mod encoding;
mod fault;
mod head;
mod laws;
mod member;
mod members;
mod message;
mod view;

pub use body::Body;
pub use decoding::decode;
pub use encoding::encode;
pub use fault::MessageFault;
pub use laws::decodes_what_is_encoded;
pub use member::Member;
pub use members::Members;
pub use message::Message;
pub use view::View;
