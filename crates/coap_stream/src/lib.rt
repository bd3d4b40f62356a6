//! CoAP over connections (RFC 8323): a directory's responses to the messages of a stream.
#![tactic(auto)]

mod answering;
mod blocks;
mod calls;
mod carried;
mod connections;
mod doors;
mod heard;
mod lines;
mod memory_door;
mod purposes;
mod refusing;
mod serving;
mod signals;
mod spoken;
mod talked;
mod talks;

pub use doors::{Accept, Opened};
pub use heard::begin_request;
pub use memory_door::MemAccept;
pub use purposes::{Meant, meant_by};
pub use refusing::{Unasked, why_unasked};
pub use serving::{StreamsStatus, serve_streams};
pub use spoken::write_frame;
pub use stream_reader::{Fed, Frame, StreamBad, StreamReader};
pub use talked::{TalkEnd, TalkFault, Talked};
pub use talks::{attend, converse};
pub use tcp_door::{TcpAccept, TcpConnection, TcpSink, TcpSource};
