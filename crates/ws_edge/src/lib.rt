//! The relay's sockets: the feed that asks a host for its stream and the door at which consumers come
//! in, over WebSockets, and the wire on which requests are answered, over TCP. All stay on the
//! loopback interface, and tell nothing of what they carry. Why a call failed is kept for whoever asks.
#![tactic(auto)]

mod asking;
mod connection;
mod fault;
mod framed;
mod frames;
mod head;
mod hearing;
mod leaving;
mod limits;
mod refusal;
mod requests;
mod serving;
mod tcp_wire;
mod timed;
mod welcome;
mod ws_door;
mod ws_feed;

pub use fault::Fault;
pub use tcp_wire::{TcpWire, WIRE_PORT};
pub use ws_door::{DOOR_PORT, WsDoor};
pub use ws_feed::WsFeed;
