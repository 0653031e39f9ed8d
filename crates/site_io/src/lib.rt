//! The outside: what is read from, what is written to, where connections come from, and how their faults are counted.
//!
//! [`Source`] and [`Sink`] are the traits of streams. [`MemSource`] and [`MemSink`] are forms in memory that fail when
//! they are told to, [`SureSource`] and [`SureSink`] never fail, and [`ReaderSource`] and [`WriterSink`]
//! adapt std's readers and writers, the standard streams among them. [`read_all`] reads a source to its end
//! within a limit, and [`write_all`] writes all of a text.
//!
//! A [`Connection`] is a stream that is read from and written to, and a [`Listener`] gives connections, as
//! [`MemConn`], [`SureConn`] and [`MemListener`] in memory and [`TcpConnection`] and [`TcpPort`] over sockets.
//!
//! A [`Tree`] is a tree of files, as [`MemTree`] in memory and [`FolderTree`] over the system's folders.
//! A [`Gate`] is no stream: it is called in the middle of a compile.
#![tactic(auto)]

mod bytes;
mod connection;
mod folder_tree;
mod gate;
mod mem_conn;
mod mem_listener;
mod mem_sink;
mod mem_source;
mod mem_tree;
mod names;
mod outside;
mod reader_source;
mod sure_conn;
mod sure_sink;
mod sure_source;
mod tcp;
mod transfer;
mod tree;
mod writer_sink;

pub use bytes::Bytes;
pub use connection::{Accept, Bound, Connection, Listener};
pub use folder_tree::FolderTree;
pub use gate::{Gate, OpenGate};
pub use mem_conn::MemConn;
pub use mem_listener::MemListener;
pub use mem_sink::MemSink;
pub use mem_source::MemSource;
pub use mem_tree::MemTree;
pub use names::{after_front, ends_in_slash, folder_front};
pub use outside::{Got, Outside, Sink, Source, Took};
pub use reader_source::{ReaderSource, StandardInput};
pub use sure_conn::SureConn;
pub use sure_sink::SureSink;
pub use sure_source::SureSource;
pub use tcp::{TcpConnection, TcpPort};
pub use transfer::{ReadStop, WriteFault, read_all, write_all};
pub use tree::{Content, Listed, Tree};
pub use writer_sink::{StandardError, StandardOutput, WriterSink};
