// Document 02, A.7: a journal of bench events: V and U, then up to 1,700 events, as bytes; reader and writer. An event's own bytes are those of
// crate journal_entry.
// Exported: read_journal, which judges bytes and answers V, U and the count of events; Journal, of which `entries` gives the events in their
// order; entry_at, the event at any offset; write_journal, which writes a Content.
#![tactic(auto)]

mod reader;
mod writer;

pub use crate::reader::{Entries, entry_at, read_journal};
pub use crate::writer::write_journal;
use journal_entry::Entry;

// V in seconds, U, and how many events there are.
#[derive(Clone, Copy, Debug, PartialEq, Eq)]
pub struct Shape {
    pub validity: u32,
    pub limit: u16,
    pub count: u16,
}

// A journal's bytes, with the shape that reading them answered.
#[derive(Clone, Copy)]
pub struct Journal<'a> {
    pub bytes: &'a [u8],
    pub shape: Shape,
}

// What a journal is written of.
#[derive(Clone, Copy)]
pub struct Content<'a> {
    pub validity: u32,
    pub limit: u16,
    pub entries: &'a [Entry],
}
