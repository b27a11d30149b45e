// Bytes, outputs and events from the input.
use journal_entry::Entry;
use std::alloc::{AllocError, Global};
use std::io;
use std::io::Read;

// The greatest length of a journal, of an output and of events' bytes.
const LARGE: usize = 65536;

// Bytes after their length of four bytes.
pub(crate) fn bytes(input: &mut impl Read, alloc: Global) -> io::Result<Vec<u8>> {
    let n = (inputs::long(input)? as usize).min(LARGE);
    let mut bytes = Vec::new(alloc);
    for _ in 0..n {
        bytes.push(inputs::byte(input)?)?;
    }
    Ok(bytes)
}

// An output of the next length, filled with the byte after it.
pub(crate) fn output(input: &mut impl Read, alloc: Global) -> io::Result<Vec<u8>> {
    let n = (inputs::long(input)? as usize).min(LARGE);
    let b = inputs::byte(input)?;
    Ok(vec![in alloc; b; n]?)
}

// The events that bytes begin with, up to the first that is none. Each has a byte at least.
pub(crate) fn entries(bytes: &[u8], alloc: Global) -> Result<Vec<Entry>, AllocError> {
    let mut entries = Vec::new(alloc);
    let mut at = 0;
    for _ in 0..bytes.len() {
        let Ok((entry, next)) = journaling::entry_at(bytes, at) else {
            break;
        };
        entries.push(entry)?;
        at = next;
    }
    Ok(entries)
}
