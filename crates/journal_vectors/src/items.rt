// The two topics.
use crate::input;
use journal_entry::Entry;
use journaling::{Content, Journal};
use std::alloc::{AllocError, Global};
use std::io;
use std::io::{Read, Write};

// The events of a journal that was read.
fn taken(journal: Journal, alloc: Global) -> Result<Vec<Entry>, AllocError> {
    let mut entries = Vec::new(alloc);
    for entry in journal.entries() {
        entries.push(entry)?;
    }
    Ok(entries)
}

// Whether its content fills an output of the journal's length with the journal's bytes.
fn comes_back(journal: Journal, alloc: Global) -> Result<bool, AllocError> {
    let mut out = vec![in alloc; 0u8; journal.bytes.len()]?;
    let entries = taken(journal, alloc)?;
    let content = Content {
        validity: journal.shape.validity,
        limit: journal.shape.limit,
        entries: &entries,
    };
    let answer = journaling::write_journal(&mut out, &content);
    Ok((answer == Ok(journal.bytes.len())) & (out.as_slice() == journal.bytes))
}

// A journal is read; if it is fit, its content is written again and compared with the journal.
pub(crate) fn read(
    input: &mut impl Read,
    output: &mut impl Write,
    alloc: Global,
) -> io::Result<()> {
    let bytes = input::bytes(input, alloc)?;
    match journaling::read_journal(&bytes) {
        Ok(shape) => {
            let journal = Journal {
                bytes: &bytes,
                shape,
            };
            let back = outputs::same(comes_back(journal, alloc)?);
            writeln!(
                output,
                "fit {} {} {} {back}",
                shape.validity, shape.limit, shape.count
            )
        }
        Err(r) => writeln!(output, "{r}"),
    }
}

// Whether bytes are a journal of this content.
fn has_content(bytes: &[u8], given: &Content, alloc: Global) -> Result<bool, AllocError> {
    match journaling::read_journal(bytes) {
        Ok(shape) => {
            let entries = taken(Journal { bytes, shape }, alloc)?;
            Ok(
                (shape.validity == given.validity)
                    & (shape.limit == given.limit)
                    & (entries.as_slice() == given.entries),
            )
        }
        Err(_) => Ok(false),
    }
}

// A content is written; if it is written, it is read again and compared with the content given.
pub(crate) fn write(
    input: &mut impl Read,
    output: &mut impl Write,
    alloc: Global,
) -> io::Result<()> {
    let mut out = input::output(input, alloc)?;
    let validity = inputs::long(input)?;
    let limit = inputs::short(input)?;
    let bytes = input::bytes(input, alloc)?;
    let entries = input::entries(&bytes, alloc)?;
    let given = Content {
        validity,
        limit,
        entries: &entries,
    };
    let answer = journaling::write_journal(&mut out, &given);
    outputs::written(output, answer, &out)?;
    if let Ok(n) = answer {
        if let Some(written) = out.get(..n) {
            let back = outputs::same(has_content(written, &given, alloc)?);
            write!(output, " {back}")?;
        }
    }
    writeln!(output)
}
