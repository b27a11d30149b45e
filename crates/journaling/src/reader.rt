// Reading a journal: its heading, its events one by one, and no byte behind them.
ghost use Rattle.std.specs.Prelude.{◌≡◌};
ghost use Rattle.std.specs.Iterator.{YieldsFirst, item_count};
ghost use Rattle.journal_entry.specs.Reading.{Gives};
ghost use Rattle.journaling.specs.Claims.{ReaderClaims};
ghost use Rattle.journaling.specs.Reading.{heading_of, events_end, shape_in, read_journal, entry_at, entries_in};
ghost use Rattle.journaling.specs.Left.{entries_left};

use crate::{Journal, Shape};
use journal_entry::{Entry, Fault, byte_at, entry_of, long_at, short_at};
use refusal::Refusal;

// The most events that a journal has.
pub(crate) const MOST: usize = 1_700;

// The bytes before the events: a count, V, U, a count.
pub(crate) const HEADING: usize = 11;

// "V and U after a 1-byte count of 2, then the events after a 4-byte count (0 to 1,700; both counts by refusal 2)": what is read before the events.
#[tactic(auto, unfolding(crate::specs::Reading::heading_of, crate::specs::Reading::must))]
fn heading_of(s: &[u8]) -> Result<(Shape, &[u8]), Fault>
    ensures { Gives (λ x. (x.0, x.1.now)) result (heading_of s.now) }
{
    let (two, rest) = byte_at(s)?;
    if two != 2 {
        return Err(Fault::Count(s.len()));
    }
    let (validity, rest) = long_at(rest)?;
    let (limit, rest) = short_at(rest)?;
    if !locks::parameters_fit(validity, limit) {
        return Err(Fault::Parameters);
    }
    let (count, events) = long_at(rest)?;
    if MOST < count as usize {
        return Err(Fault::Count(rest.len()));
    }
    let shape = Shape {
        validity,
        limit,
        count: count as u16,
    };
    Ok((shape, events))
}

// The bytes behind so many events, each of which is judged.
#[tactic(auto, using(crate::proofs::Counted::one_less, crate::proofs::Counted::faulty, crate::proofs::Counted::none_left))]
fn events_end(count: u16, bytes: &[u8]) -> Result<&[u8], Fault>
    ensures { Gives (λ rest. rest.now) result (events_end count bytes.now) }
{
    let mut rest = bytes;
    for _ in 0..count {
        let (_, after) = entry_of(rest)?;
        rest = after;
    }
    Ok(rest)
}

#[tactic(auto, using(crate::proofs::Counted::heading_faulty, crate::proofs::Counted::events_faulty, crate::proofs::Counted::whole, crate::proofs::Counted::more_left))]
fn judged(s: &[u8]) -> Result<Shape, Fault>
    ensures { result ≡ shape_in s.now }
{
    let (shape, events) = heading_of(s)?;
    let left = events_end(shape.count, events)?;
    if left.is_empty() {
        return Ok(shape);
    }
    Err(Fault::Left(left.len()))
}

// V, U and the count of a journal's events, or its first fault.
// Ruled out: 1,701 events taken; 2 for the events' count at 0; 15 where V or U is cut.
#[tactic(auto, using(crate::proofs::Claimed::reader_claims), unfolding(crate::specs::Reading::read_journal))]
pub fn read_journal(s: &[u8]) -> Result<Shape, Refusal>
    ensures answer { result ≡ read_journal s.now }
    ensures claims { ReaderClaims }
{
    match judged(s) {
        Ok(shape) => Ok(shape),
        Err(fault) => Err(fault.refusal(s.len())),
    }
}

// The event at an offset and the offset behind it, for a caller's own loop.
// Ruled out: an offset past the end told as 20; the next offset counted from this one and not from the beginning.
pub fn entry_at(s: &[u8], at: usize) -> Result<(Entry, usize), Refusal>
    ensures { result ≡ entry_at s.now at }
{
    let bytes = s.get(at..).unwrap_or(&[]);
    match entry_of(bytes) {
        Ok((entry, rest)) => Ok((entry, s.len().saturating_sub(rest.len()))),
        Err(fault) => Err(fault.refusal(s.len())),
    }
}

// The events that are left of a journal's.
#[derive(Clone, Copy)]
pub struct Entries<'a> {
    left: u16,
    bytes: &'a [u8],
}

impl<'a> Journal<'a> {
    // The events in their order: of bytes that are no such journal, as far as they can be read.
    // Ruled out: events read from the first byte on; one more than the count.
    pub fn entries(&self) -> Entries<'a>
        ensures { entries_left result ≡ entries_in self.now.bytes.now self.now.shape.count }
    {
        Entries {
            left: self.shape.count,
            bytes: self.bytes.get(HEADING..).unwrap_or(&[]),
        }
    }
}

impl Iterator for Entries<'_> {
    type Item = Entry;

    ghost next_gives = { YieldsFirst entries_left };

    ghost remaining = { item_count entries_left };

    #[tactic(auto, unfolding(crate::specs::Reading::entries_from))]
    fn next(&mut self) -> Option<Entry> {
        if self.left == 0 {
            return None;
        }
        let Ok((entry, rest)) = entry_of(self.bytes) else {
            return None;
        };
        self.left -= 1;
        self.bytes = rest;
        Some(entry)
    }
}
