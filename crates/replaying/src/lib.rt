// Document 02, A.7: a journal replayed on a bench, and what is printed of each start: "admitted", its lock's number, or "refused" and the number.
// Exported: print_starts, which reads a journal and writes the lines.
#![tactic(auto)]

ghost use Rattle.std.specs.Prelude.{◌≡◌, OnOk, Some};
ghost use Rattle.std.specs.Io.KnownBytes.{Appends};
ghost use Rattle.journaling.specs.Left.{entries_left};
ghost use Rattle.replaying.specs.Claims.{ReplayClaims};
ghost use Rattle.replaying.specs.Starts.{line_of, line_text, event_text, lines_from, text_of};

use bench::{Answer, Bench, Event};
use journaling::{Entries, Journal};
use refusal::Refusal;
use std::io::Write;
use std::{fmt, io};

// What is printed of a start.
#[derive(Clone, Copy, Debug, PartialEq, Eq)]
enum Line {
    Admitted,
    Locked(u8),
    Refused(u8),
}

impl fmt::Display for Line {
    ghost output = { λ line. Some (line_text line) };

    fn fmt<W: fmt::Write>(&self, f: &mut fmt::Formatter<W>) -> fmt::Result {
        match *self {
            Line::Admitted => write!(f, "admitted"),
            Line::Locked(lock) => write!(f, "{lock}"),
            Line::Refused(number) => write!(f, "refused {number}"),
        }
    }
}

fn line_of(answer: Answer) -> Line
    ensures { result ≡ line_of answer }
{
    match answer {
        Ok(_) => Line::Admitted,
        Err(Refusal::StartLocked(lock)) => Line::Locked(lock),
        Err(r) => Line::Refused(r.number()),
    }
}

// The line of a start, nothing for any other event.
fn print_event<W: Write>(event: Event, answer: Answer, output: &mut W) -> io::Result<()>
    ensures { OnOk result (Appends (W.contents output.old) (W.contents output.new) (event_text event answer)) }
{
    match event {
        Event::Start { .. } => writeln!(output, "{}", line_of(answer)),
        _ => Ok(()),
    }
}

// The events given to the bench in turn.
fn print_from<W: Write>(fresh: Bench, entries: Entries<'_>, output: &mut W) -> io::Result<()>
    ensures { OnOk result (Appends (W.contents output.old) (W.contents output.new) (lines_from fresh (entries_left entries.entry))) }
{
    let mut bench = fresh;
    for entry in entries {
        let event = journal_entry::event_of(entry);
        let handled = bench::step(bench, event);
        print_event(event, handled.answer, output)?;
        bench = handled.bench;
    }
    Ok(())
}

// Writes what is printed of a journal's starts, or its refusal. Where a write fails, what was written before is left free, since no clause of
// std says how much a failing writer took.
// Ruled out: a start of an unfit journal judged; a lock told of a bench with another V or U, or before the settings are looked at.
#[tactic(auto, using(crate::proofs::Agreed::replay_claims))]
pub fn print_starts<W: Write>(s: &[u8], output: &mut W) -> io::Result<()>
    ensures claims { ReplayClaims }
    ensures text { OnOk result (Appends (W.contents output.old) (W.contents output.new) (text_of s.now)) }
{
    let shape = match journaling::read_journal(s) {
        Ok(shape) => shape,
        Err(r) => return writeln!(output, "{r}"),
    };
    match bench::open(shape.validity, shape.limit) {
        Ok(fresh) => print_from(fresh, Journal { bytes: s, shape }.entries(), output),
        Err(r) => writeln!(output, "{r}"),
    }
}
