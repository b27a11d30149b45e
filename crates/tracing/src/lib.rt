// Which event left a lock standing: of each start of a journal that is locked, the lock's name and the number, the clock and the kind of the
// accepted event that the lock goes by, or that there is none.
// Exported: print_whys, which reads a journal and writes a line for each locked start.
#![tactic(auto)]

ghost use Rattle.std.specs.Prelude.{◌≡◌, ◌<◌, [], OnOk, Some, length};
ghost use Rattle.std.specs.Io.KnownBytes.{Appends};
ghost use Rattle.journaling.specs.Left.{entries_left};
ghost use Rattle.tracing.specs.Claims.{TraceClaims};
ghost use Rattle.tracing.specs.Trails.{watch_after, Begins};
ghost use Rattle.tracing.specs.Whys.{lock_at, why_text, event_why, whys_from, text_of};

mod names;
mod trail;

use crate::names::{kind_name, lock_name};
use crate::trail::{Trail, left_by, no_trail, trail_after};
use bench::{Answer, Bench, Event, Handled};
use journaling::{Entries, Journal};
use loaded_test::Verdict;
use locks::{Lock, Locks};
use refusal::Refusal;
use std::io::Write;
use std::{fmt, io};

// An accepted event with its number, from 1, among all that were given, and its verdict where it brought one.
#[derive(Clone, Copy)]
pub struct Told {
    pub number: u32,
    pub event: Event,
    pub verdict: Option<Verdict>,
}

// What is kept from one event to the next: the next one's number, the bench, the locks, for the wrong tries in a row, and the newest accepted events.
#[derive(Clone, Copy)]
struct Watch {
    validity: u32,
    number: u32,
    bench: Bench,
    locks: Locks,
    trail: Trail,
}

// What is told of a locked start: its number and clock, its lock, and the event that left it standing.
#[derive(Clone, Copy)]
struct Why {
    number: u32,
    clock: u32,
    lock: Lock,
    since: Option<Told>,
}

impl fmt::Display for Why {
    ghost output = { λ x. Some (why_text x) };

    fn fmt<W: fmt::Write>(&self, f: &mut fmt::Formatter<W>) -> fmt::Result {
        let name = lock_name(self.lock);
        write!(f, "start {} at {}: {name}: ", self.number, self.clock)?;
        match self.since {
            None => write!(f, "none since the beginning"),
            Some(told) => {
                let contents = locks::contents_of(told.event);
                let kind = kind_name(contents.kind);
                write!(f, "event {} at {}, {kind}", told.number, contents.clock)
            }
        }
    }
}

// The lock of a number, if there is one.
#[tactic(auto, unfolding(crate::specs::Whys::lock_at))]
fn lock_at(number: u8) -> Option<Lock>
    ensures { result ≡ lock_at number }
{
    locks::IN_ORDER
        .iter()
        .copied()
        .find(|lock| lock.number() == number)
}

// The line of a start that is locked, nothing for any other event.
#[tactic(auto, unfolding(crate::specs::Whys::lock_at))]
fn print_event<W: Write>(w: Watch, event: Event, answer: Answer, output: &mut W) -> io::Result<()>
    ensures { OnOk result (Appends (W.contents output.old) (W.contents output.new) (event_why w.validity w.number w.trail event answer)) }
{
    let Event::Start { clock, .. } = event else {
        return Ok(());
    };
    let Err(Refusal::StartLocked(number)) = answer else {
        return Ok(());
    };
    let Some(lock) = lock_at(number) else {
        return Ok(());
    };
    let why = Why {
        number: w.number,
        clock,
        lock,
        since: left_by(w.validity, clock, lock, w.trail),
    };
    writeln!(output, "{why}")
}

// After an event and what the bench made of it.
fn watch_after(w: Watch, event: Event, handled: Handled) -> Watch
    requires { w.number < 65536 }
    ensures { result ≡ watch_after w event handled }
{
    let next = Watch {
        number: w.number + 1,
        bench: handled.bench,
        ..w
    };
    let Ok(verdict) = handled.answer else {
        return next;
    };
    let told = Told {
        number: w.number,
        event,
        verdict,
    };
    Watch {
        locks: locks::locks_after(w.locks, event),
        trail: trail_after(w.trail, locks::password_stands(w.locks), told),
        ..next
    }
}

// The events given to the bench in turn.
fn print_from<W: Write>(fresh: Watch, entries: Entries<'_>, output: &mut W) -> io::Result<()>
    requires begins { Begins fresh }
    requires few { length (entries_left entries) < 65536 }
    ensures { OnOk result (Appends (W.contents output.old) (W.contents output.new) (whys_from fresh.validity 1 [] fresh.bench (entries_left entries.entry))) }
{
    let mut watch = fresh;
    for entry in entries {
        let event = journal_entry::event_of(entry);
        let handled = bench::step(watch.bench, event);
        print_event(watch, event, handled.answer, output)?;
        watch = watch_after(watch, event, handled);
    }
    Ok(())
}

// Writes a line for each locked start of a journal, or its refusal. Where a write fails, what was written before is left free, since no clause of
// std says how much a failing writer took.
// Ruled out: a refused event named; the number counted among the accepted events alone; a good try named for lock 5.
#[tactic(auto, using(crate::proofs::Claimed::trace_claims, crate::proofs::Followed::few))]
pub fn print_whys<W: Write>(s: &[u8], output: &mut W) -> io::Result<()>
    ensures claims { TraceClaims }
    ensures text { OnOk result (Appends (W.contents output.old) (W.contents output.new) (text_of s.now)) }
{
    let shape = match journaling::read_journal(s) {
        Ok(shape) => shape,
        Err(r) => return writeln!(output, "{r}"),
    };
    match bench::open(shape.validity, shape.limit) {
        Ok(bench) => {
            let fresh = Watch {
                validity: shape.validity,
                number: 1,
                bench,
                locks: locks::fresh_locks(),
                trail: no_trail(),
            };
            print_from(fresh, Journal { bytes: s, shape }.entries(), output)
        }
        Err(r) => writeln!(output, "{r}"),
    }
}
