// Writing a journal: V and U and the count of events are judged, then the space, and only then is a byte of the output changed.
ghost use Rattle.std.specs.Prelude.{◌≡◌, ◌+◌, ◌*◌, ◌≤◌, length};
ghost use Rattle.std.specs.List.{flat_map};
ghost use Rattle.refusal.specs.Checking.{fine};
ghost use Rattle.journal_entry.specs.Spelling.{entry_bytes};
ghost use Rattle.journaling.specs.Claims.{WriterClaims};
ghost use Rattle.journaling.specs.Content.{content_in, heading_bytes};
ghost use Rattle.journaling.specs.Writing.{judge_content, put_at, write_journal, written_output};

use crate::Content;
use crate::reader::{HEADING, MOST};
use journal_entry::{Entry, spelt};
use refusal::{Check, Refusal};

// 15, then 2.
#[tactic(auto, using(refusal::proofs::Checks::after_fine, refusal::proofs::Checks::after_refused), unfolding(crate::specs::Writing::judge_content, refusal::specs::Checking::need))]
fn judge_content(x: &Content) -> Check
    ensures { result ≡ judge_content (content_in x.now) }
{
    if !locks::parameters_fit(x.validity, x.limit) {
        return Err(Refusal::CauseUnfit);
    }
    if MOST < x.entries.len() {
        return Err(Refusal::CountNotAllowed(7));
    }
    Ok(())
}

// How many bytes the events take: at most 37 each.
fn entries_length(entries: &[Entry]) -> usize
    requires { length entries.now ≤ 1700 }
    ensures { (result ≡ length (flat_map entry_bytes entries.now)) × (result ≤ 37 * length entries.now) }
{
    let mut sum = 0;
    for entry in entries {
        sum += spelt(*entry).as_slice().len();
    }
    sum
}

// Bytes put at an offset, and the offset behind them.
fn put(out: &mut [u8], at: usize, piece: &[u8]) -> usize
    requires { at + length piece.now ≤ length out.old }
    ensures { (result ≡ at + length piece.now) × (out.new ≡ put_at at piece.now out.old) }
{
    let end = at + piece.len();
    out[at..end].copy_from_slice(piece);
    end
}

// The bytes before the events.
fn heading_bytes(x: &Content) -> [u8; 11]
    requires { length x.now.entries.now ≤ 1700 }
    ensures { result ≡ heading_bytes (content_in x.now) }
{
    let v = x.validity.to_le_bytes();
    let u = x.limit.to_le_bytes();
    let n = (x.entries.len() as u32).to_le_bytes();
    [
        2, v[0], v[1], v[2], v[3], u[0], u[1], n[0], n[1], n[2], n[3],
    ]
}

// The events' bytes, one behind the other.
#[tactic(auto, using(crate::proofs::Put::put_none))]
fn put_entries(out: &mut [u8], at: usize, entries: &[Entry])
    requires { at + length (flat_map entry_bytes entries.now) ≤ length out.old }
    ensures { out.new ≡ put_at at (flat_map entry_bytes entries.now) out.old }
{
    let mut next = at;
    for entry in entries {
        next = put(out, next, spelt(*entry).as_slice());
    }
}

fn write_judged(out: &mut [u8], x: &Content) -> Result<usize, Refusal>
    requires judged { judge_content (content_in x.now) ≡ fine }
    ensures { (result ≡ write_journal (length out.old) (content_in x.now)) × (out.new ≡ written_output (content_in x.now) out.old) }
{
    let needed = HEADING + entries_length(x.entries);
    if out.len() < needed {
        return Err(Refusal::OutputShort(needed));
    }
    let at = put(out, 0, &heading_bytes(x));
    put_entries(out, at, x.entries);
    Ok(needed)
}

// Writes a content's journal at the start of the output. Ruled out: a byte changed before a refusal, or beyond the journal; 2 where V is unfit
// too; 10 with space enough.
#[tactic(auto, using(crate::proofs::Claimed::writer_claims))]
pub fn write_journal(out: &mut [u8], x: &Content) -> Result<usize, Refusal>
    ensures answer { (result ≡ write_journal (length out.old) (content_in x.now)) × (out.new ≡ written_output (content_in x.now) out.old) }
    ensures claims { WriterClaims }
{
    judge_content(x)?;
    write_judged(out, x)
}
