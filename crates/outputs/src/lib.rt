// What the programs that run vectors print of an output: what writing answered, the hash of all its bytes, and whether what was compared is the
// same. Each contract says which text; where a write fails, what was written before is left free, since no clause of std says how much of it was.
#![tactic(auto)]

ghost use Rattle.std.specs.Prelude.{◌≡◌, OnOk};
ghost use Rattle.std.specs.Io.KnownBytes.{Appends};
ghost use Rattle.outputs.specs.Texts.{hash_of, written_text, same_text};

use refusal::Refusal;
use std::io;
use std::io::Write;

// The 32-bit FNV-1a hash.
#[tactic(auto, using(crate::proofs::Hashed::one_byte, crate::proofs::Hashed::no_byte))]
fn hash_of(s: &[u8]) -> u32
    ensures { result ≡ hash_of s.now }
{
    let mut hash: u32 = 2166136261;
    for b in s {
        hash = (hash ^ u32::from(*b)).wrapping_mul(16777619);
    }
    hash
}

// The length written or the refusal, then the hash. Ruled out: the hash of what was written alone; a refusal told as a length.
pub fn written<W: Write>(
    output: &mut W,
    answer: Result<usize, Refusal>,
    out: &[u8],
) -> io::Result<()>
    ensures { OnOk result (Appends (W.contents output.old) (W.contents output.new) (written_text answer out.now)) }
{
    match answer {
        Ok(n) => write!(output, "written {n} {}", hash_of(out)),
        Err(r) => write!(output, "{r} {}", hash_of(out)),
    }
}

// Whether what was compared is the same. Ruled out: the two words exchanged; one word for both.
pub fn same(yes: bool) -> &'static str
    ensures { result.now ≡ same_text yes }
{
    if yes { "same" } else { "other" }
}
