// Little-endian numbers and yes-or-no bytes with which bytes begin, each with the bytes behind it.
ghost use Rattle.std.specs.Int.{w16, w32};
ghost use Rattle.journal_entry.specs.Reading.{Gives, byte_at, number_at, yes_no_at};

use crate::Fault;

// The first byte. Ruled out: 0 for no byte; a byte that is read again.
#[tactic(auto, unfolding(crate::specs::Reading::byte_at))]
pub fn byte_at(bytes: &[u8]) -> Result<(u8, &[u8]), Fault>
    ensures { Gives (λ x. (x.0, x.1.now)) result (byte_at bytes.now) }
{
    match bytes {
        [] => Err(Fault::Short),
        [b, rest @ ..] => Ok((*b, rest)),
    }
}

// A number of two bytes. Ruled out: the high byte first; a number of one byte where the other is wanting.
pub fn short_at(bytes: &[u8]) -> Result<(u16, &[u8]), Fault>
    ensures { Gives (λ x. (x.0, x.1.now)) result (number_at w16 bytes.now) }
{
    if bytes.len() < 2 {
        return Err(Fault::Short);
    }
    let (front, rest) = bytes.split_at(2);
    Ok((u16::from_le_bytes([front[0], front[1]]), rest))
}

// A number of four bytes. Ruled out: the high byte first; a number of what bytes there are where some are wanting.
pub fn long_at(bytes: &[u8]) -> Result<(u32, &[u8]), Fault>
    ensures { Gives (λ x. (x.0, x.1.now)) result (number_at w32 bytes.now) }
{
    if bytes.len() < 4 {
        return Err(Fault::Short);
    }
    let (front, rest) = bytes.split_at(4);
    let number = u32::from_le_bytes([front[0], front[1], front[2], front[3]]);
    Ok((number, rest))
}

// "a yes-or-no 1 byte, 1 for yes or good"
#[tactic(auto, unfolding(crate::specs::Reading::yes_no_at))]
pub(crate) fn yes_no_at(bytes: &[u8]) -> Result<(bool, &[u8]), Fault>
    ensures { Gives (λ x. (x.0, x.1.now)) result (yes_no_at bytes.now) }
{
    match bytes {
        [] => Err(Fault::Short),
        [0, rest @ ..] => Ok((false, rest)),
        [1, rest @ ..] => Ok((true, rest)),
        [_, ..] => Err(Fault::Event(bytes.len())),
    }
}
