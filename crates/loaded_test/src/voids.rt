// Voids, the end of a mode, and step 5.
ghost use Rattle.std.specs.Prelude.{◌≡◌};
ghost use Rattle.loaded_test.specs.State.{emptied, turn, nothing};
ghost use Rattle.loaded_test.specs.Voids.{ended, mode_ended, void_counted, void_followed, voided, step_five};

use crate::{Did, Next, Progress, Stage, Told, Turn, Verdict, VoidCounts, Word};
use attempt::{NO_MEASURING, SettlingCounts, bump, in_row};
use vehicle::Mode;

pub(crate) const NO_SETTLING: SettlingCounts = SettlingCounts {
    seconds: 0,
    ready: 0,
    row: 0,
    all: 0,
};

pub(crate) const NO_VOIDS: VoidCounts = VoidCounts {
    voids: 0,
    inconclusive: 0,
};

pub(crate) fn turn(did: Did, next: Next, progress: Progress) -> Turn
    ensures { result ≡ turn did next progress }
{
    Turn {
        told: Told { did, next },
        progress,
    }
}

// A new attempt: every count but r and q is 0.
pub(crate) fn emptied(mode: Mode, stage: Stage, voids: VoidCounts) -> Progress
    ensures { result ≡ emptied mode stage voids }
{
    Progress {
        mode,
        stage,
        counted: 0,
        resting: 0,
        settling: NO_SETTLING,
        measuring: NO_MEASURING,
        voids,
    }
}

// A verdict, which keeps the attempt's counts.
pub(crate) fn ended(did: Did, word: Word, k: VoidCounts, p: Progress) -> Turn
    ensures { result ≡ ended did word k p }
{
    let verdict = Verdict {
        word,
        t: p.measuring.seconds,
        passing: p.measuring.windows.passing,
        failing: p.measuring.windows.failing,
        invalid: p.measuring.windows.invalid,
    };
    let after = Progress {
        stage: Stage::Ended(word),
        voids: k,
        ..p
    };
    turn(did, Next::Ends(verdict), after)
}

// Mode 2 begins, or a fail.
#[tactic(auto, unfolding(crate::specs::Voids::mode_ended))]
pub(crate) fn mode_ended(did: Did, k: VoidCounts, p: Progress) -> Turn
    ensures { result ≡ mode_ended p.mode did k p }
{
    match p.mode {
        Mode::One => turn(
            did,
            Next::ModeTwo,
            emptied(Mode::Two, Stage::Settling, NO_VOIDS),
        ),
        Mode::Two => ended(did, Word::Fail, k, p),
    }
}

#[tactic(auto, unfolding(crate::specs::Voids::void_counted))]
fn void_counted(n: u8, k: VoidCounts) -> VoidCounts
    ensures { result ≡ void_counted n k }
{
    VoidCounts {
        voids: bump(k.voids),
        inconclusive: in_row(n == 9, k.inconclusive),
    }
}

// q = 2 comes before r = 3.
#[tactic(auto, unfolding(crate::specs::Voids::void_followed, crate::specs::Voids::void_next, crate::specs::Voids::twice_inconclusive, crate::specs::Voids::third_void, refusal::specs::Choice::pick))]
fn void_followed(n: u8, k: VoidCounts, p: Progress) -> Turn
    ensures { result ≡ void_followed n k p }
{
    let did = Did::Voided(n);
    if k.inconclusive == 2 {
        return mode_ended(did, k, p);
    }
    if k.voids == 3 {
        return ended(did, Word::Incomplete, k, p);
    }
    turn(did, Next::Rests, emptied(p.mode, Stage::Rest, k))
}

#[tactic(auto, unfolding(crate::specs::Voids::voided))]
pub(crate) fn voided(n: u8, p: Progress) -> Turn
    ensures { result ≡ voided n p }
{
    void_followed(n, void_counted(n, p.voids), p)
}

pub(crate) fn nothing(p: Progress) -> Turn
    ensures { result ≡ nothing p }
{
    turn(Did::Nothing, Next::GoesOn, p)
}

// Void 8 at c = 145, else the attempt goes on.
#[tactic(auto, unfolding(crate::specs::Voids::step_five, refusal::specs::Choice::pick))]
pub(crate) fn step_five(did: Did, p: Progress) -> Turn
    ensures { result ≡ step_five did p }
{
    if p.counted == 145 {
        return voided(8, p);
    }
    turn(did, Next::GoesOn, p)
}
