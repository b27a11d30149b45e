// Wrong tries, password lock and authority lock: what authority unlock clears.
ghost use Rattle.std.specs.Prelude.{◌≡◌};
ghost use Rattle.locks.specs.State.{one_wrong, wrong_after, security_after};

use crate::{Event, Security, Try};

pub(crate) const NO_SECURITY: Security = Security {
    wrong: 0,
    password: false,
    authority: false,
};

// One wrong try more in a row, counted up to four.
fn one_wrong(n: u8) -> u8
    ensures { result ≡ one_wrong n }
{
    n.saturating_add(1).min(4)
}

// "a good try ends a row"
fn wrong_after(event: Event, wrong: u8) -> u8
    ensures { result ≡ wrong_after event wrong }
{
    match event {
        Event::Try {
            outcome: Try::Good { .. },
            ..
        } => 0,
        Event::Try {
            outcome: Try::Wrong,
            ..
        } => one_wrong(wrong),
        _ => wrong,
    }
}

// Authority unlock clears all three; the fourth wrong try in a row sets the password lock.
pub(crate) fn security_after(s: Security, event: Event) -> Security
    ensures { result ≡ security_after s event }
{
    let wrong = wrong_after(event, s.wrong);
    match event {
        Event::AuthorityUnlock { .. } => NO_SECURITY,
        _ => Security {
            wrong,
            password: 4 <= wrong || s.password,
            authority: matches!(event, Event::AuthorityLock { .. }) || s.authority,
        },
    }
}
