// The prepare that a start needs: what lock 8 asks.
ghost use Rattle.std.specs.Prelude.{◌≡◌};
ghost use Rattle.locks.specs.State.{prepared_after, unprepared};

use crate::Event;
use crate::standing::older;

// Power-on and clock setting void a prepare, an admitted start uses it up. The latest prepare decides, whatever stood before it.
pub(crate) fn prepared_after(prepared: Option<u32>, event: Event) -> Option<u32>
    ensures { result ≡ prepared_after prepared event }
{
    match event {
        Event::PowerOn { .. } | Event::ClockSetting { .. } | Event::Start { .. } => None,
        Event::Prepare { clock, check } => prepare::prepare_stands(check).then_some(clock),
        _ => prepared,
    }
}

// Lock 8.
pub(crate) fn unprepared(now: u32, prepared: Option<u32>) -> bool
    ensures { result ≡ unprepared now prepared }
{
    prepared.is_none_or(|clock| older(clock, 120, now))
}
