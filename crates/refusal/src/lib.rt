// A refusal as the table of document 01 and the requests of document 02 give it: one variant a row, with what the row returns as the place.
// specs/Table.antt has the number and the place of each. A check that may refuse answers a `Check`; one check after another is `?`.
#![tactic(auto)]

ghost use Rattle.std.specs.Prelude.{◌≡◌, Some};
ghost use Rattle.refusal.specs.Table.{number_of, place_of, refusal_text};

use std::fmt;

#[derive(Clone, Copy, Debug, PartialEq, Eq)]
pub enum Refusal {
    // record ends too early: its length
    EndsEarly(usize),
    // count not allowed: offset of count
    CountNotAllowed(usize),
    // code bad, twice, or required one absent: offset of code, or of count
    CodeUnfit(usize),
    // setting out of range: offset, or 1 to 7 in a start
    SettingUnfit(usize),
    // saturation value unfit: offset, or 0 in a start
    SaturationUnfit(usize),
    // stop unfit: offset of its entry
    StopUnfit(usize),
    // bytes left: offset of first
    BytesLeft(usize),
    // reading unfit: offset (absent: row's start), or code in an event
    ReadingUnfit(usize),
    // row or stop after verdict: its offset
    AfterVerdict(usize),
    // output too short: length needed
    OutputShort(usize),
    // clock earlier than the last: last clock
    ClockEarlier(u32),
    // test running (all but power-on, second, stop)
    TestRunning,
    // second or stop, no test
    NoTest,
    // start locked: lock number (the enum of locks stands in a crate above)
    StartLocked(u8),
    // stop cause, V or U unfit
    CauseUnfit,
    // inertia of a coast-down run out of range
    InertiaUnfit,
    // power of a coast-down run out of range
    PowerUnfit,
    // background value of a prepare above its channel's greatest: the lowest such code (the enum of channels stands in a crate above)
    BackgroundUnfit(u8),
    // wide form of the channels not needed: the count's offset
    WideNotNeeded(usize),
    // unknown kind of event in a journal, or a yes-or-no byte above 1: its offset
    EventUnfit(usize),
    // row count of a record to be salvaged more than is allowed: its offset
    RowsNotAllowed(usize),
}

// What one check tells.
pub type Check = Result<(), Refusal>;

impl Refusal {
    // The cause's number. Ruled out: rows counted from 0; the number of another row.
    pub fn number(self) -> u8
        ensures { result ≡ number_of self }
    {
        match self {
            Refusal::EndsEarly(_) => 1,
            Refusal::CountNotAllowed(_) => 2,
            Refusal::CodeUnfit(_) => 3,
            Refusal::SettingUnfit(_) => 4,
            Refusal::SaturationUnfit(_) => 5,
            Refusal::StopUnfit(_) => 6,
            Refusal::BytesLeft(_) => 7,
            Refusal::ReadingUnfit(_) => 8,
            Refusal::AfterVerdict(_) => 9,
            Refusal::OutputShort(_) => 10,
            Refusal::ClockEarlier(_) => 11,
            Refusal::TestRunning => 12,
            Refusal::NoTest => 13,
            Refusal::StartLocked(_) => 14,
            Refusal::CauseUnfit => 15,
            Refusal::InertiaUnfit => 16,
            Refusal::PowerUnfit => 17,
            Refusal::BackgroundUnfit(_) => 18,
            Refusal::WideNotNeeded(_) => 19,
            Refusal::EventUnfit(_) => 20,
            Refusal::RowsNotAllowed(_) => 21,
        }
    }

    // What is returned as the place; 0 where the table has "-". Ruled out: the number for the place; 0 for a row that returns one.
    pub fn place(self) -> usize
        ensures { result ≡ place_of self }
    {
        match self {
            Refusal::EndsEarly(place)
            | Refusal::CountNotAllowed(place)
            | Refusal::CodeUnfit(place)
            | Refusal::SettingUnfit(place)
            | Refusal::SaturationUnfit(place)
            | Refusal::StopUnfit(place)
            | Refusal::BytesLeft(place)
            | Refusal::ReadingUnfit(place)
            | Refusal::AfterVerdict(place)
            | Refusal::OutputShort(place)
            | Refusal::WideNotNeeded(place)
            | Refusal::EventUnfit(place)
            | Refusal::RowsNotAllowed(place) => place,
            Refusal::ClockEarlier(clock) => clock as usize,
            Refusal::StartLocked(lock) => lock as usize,
            Refusal::BackgroundUnfit(code) => code as usize,
            Refusal::TestRunning
            | Refusal::NoTest
            | Refusal::CauseUnfit
            | Refusal::InertiaUnfit
            | Refusal::PowerUnfit => 0,
        }
    }
}

// As the programs print it.
impl fmt::Display for Refusal {
    ghost output = { λ r. Some (refusal_text r) };

    fn fmt<W: fmt::Write>(&self, f: &mut fmt::Formatter<W>) -> fmt::Result {
        write!(f, "refused {} {}", self.number(), self.place())
    }
}
