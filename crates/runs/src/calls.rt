// The calls of a list, and the events that a run makes of them.
use session::fault::SessionFault;
use session::state::{Answer, Open, Ready};
use std::alloc::AllocError;

// A call, with the lengths of the memories that are new for it.
#[derive(Clone, Copy)]
pub enum Call<'a> {
    Answer {
        frame: &'a [u8],
        working: usize,
        reply: usize,
    },
    Close,
    Publish {
        working: usize,
    },
}

// A call that was not made.
#[derive(Drop)]
pub enum Unmade {
    Answer {
        frame: Vec<u8>,
        working: usize,
        reply: usize,
    },
    Close,
    Publish {
        working: usize,
    },
}

// A call and what came of it. It owns its frame, so it outlives the list that the call stood in.
#[derive(Drop)]
pub enum Event {
    // with the reply memory as it was left
    Answered {
        frame: Vec<u8>,
        working: usize,
        answer: Answer,
        reply: Vec<u8>,
    },
    Closed {
        fault: Option<SessionFault>,
    },
    Published {
        working: usize,
        fault: Option<SessionFault>,
    },
    // the session at hand does not have this call
    NotAllowed {
        call: Unmade,
    },
}

// The session at hand.
#[derive(Drop)]
pub enum Stage {
    Open(Open),
    Ready(Ready),
}

// The session after a call, and the event. Where memory lacked, no call was made.
#[derive(Drop)]
pub struct Step {
    pub stage: Stage,
    pub event: Result<Event, AllocError>,
}

// Where calls led: how many events are of the first list, and how many our host's; those of the second list
// are behind them. It is whole unless memory lacked.
#[derive(Drop)]
pub struct Run {
    pub stage: Stage,
    pub events: Vec<Event>,
    pub listed: usize,
    pub hosted: usize,
    pub whole: bool,
}
