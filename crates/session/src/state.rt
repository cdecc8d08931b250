// The types of a session: open or ready, moved and never copied.
ghost use Rattle.std.specs.Prelude.{◌≡◌, ◌≤◌, true};
ghost use Rattle.session.specs.State.{phase_number, agrees};

use crate::fault::SessionFault;
use key::sizes::Sizes;

#[derive(Clone, Copy, PartialEq, Eq)]
pub enum Phase {
    Receiving,
    Complete,
    Singular,
}

impl Phase {
    // The number that replies and refusals tell: of the protocol, so no cast from the order of the phases.
    pub fn number(self) -> u8
        ensures { result ≡ phase_number self }
    {
        match self {
            Phase::Receiving => 0,
            Phase::Complete => 1,
            Phase::Singular => 2,
        }
    }
}

// The set, the phase, and how many rows were taken.
#[derive(Drop)]
pub struct Open {
    pub(crate) set: Sizes,
    pub(crate) phase: Phase,
    pub(crate) rows: usize,
    ghost small: { set.rows ≤ 1664 },
    ghost turn: { agrees phase rows set.rows ≡ true },
}

// The set, and how many columns were sent.
#[derive(Drop)]
pub struct Ready {
    pub(crate) set: Sizes,
    pub(crate) sent: usize,
    ghost few: { sent ≤ set.rest },
}

// A refused closing hands the open session back.
#[derive(Drop)]
pub struct StillOpen {
    pub session: Open,
    pub fault: SessionFault,
}

// What a frame is answered: the length of the reply, and the refusal if there is one. Both and no Result,
// since a refusal has a reply too. A length and no slice, which would keep the caller's memory lent.
#[derive(Clone, Copy)]
pub struct Answer {
    pub length: usize,
    pub fault: Option<SessionFault>,
}
