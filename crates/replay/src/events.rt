// What receives and their events are as answers: each event has its number, and what it reports.
use crate::answer::{Answer, Part};
use crate::frames::{GUEST_STAGE, HOST_STAGE};
use guest::GuestEvent;
use host::HostEvent;
use parser::Place;
use session::{Identity, Received};

// An event that reports nothing, or an identity.
fn named(event: u8, identity: Option<Identity>) -> Answer {
    Answer {
        event,
        identity,
        ..Answer::default()
    }
}

// An event that hands out a payload, which lies in the piece or in the stage that stands there.
fn data(event: u8, place: Place, stage: usize, length: usize) -> Answer {
    Answer {
        event,
        place: Some(place),
        payload: Part::Payload {
            place,
            stage,
            length,
        },
        ..Answer::default()
    }
}

impl From<GuestEvent> for Answer {
    fn from(event: GuestEvent) -> Answer {
        match event {
            GuestEvent::Reset(identity) => named(1, Some(identity)),
            GuestEvent::Data { place, length } => data(2, place, GUEST_STAGE, length),
        }
    }
}

impl From<HostEvent> for Answer {
    fn from(event: HostEvent) -> Answer {
        match event {
            HostEvent::Wait => named(3, None),
            HostEvent::Attached(identity) => named(4, Some(identity)),
            HostEvent::Rejected => named(5, None),
            HostEvent::Data { place, length } => data(6, place, HOST_STAGE, length),
            HostEvent::Reset(identity) => named(7, Some(identity)),
        }
    }
}

// A receive's event, and the bytes that it took.
impl<E: Into<Answer>> From<Received<E>> for Answer {
    fn from(received: Received<E>) -> Answer {
        Answer {
            count: received.consumed as u64,
            ..received.event.map_or(Answer::default(), E::into)
        }
    }
}
