// A host and a guest with a relay between them: the host sends a message, the guest sends it back
// and credits it, and the relay gives the guest's DATA the sequence that the host expects.
ghost use Rattle.std.specs.Prelude.{◌≡◌, length};

use crate::start::attached_host;
use bench_core::start::active_guest;
use bench_core::sums::Sums;
use guest::{GuestEvent, GuestSession};
use host::{HostEvent, HostSession};
use parser::{Complete, Progress, RecordParser, push};
use record::codec::encode_record;
use record::types::RecordType;
use session::Received;
use wire::Sequence;

// Both ends and the relay between them, and the sums over the echoes.
#[derive(Clone, Copy)]
pub struct Link {
    pub host: HostSession,
    pub guest: GuestSession,
    pub parser: RecordParser,
    pub sums: Sums,
}

impl Link {
    // A link whose ends are ready for DATA.
    fn new(stage: &mut [u8]) -> Link {
        Link {
            host: attached_host(stage),
            guest: active_guest(),
            parser: RecordParser::new(),
            sums: Sums::default(),
        }
    }

    // The guest receives a message, sends it back and credits it, and where its answers end: 0 where
    // the credit is refused. A refused step goes on with no bytes.
    fn answer(&mut self, wire: &[u8], stage: &mut [u8], reply: &mut [u8]) -> usize {
        let received = guest::receive(self.guest, wire, stage);
        let bytes = match received.answer {
            Ok(
                Received {
                    event: Some(GuestEvent::Data { place, length }),
                    ..
                },
            ) => guest::payload(wire, stage, place, length),
            _ => &[],
        };
        let sent = guest::send(received.session, bytes, reply, 0);
        let next = sent.answer.map_or(0, |sent| sent.next);
        let amount = u32::try_from(bytes.len()).unwrap_or(0);
        let credited = guest::credit(sent.session, amount, reply, next);
        credited
            .store(&mut self.guest)
            .map_or(0, |credited| credited.next)
    }

    // The relay reads the guest's DATA, writes it with another sequence and reads the CREDIT, and
    // where its record ends: 0 where there is none.
    fn relay(&mut self, sequence: u64, reply: &[u8], stage: &mut [u8], wire: &mut [u8]) -> usize {
        let pushed = push::push(self.parser, reply, stage);
        let (consumed, next) = match pushed.answer {
            Ok(
                Progress {
                    consumed,
                    complete: Some(Complete { record, place }),
                },
            ) => {
                let bytes = parser::payload(reply, stage, place, record.length);
                let written = encode_record(
                    RecordType::Data,
                    record.instance_id,
                    record.epoch,
                    Sequence(sequence),
                    bytes,
                    wire,
                    0,
                );
                (consumed, written.unwrap_or(0))
            }
            Ok(progress) => (progress.consumed, 0),
            Err(_) => (0, 0),
        };
        let rest = reply.get(consumed..).unwrap_or_default();
        self.parser = push::push(pushed.parser, rest, stage).parser;
        next
    }

    // The host receives the echo.
    fn take(&mut self, wire: &[u8], whole: bool, stage: &mut [u8]) {
        let received = host::receive(self.host, wire, stage).store(&mut self.host);
        let echo = match received {
            Ok(
                Received {
                    event: Some(HostEvent::Data { place, length }),
                    ..
                },
            ) => host::payload(wire, stage, place, length),
            _ => &[],
        };
        self.sums.add_payload(echo, whole);
    }

    // One message there and back, with its sequence: the host sends it, the guest answers, the relay
    // hands the answer on, and the host receives it.
    fn turn(
        &mut self,
        sequence: u64,
        message: &[u8],
        whole: bool,
        stage: &mut [u8],
        wire: &mut [u8],
        reply: &mut [u8],
    ) {
        let sent = host::send(self.host, message, wire, 0).store(&mut self.host);
        let end = sent.map_or(0, |sent| sent.next);
        let end = self.answer(wire.get(..end).unwrap_or_default(), stage, reply);
        let reply = reply.get(..end).unwrap_or_default();
        let end = self.relay(sequence, reply, stage, wire);
        self.take(wire.get(..end).unwrap_or_default(), whole, stage);
    }
}

// Sends a message there and back so many times, and gives the sums over the echoes.
// Internal: a loop to be timed. Of the lent bytes it states the length alone; `make bench` holds its
// answers to the Rust's.
pub fn nvxs_echo(
    message: &[u8],
    times: u32,
    whole: bool,
    stage: &mut [u8],
    wire: &mut [u8],
    reply: &mut [u8],
) -> u64
    ensures { (length stage.new ≡ length stage.old) × (length wire.new ≡ length wire.old) × (length reply.new ≡ length reply.old) }
{
    let mut link = Link::new(stage);
    for sequence in 1..=times {
        link.turn(sequence.into(), message, whole, stage, wire, reply);
    }
    link.sums.weighted
}
