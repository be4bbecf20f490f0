// A host at the point where DATA flows.
use bench_core::start::{EPOCH, INSTANCE};
use host::HostSession;
use record::codec::encode_record;
use record::types::RecordType;
use wire::{Epoch, Sequence};

// A host that has attached, got a READY of sequence 0 and sent a byte, so that its next record has
// the sequence that the guest expects.
pub(crate) fn attached_host(stage: &mut [u8]) -> HostSession {
    let mut output = [0u8; 76];
    let attached = host::attach(HostSession::new(), [7; 32], &mut output, 0);
    let mut ready = [0u8; 44];
    let _ = encode_record(
        RecordType::Ready,
        INSTANCE,
        Epoch(EPOCH),
        Sequence(0),
        &[],
        &mut ready,
        0,
    );
    let received = host::receive(attached.session, &ready, stage);
    host::send(received.session, b"0", &mut output, 0).session
}
