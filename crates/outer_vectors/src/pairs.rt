// The ack and credit payload pairs: the bytes and values, and refusals 27, 28 and 29.
use crate::refused;
use outer::payloads::{
    decode_ack_payload, decode_credit_payload, encode_ack_payload, encode_credit_payload,
};
use print::Hex;
use std::io;
use wire::errors::Error;

// A value, and the payload that its encoder gave.
fn encoded(
    rt: &impl Print,
    pair: &str,
    value: u32,
    answer: Result<[u8; 4], Error>,
) -> io::Result<()> {
    print!(rt; "encode_{pair}_payload {value}: ")?;
    match answer {
        Ok(payload) => println!(rt; "{}", Hex(&payload)),
        Err(error) => refused(rt, error),
    }
}

// A payload, and the value that its decoder gave.
fn decoded(
    rt: &impl Print,
    pair: &str,
    payload: &[u8],
    answer: Result<u32, Error>,
) -> io::Result<()> {
    print!(rt; "decode_{pair}_payload {}: ", Hex(payload))?;
    match answer {
        Ok(value) => println!(rt; "{value}"),
        Err(error) => refused(rt, error),
    }
}

// Both ends of a window's range, and the next beyond each; then the same of a credit. Each value
// goes to the encoder, and its four bytes to the decoder.
pub fn values(rt: &impl Print) -> io::Result<()> {
    for window in [65535, 65536, 4194314, 4194315] {
        let payload = u32::to_le_bytes(window);
        encoded(rt, "ack", window, encode_ack_payload(window))?;
        decoded(rt, "ack", &payload, decode_ack_payload(&payload))?;
    }
    for bytes in [0, 1, 4194314, 4194315] {
        let payload = u32::to_le_bytes(bytes);
        encoded(rt, "credit", bytes, encode_credit_payload(bytes))?;
        decoded(rt, "credit", &payload, decode_credit_payload(&payload))?;
    }
    Ok(())
}

// Payloads of 3, 4 and 5 bytes to both decoders.
pub fn lengths(rt: &impl Print) -> io::Result<()> {
    let bytes = [0u8, 0, 1, 0, 0];
    for count in 3..6 {
        let payload = &bytes[..count];
        decoded(rt, "ack", payload, decode_ack_payload(payload))?;
    }
    for count in 3..6 {
        let payload = &bytes[..count];
        decoded(rt, "credit", payload, decode_credit_payload(payload))?;
    }
    Ok(())
}
