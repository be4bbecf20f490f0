// The payloads of four bytes: the ack and credit pairs of the plain layer (outer.rs), and their limits.
// The pairs are alike: the Rust has the four names, and each pair has its own test and its own error. A
// shared body would take the test's answer and the error, which is no plainer.
#![tactic(auto, using(wire::proofs::NumberLaws::written), unfolding(wire::specs::Refusals::first, crate::specs::Payloads::encode_payload, crate::specs::Payloads::decode_payload, crate::specs::Outer::number_in, crate::specs::Outer::value_of))]

ghost use Rattle.std.specs.Prelude.{◌≡◌};
ghost use Rattle.outer.specs.Outer.{window_ok, credit_ok, number_in, value_of};
ghost use Rattle.outer.specs.Payloads.{encoded, decoded, encode_ack_payload, decode_ack_payload, encode_credit_payload, decode_credit_payload};

use wire::errors::Error;

// Receive window that the NVX guest advertises after a reset.
pub const OUTER_RECEIVE_WINDOW: u32 = 1048576;
// Smallest receive window that the broker accepts in an acknowledgement.
pub const OUTER_MIN_RECEIVE_WINDOW: u32 = 65536;
// Largest receive window that the broker accepts.
pub const OUTER_MAX_RECEIVE_WINDOW: u32 = 4194314;

// Whether a window is within its limits.
#[tactic(auto, unfolding(crate::specs::Outer::window_ok))]
pub fn window_ok(window: u32) -> bool
    ensures { result ≡ window_ok window }
{
    OUTER_MIN_RECEIVE_WINDOW <= window && window <= OUTER_MAX_RECEIVE_WINDOW
}

// Whether a credit is within its limits.
#[tactic(auto, unfolding(crate::specs::Outer::credit_ok))]
pub fn credit_ok(bytes: u32) -> bool
    ensures { result ≡ credit_ok bytes }
{
    bytes != 0 && bytes <= OUTER_MAX_RECEIVE_WINDOW
}

// The number of a four-byte ACK, CREDIT or ERROR payload, none where it is not four bytes.
#[tactic(auto, using(std::proofs::lemmas::Bool::Decides::nat_tests, wire::proofs::NumberLaws::read_4, wire::proofs::NumberLaws::at_whole), unfolding(crate::specs::Outer::number_in))]
pub fn number(payload: &[u8]) -> Option<u32>
    ensures { result ≡ number_in payload.now }
{
    if let [a, b, c, d] = *payload {
        Some(u32::from_le_bytes([a, b, c, d]))
    } else {
        None
    }
}

// The number of a four-byte ACK, CREDIT or ERROR payload; 0 where it is not four bytes.
pub fn value(payload: &[u8]) -> u32
    ensures { result ≡ value_of payload.now }
{
    number(payload).unwrap_or(0)
}

// Encodes the initial receive window of an ACK record.
pub fn encode_ack_payload(window: u32) -> Result<[u8; 4], Error>
    ensures { encoded result ≡ encode_ack_payload window }
{
    if !window_ok(window) {
        return Err(Error::AckPayload);
    }
    Ok(window.to_le_bytes())
}

// Decodes the initial receive window of an ACK record.
pub fn decode_ack_payload(payload: &[u8]) -> Result<u32, Error>
    ensures { decoded result ≡ decode_ack_payload payload.now }
{
    match number(payload) {
        Some(window) if window_ok(window) => Ok(window),
        Some(_) => Err(Error::AckPayload),
        None => Err(Error::PayloadLength),
    }
}

// Encodes the number of consumed bytes of a CREDIT record.
pub fn encode_credit_payload(bytes: u32) -> Result<[u8; 4], Error>
    ensures { encoded result ≡ encode_credit_payload bytes }
{
    if !credit_ok(bytes) {
        return Err(Error::CreditPayload);
    }
    Ok(bytes.to_le_bytes())
}

// Decodes the number of consumed bytes of a CREDIT record.
pub fn decode_credit_payload(payload: &[u8]) -> Result<u32, Error>
    ensures { decoded result ≡ decode_credit_payload payload.now }
{
    match number(payload) {
        Some(bytes) if credit_ok(bytes) => Ok(bytes),
        Some(_) => Err(Error::CreditPayload),
        None => Err(Error::PayloadLength),
    }
}
