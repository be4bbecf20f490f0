// The operations by their numbers (tests/differential/FORMAT.md).

// What a call is of: a session, the bare parser, or neither. `Fresh` makes all three fresh.
#[derive(Clone, Copy)]
pub enum Operation {
    Fresh,
    Guest(SessionCall),
    Host(SessionCall),
    Parser(ParserCall),
    Plain(PlainCall),
}

// A call of a session. `SetSequences` gives it sequence numbers that no list of calls reaches.
#[derive(Clone, Copy)]
pub enum SessionCall {
    Write(WriteCall),
    Receive,
    Disconnect,
    Asks,
    SetSequences,
}

// A call of a session that writes to the output.
#[derive(Clone, Copy)]
pub enum WriteCall {
    Attach,
    Acknowledge,
    Send,
    Credit,
}

// A call of a bare parser.
#[derive(Clone, Copy)]
pub enum ParserCall {
    Push,
    New,
    Asks,
}

// A call of the layers below, and the one that shows a part of the memory.
#[derive(Clone, Copy)]
pub enum PlainCall {
    EncodeRecord,
    EncodeOuter,
    DecodeHeader,
    EncodeAck,
    DecodeAck,
    EncodeCredit,
    DecodeCredit,
    TypeAsks,
    ErrorAsks,
    Show,
}

// A number of no operation.
#[derive(Clone, Copy)]
pub struct Unknown;

impl TryFrom<u8> for Operation {
    type Error = Unknown;

    fn try_from(number: u8) -> Result<Operation, Unknown> {
        Ok(match number {
            1 => Operation::Fresh,
            10..=16 => Operation::Guest(SessionCall::try_from(number - 10)?),
            20..=26 => Operation::Host(SessionCall::try_from(number - 20)?),
            30..=32 => Operation::Parser(ParserCall::try_from(number)?),
            50 => Operation::Guest(SessionCall::SetSequences),
            51 => Operation::Host(SessionCall::SetSequences),
            _ => Operation::Plain(PlainCall::try_from(number)?),
        })
    }
}

// The last digit of its number: a guest's calls are 10 to 16, and a host's 20 to 26.
impl TryFrom<u8> for SessionCall {
    type Error = Unknown;

    fn try_from(number: u8) -> Result<SessionCall, Unknown> {
        Ok(match number {
            0 => SessionCall::Write(WriteCall::Attach),
            1 => SessionCall::Receive,
            2 => SessionCall::Write(WriteCall::Acknowledge),
            3 => SessionCall::Write(WriteCall::Send),
            4 => SessionCall::Write(WriteCall::Credit),
            5 => SessionCall::Disconnect,
            6 => SessionCall::Asks,
            _ => return Err(Unknown),
        })
    }
}

impl TryFrom<u8> for ParserCall {
    type Error = Unknown;

    fn try_from(number: u8) -> Result<ParserCall, Unknown> {
        Ok(match number {
            30 => ParserCall::Push,
            31 => ParserCall::New,
            32 => ParserCall::Asks,
            _ => return Err(Unknown),
        })
    }
}

impl TryFrom<u8> for PlainCall {
    type Error = Unknown;

    fn try_from(number: u8) -> Result<PlainCall, Unknown> {
        Ok(match number {
            40 => PlainCall::EncodeRecord,
            41 => PlainCall::EncodeOuter,
            42 => PlainCall::DecodeHeader,
            43 => PlainCall::EncodeAck,
            44 => PlainCall::DecodeAck,
            45 => PlainCall::EncodeCredit,
            46 => PlainCall::DecodeCredit,
            47 => PlainCall::TypeAsks,
            48 => PlainCall::ErrorAsks,
            60 => PlainCall::Show,
            _ => return Err(Unknown),
        })
    }
}
