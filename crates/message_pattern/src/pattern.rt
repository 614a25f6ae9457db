//! A message that is asked for.

/// What a trace calls a message.
#[derive(Clone, Copy, Debug, PartialEq, Eq)]
pub enum MessageName {
    AcquireBlock,
    ProbeBlock,
    ProbeAck,
    ProbeAckData,
    Release,
    ReleaseData,
    Grant,
    GrantData,
    ReleaseAck,
    GrantAck,
}

/// A message by its name, its hart and its line of memory; what isn't given may be any.
#[derive(Clone, Copy, Debug)]
pub struct MessagePattern {
    pub name: Option<MessageName>,
    /// 0 to 7.
    pub hart: Option<u8>,
    /// An address in the line.
    pub address: Option<u32>,
}
