// The limits of the byte forms. specs/Limits.antt has the same numbers for the contracts.

/// The most beds that a group has.
pub const MAX_BEDS: u8 = 8;
/// The most bytes that a number takes.
pub const NUMBER_BYTES: usize = 3;
/// Numbers are below this: three groups of seven bits.
pub const NUMBER_END: u32 = 2_097_152;
/// The most paths of a ticket.
pub const MAX_PATHS: u32 = 1_000_000;
/// The lowest and the highest number of a ticket.
pub const MIN_NUMBER: u32 = 1;

pub const MAX_NUMBER: u32 = 65_535;
/// The highest sheet of a ticket.
pub const MAX_SHEET: u32 = 63;
/// The most bytes of a ticket: three each for its paths and its number, one each for its origin and its sheet.
pub const MAX_TICKET_BYTES: usize = 8;
/// The most tickets of a batch, and of a packet.
pub const BATCH_TICKETS: usize = 8;

pub const PACKET_TICKETS: usize = 16;
/// The highest round of a packet: that of a bed which has been through all rounds.
pub const MAX_ROUND: u32 = 32;
/// The most bytes of a batch, and of a packet.
pub const MAX_BATCH_BYTES: usize = 65;

pub const MAX_PACKET_BYTES: usize = 135;
