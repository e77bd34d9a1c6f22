// The tickets of a packet or a batch that was read.
use super::fixed_vec::FixedVec;
use super::limits::PACKET_TICKETS;
use super::ticket::Ticket;

/// At most 16 tickets, as many as a packet has.
pub type Tickets = FixedVec<Ticket, PACKET_TICKETS>;
