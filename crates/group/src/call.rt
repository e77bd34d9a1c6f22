// The calls that change a group, and what they answer.
use super::refusal::Refusal;
use codec::fixed_vec::FixedVec;
use codec::limits::MAX_PACKET_BYTES;
use codec::ticket::Ticket;

/// A call that may change the group. The bed is the one that the call is made on.
// A value and no closure: the law speaks of lists of calls. It carries plain numbers, any of them: what is out of range is refused.
#[derive(Clone, Copy)]
pub enum Call<'a> {
    /// Power on: the bed takes up its queue again from what it kept.
    Start {
        bed: u32,
    },
    /// A new ticket for the bed's set.
    Submit {
        bed: u32,
        number: u32,
        paths: u32,
        sheet: u32,
    },
    /// The packet of the bed's round and set, into a buffer with room for so many bytes.
    Send {
        bed: u32,
        room: usize,
    },
    /// A packet arrives, whoever wrote it.
    Hear {
        bed: u32,
        bytes: &'a [u8],
    },
    /// The bed keeps a batch of its set, and proposes it for its round.
    Propose {
        bed: u32,
    },
    /// A propose in which power fails after so many finished cells of the keep.
    Trip {
        bed: u32,
        at: u32,
        junk: u8,
    },
    /// The bed takes the decision of its round into its queue.
    Collect {
        bed: u32,
    },
    /// Power off: the bed loses all but what it kept.
    Off {
        bed: u32,
    },
}

/// The bytes of a packet that was sent.
#[derive(Clone, Copy)]
pub struct SentPacket {
    pub(crate) bytes: FixedVec<u8, MAX_PACKET_BYTES>,
}

/// What an accepted call answers.
#[derive(Clone, Copy)]
pub enum Reply {
    Done,
    /// The ticket that was taken in.
    Submitted(Ticket),
    Sent(SentPacket),
    Heard(Heard),
}

/// What became of the tickets of a packet: how many were taken, and how many found the set full.
#[derive(Clone, Copy)]
pub struct Heard {
    pub taken: u8,
    pub full: u8,
}
