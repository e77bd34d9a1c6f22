// Hands out the parts of a batch or a packet in turn: the head, each ticket, the end.
ghost use Rattle.std.specs.Prelude.{◌+◌, ◌≤◌, length};
ghost use Rattle.codec.specs.Limits.{packet_tickets};

use super::beds::Beds;
use super::limits::{BATCH_TICKETS, MAX_ROUND, PACKET_TICKETS};
use super::number::read_ranged;
use super::packet::MARK;
use super::ticket::Ticket;
use super::ticket_list::{read_count, read_next};
use super::tickets::Tickets;
use super::whole::WholeFault;

/// What a reader comes to next.
// A name and no closure for each step: a reader can be looked at between any two parts, and so can what it comes to.
#[derive(Clone, Copy)]
pub(crate) enum Stage {
    BatchHead,
    PacketHead,
    List,
}

/// A reader of borrowed bytes, with its place.
#[derive(Drop)]
pub struct Reader<'a> {
    bytes: &'a [u8],
    beds: Beds,
    stage: Stage,
    place: usize,
    // The tickets still to come; before the head, the most that there may be.
    due: usize,
    seen: Tickets,
    ghost within: { place ≤ length bytes.now },
    ghost room: { length seen.items + due ≤ packet_tickets },
}

/// What stands before the tickets.
#[derive(Clone, Copy)]
pub enum Head {
    Batch { count: u8 },
    Packet { bed: u8, round: u8, count: u8 },
}

/// One part of a batch or a packet.
#[derive(Clone, Copy)]
pub enum Part<'a> {
    Head(Head),
    /// A ticket: its stretch of the bytes, the offset of that, and its value.
    Ticket {
        offset: usize,
        bytes: &'a [u8],
        ticket: Ticket,
    },
    // A part and no `None`: it says that all the bytes were read, and comes again at each further call.
    End,
}

impl Head {
    ghost use Rattle.std.specs.Prelude.{◌≡◌, ◌<◌, ◌≤◌, length, IfOk};
    ghost use Rattle.codec.specs.Limits.{packet_tickets};
    ghost use Rattle.codec.specs.Reading.{batch_head, packet_head, head_at, count_of};

    // How many tickets follow.
    fn count(self) -> u8
        ensures { result ≡ count_of self }
    {
        match self {
            Head::Batch { count } | Head::Packet { count, .. } => count,
        }
    }

    // The head of a batch with at most so many tickets, and the offset after it.
    #[tactic(auto, unfolding(crate::specs::Reading::batch_head))]
    fn read_batch(bytes: &[u8], most: usize) -> Result<(Head, usize), WholeFault>
        requires { most ≤ packet_tickets }
        ensures value { result ≡ batch_head bytes.now most }
        ensures within { IfOk result (λ p. (count_of p.0 ≤ most) × (p.1 ≤ length bytes.now)) }
    {
        let (count, next) = read_count(bytes, 0, most)?;
        Ok((Head::Batch { count: count as u8 }, next))
    }

    // The bed or the round at `at`, below `end`.
    #[tactic(auto, unfolding(crate::specs::Ranged::ranged_at))]
    fn read_number(bytes: &[u8], at: usize, end: u32) -> Result<(u32, usize), WholeFault>
        ensures value { result ≡ head_at bytes.now at end }
        ensures within { IfOk result (λ p. p.0 < end) }
    {
        read_ranged(bytes, at, 0..end, WholeFault::Head(at))
    }

    // The head of a packet with at most so many tickets, and the offset after it.
    #[tactic(auto, unfolding(crate::specs::Reading::packet_head))]
    fn read_packet(bytes: &[u8], beds: Beds, most: usize) -> Result<(Head, usize), WholeFault>
        requires { most ≤ packet_tickets }
        ensures value { result ≡ packet_head beds.count bytes.now most }
        ensures within { IfOk result (λ p. (count_of p.0 ≤ most) × (p.1 ≤ length bytes.now)) }
    {
        if bytes.len() < MARK.len() {
            return Err(WholeFault::Short);
        }
        if !bytes.starts_with(&MARK) {
            return Err(WholeFault::Mark);
        }
        let (bed, next) = Head::read_number(bytes, MARK.len(), u32::from(beds.count()))?;
        let (round, next) = Head::read_number(bytes, next, MAX_ROUND + 1)?;
        let (count, next) = read_count(bytes, next, most)?;
        Ok((
            Head::Packet {
                bed: bed as u8,
                round: round as u8,
                count: count as u8,
            },
            next,
        ))
    }
}

impl<'a> Reader<'a> {
    ghost use Rattle.std.specs.Prelude.{◌≡◌, ◌+◌, ◌≤◌, [], ◌++◌, length};
    ghost use Rattle.codec.specs.Limits.{packet_tickets};
    ghost use Rattle.codec.specs.Chain.{map_ok};
    ghost use Rattle.codec.specs.Tickets.{listed};
    ghost use Rattle.codec.specs.Reading.{count_of, comes, batch_reading, packet_reading, remaining, seen_by, tickets_of, Begun, Steps};

    // A reader at the first byte, which expects a head with at most `due` tickets. That `due` is in its range is a clause here and of
    // the two heads: a type for such counts would be taken apart in each.
    #[tactic(auto, unfolding(crate::specs::Reading::remaining))]
    fn at_head(bytes: &'a [u8], beds: Beds, stage: Stage, due: usize) -> Self
        requires { due ≤ packet_tickets }
        ensures comes { remaining result ≡ comes stage beds.count bytes.now due [] 0 }
        ensures seen { seen_by result ≡ [] }
    {
        Reader {
            bytes,
            beds,
            stage,
            place: 0,
            due,
            seen: Tickets::new(),
        }
    }

    /// A reader of a batch, for a group of so many beds.
    #[tactic(auto, unfolding(crate::specs::Reading::batch_reading))]
    pub fn batch(bytes: &'a [u8], beds: Beds) -> Self
        ensures comes { remaining result ≡ batch_reading beds.count bytes.now }
        ensures seen { seen_by result ≡ [] }
    {
        Reader::at_head(bytes, beds, Stage::BatchHead, BATCH_TICKETS)
    }

    /// A reader of a packet, for a group of so many beds.
    #[tactic(auto, unfolding(crate::specs::Reading::packet_reading))]
    pub fn packet(bytes: &'a [u8], beds: Beds) -> Self
        ensures comes { remaining result ≡ packet_reading beds.count bytes.now }
        ensures seen { seen_by result ≡ [] }
    {
        Reader::at_head(bytes, beds, Stage::PacketHead, PACKET_TICKETS)
    }

    /// The next part, or the first fault. The end and a fault come again at each further call.
    #[tactic(auto, unfolding(crate::specs::Reading::remaining))]
    pub fn next(&mut self) -> Result<Part<'a>, WholeFault>
        ensures { Steps self.old result self.new }
    {
        let read = match self.stage {
            Stage::BatchHead => Head::read_batch(self.bytes, self.due),
            Stage::PacketHead => Head::read_packet(self.bytes, self.beds, self.due),
            Stage::List => return self.next_in_list(),
        };
        let (head, place) = read?;
        self.begin(head, place);
        Ok(Part::Head(head))
    }

    /// The tickets that were handed out so far.
    pub fn tickets(&self) -> &[Ticket]
        ensures { result.now ≡ seen_by self.now }
    {
        self.seen.as_slice()
    }

    // Reads to the end: those handed out so far and all that come.
    pub(crate) fn finish(&mut self) -> Result<Tickets, WholeFault>
        ensures { map_ok listed result ≡ map_ok (λ ts. seen_by self.old ++ ts) (tickets_of (remaining self.old)) }
    {
        loop {
            if let Part::End = self.next()? {
                return Ok(self.seen);
            }
        }
    }

    // Goes on after the head.
    fn begin(&mut self, head: Head, place: usize)
        requires { (count_of head ≤ self.old.due) × (place ≤ length self.old.bytes.now) }
        ensures { Begun self.old head place self.new }
    {
        self.stage = Stage::List;
        self.due = usize::from(head.count());
        self.place = place;
    }

    // The next ticket, or the end.
    #[tactic(auto, unfolding(crate::specs::Reading::remaining))]
    fn next_in_list(&mut self) -> Result<Part<'a>, WholeFault>
        requires { self.old.stage ≡ Stage.List }
        ensures { Steps self.old result self.new }
    {
        let offset = self.place;
        if self.due == 0 {
            if offset < self.bytes.len() {
                return Err(WholeFault::Spare(offset));
            }
            return Ok(Part::End);
        }
        let (ticket, next) = read_next(self.bytes, offset, self.beds, self.tickets())?;
        let whole = self.bytes;
        let bytes = &whole[offset..next];
        self.seen.push(ticket);
        self.due -= 1;
        self.place = next;
        Ok(Part::Ticket {
            offset,
            bytes,
            ticket,
        })
    }
}
