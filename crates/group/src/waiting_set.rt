// A bed's waiting set: tickets that are not queued yet.
use super::limits::SET_TICKETS;
use super::queue::Queue;
use codec::fixed_vec::{FixedVec, Full};
use codec::ticket::Ticket;
use codec::ticket_list::known;

/// Tickets that were submitted or heard and are not in the queue yet, in ticket order.
#[derive(Clone, Copy)]
pub struct WaitingSet {
    tickets: FixedVec<Ticket, SET_TICKETS>,
}

impl WaitingSet {
    ghost use Rattle.std.specs.Prelude.{◌≡◌, ◌+◌, ◌<◌, ◌≤◌, ◌↔◌, not, [], length, take, insert, ◌==◌, IsOk, OnOk, OnErr};
    ghost use Rattle.std.specs.List.{filter};
    ghost use Rattle.codec.specs.Edits.{placed};
    ghost use Rattle.codec.specs.TicketList.{known as known_in};
    ghost use Rattle.group.specs.Limits.{set_tickets};
    ghost use Rattle.group.specs.Record.{waiting_in, queued_in};

    // No ticket.
    pub(crate) fn new() -> WaitingSet
        ensures { waiting_in result ≡ [] }
    {
        WaitingSet {
            tickets: FixedVec::new(),
        }
    }

    pub(crate) fn as_slice(&self) -> &[Ticket]
        ensures value { result.now ≡ waiting_in self.now }
        ensures fits { length result.now ≤ set_tickets }
    {
        self.tickets.as_slice()
    }

    pub(crate) fn is_empty(&self) -> bool
        ensures { result ≡ (length (waiting_in self.now) == 0) }
    {
        self.tickets.is_empty()
    }

    // The first tickets, at most so many.
    pub(crate) fn first(&self, most: usize) -> &[Ticket]
        ensures { result.now ≡ take most (waiting_in self.now) }
    {
        let all = self.as_slice();
        &all[..most.min(all.len())]
    }

    // Whether the identity of a ticket waits. The queue has the like of this and of `new`: each is a line over its own list, with its own
    // words in the clause.
    pub(crate) fn knows(&self, ticket: &Ticket) -> bool
        ensures { result ≡ known_in ticket.now (waiting_in self.now) }
    {
        known(&self.tickets, ticket)
    }

    // One ticket more, in its place, if there is room.
    pub(crate) fn insert(&mut self, ticket: Ticket) -> Result<(), Full>
        ensures room { IsOk result ↔ (length (waiting_in self.old) < set_tickets) }
        ensures placed { OnOk result (waiting_in self.new ≡ placed ticket (waiting_in self.old)) }
        ensures same { OnErr result (self.new ≡ self.old) }
    {
        let place = self.place_for(&ticket);
        self.tickets.try_insert(place, ticket)
    }

    // How many tickets a new one does not stand before.
    fn place_for(&self, ticket: &Ticket) -> usize
        ensures within { result ≤ length (waiting_in self.now) }
        ensures place { placed ticket.now (waiting_in self.now) ≡ insert (waiting_in self.now) result ticket.now }
    {
        let all = self.as_slice();
        all.iter()
            .position(|other| ticket.stands_before(other))
            .unwrap_or(all.len())
    }

    // What is queued leaves the set.
    pub(crate) fn leave(&mut self, queue: &Queue)
        ensures { waiting_in self.new ≡ filter (λ t. not (known_in t (queued_in queue.now))) (waiting_in self.old) }
    {
        self.tickets.retain(|ticket| !queue.knows(ticket));
    }
}
