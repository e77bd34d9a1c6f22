// A bed's queue: the jobs of the group in the order of cutting.
use super::limits::QUEUE_TICKETS;
use codec::fixed_vec::FixedVec;
use codec::ticket::Ticket;
use codec::ticket_list::known;

/// The jobs of the group in the order of cutting, as far as this bed has them.
#[derive(Clone, Copy)]
pub struct Queue {
    tickets: FixedVec<Ticket, QUEUE_TICKETS>,
}

impl Queue {
    ghost use Rattle.std.specs.Prelude.{◌≡◌, ◌+◌, ◌<◌, ◌≤◌, [], length, IfSome};
    ghost use Rattle.std.specs.List.{slice_get};
    ghost use Rattle.codec.specs.TicketList.{known as known_in};
    ghost use Rattle.group.specs.Limits.{queue_tickets};
    ghost use Rattle.group.specs.Queue.{added, append, place_of};
    ghost use Rattle.group.specs.Record.{queued_in};

    // No job.
    pub(crate) fn new() -> Queue
        ensures { queued_in result ≡ [] }
    {
        Queue {
            tickets: FixedVec::new(),
        }
    }

    pub(crate) fn len(&self) -> usize
        ensures value { result ≡ length (queued_in self.now) }
        ensures fits { result ≤ queue_tickets }
    {
        self.tickets.len()
    }

    // The ticket at a place, counted from 0.
    pub(crate) fn get(&self, place: usize) -> Option<Ticket>
        ensures { result ≡ slice_get (queued_in self.now) place }
    {
        self.tickets.as_slice().get(place).copied()
    }

    // Whether the identity of a ticket is queued.
    pub(crate) fn knows(&self, ticket: &Ticket) -> bool
        ensures { result ≡ known_in ticket.now (queued_in self.now) }
    {
        known(&self.tickets, ticket)
    }

    // One ticket more, unless its identity is queued.
    fn add(&mut self, ticket: &Ticket)
        requires { length (queued_in self.old) < queue_tickets }
        ensures after { queued_in self.new ≡ added (queued_in self.old) ticket.now }
        ensures len { length (queued_in self.new) ≤ length (queued_in self.old) + 1 }
    {
        if !self.knows(ticket) {
            let Ok(()) = self.tickets.try_push(*ticket) else {
                unreachable!()
            };
        }
    }

    // The tickets of a decided batch in their order, each tested against the queue. That there is room is a clause, here and for a bed: it
    // depends on what comes, and follows from the round.
    pub(crate) fn append(&mut self, batch: &[Ticket])
        requires { length (queued_in self.old) + length batch.now ≤ queue_tickets }
        ensures after { queued_in self.new ≡ append (queued_in self.old) batch.now }
        ensures len { length (queued_in self.new) ≤ length (queued_in self.old) + length batch.now }
    {
        for ticket in batch {
            self.add(ticket);
        }
    }

    // The place at which the identity of a ticket is queued.
    pub(crate) fn place_of(&self, ticket: &Ticket) -> Option<usize>
        ensures value { result ≡ place_of ticket.now (queued_in self.now) }
        ensures within { IfSome result (λ place. place < queue_tickets) }
    {
        self.tickets
            .as_slice()
            .iter()
            .position(|queued| queued.same_identity(ticket))
    }
}
