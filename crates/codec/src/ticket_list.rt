// Lists of tickets: in ticket order, no identity twice. Their form is a count and that many tickets.
ghost use Rattle.std.specs.Prelude.{◌≡◌, ℕ, ◌+◌, ◌<◌, ◌≤◌, ◌++◌, length, IfOk, Decides, Some};
ghost use Rattle.codec.specs.Limits.{max_beds, packet_tickets};
ghost use Rattle.codec.specs.Ticket.{InRange};
ghost use Rattle.codec.specs.TicketList.{known as known_in, follows, count_at, next_at, Each, Sound, list_bytes};
ghost use Rattle.codec.specs.Report.{list_report};
ghost use Rattle.codec.specs.Words.{list_words};
ghost use Rattle.codec.specs.declared.ticket_list.ListFault.TheVariants.{Number as ListNumber, Ticket as ListTicket};

use super::beds::Beds;
use super::fixed_vec::FixedVec;
use super::number::{NumberFault, read_number};
use super::report::{Cause, Layer, Report};
use super::ticket::{Ticket, TicketFault, read_ticket};
use std::fmt;

/// A fault in a list of tickets.
#[derive(Clone, Copy)]
pub enum ListFault {
    /// In the count.
    Number(NumberFault),
    Ticket(TicketFault),
    /// The count at this offset is out of its range.
    Count(usize),
    /// The ticket at this offset does not stand after the one before it.
    Order(usize),
    /// The ticket at this offset has the identity of an earlier one.
    Repeated(usize),
}

impl From<NumberFault> for ListFault {
    ghost from_gives = { λ x y. y ≡ ListNumber x };

    fn from(number: NumberFault) -> ListFault {
        ListFault::Number(number)
    }
}

impl From<TicketFault> for ListFault {
    ghost from_gives = { λ x y. y ≡ ListTicket x };

    fn from(ticket: TicketFault) -> ListFault {
        ListFault::Ticket(ticket)
    }
}

impl ListFault {
    /// The cause, the place and the layer.
    pub fn report(self) -> Report
        ensures { result ≡ list_report self }
    {
        match self {
            ListFault::Number(fault) => fault.report(),
            ListFault::Ticket(fault) => fault.report(),
            ListFault::Count(place) => Report {
                cause: Cause::OutOfRange,
                place,
                layer: Layer::List,
            },
            ListFault::Order(place) => Report {
                cause: Cause::OutOfOrder,
                place,
                layer: Layer::List,
            },
            ListFault::Repeated(place) => Report {
                cause: Cause::Repeated,
                place,
                layer: Layer::List,
            },
        }
    }
}

impl fmt::Display for ListFault {
    ghost output = { λ f. Some (list_words f) };

    fn fmt<W: fmt::Write>(&self, f: &mut fmt::Formatter<W>) -> fmt::Result {
        match self {
            ListFault::Number(fault) => fault.fmt(f),
            ListFault::Ticket(fault) => fault.fmt(f),
            ListFault::Count(_) => f.write_str("the count is above the most tickets that may come"),
            ListFault::Order(_) => f.write_str(
                "this ticket does not stand after the one before it",
            ),
            ListFault::Repeated(_) => f.write_str(
                "an earlier ticket has the origin and number of this one",
            ),
        }
    }
}

/// Whether the identity of `ticket` is among the tickets.
pub fn known(tickets: &[Ticket], ticket: &Ticket) -> bool
    ensures { result ≡ known_in ticket.now tickets.now }
{
    tickets.iter().any(|other| other.same_identity(ticket))
}

/// Whether `ticket` stands after the last of the tickets.
#[tactic(auto, using(crate::proofs::TicketLists::follows_last))]
pub fn follows_last(tickets: &[Ticket], ticket: &Ticket) -> bool
    ensures { result ≡ follows ticket.now tickets.now }
{
    match tickets {
        [] => true,
        [.., last] => last.stands_before(ticket),
    }
}

// The count at `at`, at most `most`. By a comparison of its own, since the range of `read_ranged` is of `u32` and `most` is any `usize`.
#[tactic(auto, unfolding(crate::specs::Ranged::ranged_at))]
pub(crate) fn read_count(bytes: &[u8], at: usize, most: usize) -> Result<(u32, usize), ListFault>
    ensures value { result ≡ count_at bytes.now at most }
    ensures within { IfOk result (λ p. (p.0 ≤ most) × (p.1 ≤ length bytes.now)) }
{
    let (count, next) = read_number(bytes, at)?;
    if count as usize > most {
        return Err(ListFault::Count(at));
    }
    Ok((count, next))
}

// The ticket at `at`, which comes after those seen.
#[tactic(auto, unfolding(crate::specs::TicketList::next_at))]
pub(crate) fn read_next(
    bytes: &[u8],
    at: usize,
    beds: Beds,
    seen: &[Ticket],
) -> Result<(Ticket, usize), ListFault>
    ensures value { result ≡ next_at beds.count bytes.now seen.now at }
    ensures within { IfOk result (λ p. (at < p.1) × (p.1 ≤ length bytes.now)) }
{
    let (ticket, next) = read_ticket(bytes, at, beds)?;
    if !follows_last(seen, &ticket) {
        return Err(ListFault::Order(at));
    }
    if known(seen, &ticket) {
        return Err(ListFault::Repeated(at));
    }
    Ok((ticket, next))
}

/// Whether the tickets may stand in one batch or packet, for a group of so many beds and with at most `most` tickets.
#[tactic(auto, using(crate::proofs::TicketLists::after_at, crate::proofs::TicketLists::sound_after))]
pub fn is_sound(tickets: &[Ticket], beds: Beds, most: usize) -> bool
    ensures { Decides result (Sound beds.count most tickets.now) }
{
    if tickets.len() > most {
        return false;
    }
    for (i, ticket) in tickets.iter().enumerate() {
        let before = &tickets[0..i];
        if !ticket.in_range(beds) || !follows_last(before, ticket) || known(before, ticket) {
            return false;
        }
    }
    true
}

impl<const CAP: usize> FixedVec<u8, CAP> {
    // The form of a list, at the end: its count and its tickets.
    #[tactic(auto, unfolding(crate::specs::TicketList::list_bytes), using(crate::proofs::ListWrites::list_length))]
    pub(crate) fn push_list(&mut self, tickets: &[Ticket])
        requires ranged { Each (InRange max_beds) tickets.now }
        requires few { length tickets.now ≤ packet_tickets }
        requires room { length self.old.items + length (list_bytes tickets.now) ≤ CAP }
        ensures { self.new.items ≡ self.old.items ++ list_bytes tickets.now }
    {
        self.push_number(tickets.len() as u32);
        for ticket in tickets {
            self.push_ticket(ticket);
        }
    }
}
