// A ticket: one job, and its form as four numbers.
//
// | field  | range          | what it is                       |
// |--------|----------------|----------------------------------|
// | paths  | 0 to 1,000,000 | how many paths the drawing has   |
// | origin | below n        | the bed that took the ticket in  |
// | number | 1 to 65,535    | the origin's own number for it   |
// | sheet  | 0 to 63        | the sheet to cut from            |
ghost use Rattle.std.specs.Prelude.{◌≡◌, ℕ, ◌+◌, ◌<◌, ◌≤◌, ◌++◌, length, IfOk, Decides, Some};
ghost use Rattle.codec.specs.Limits.{max_beds};
ghost use Rattle.codec.specs.Ticket.{stands_before, same_identity, InRange, field_at, ticket_at, ticket_bytes};
ghost use Rattle.codec.specs.Write.{HasBytes, Wrote};
ghost use Rattle.codec.specs.Report.{ticket_report};
ghost use Rattle.codec.specs.Words.{ticket_words};
ghost use Rattle.codec.specs.declared.ticket.TicketFault.TheVariants.{Number as TicketNumber};

use super::beds::Beds;
use super::fixed_vec::FixedVec;
use super::limits::{MAX_NUMBER, MAX_PATHS, MAX_SHEET, MAX_TICKET_BYTES, MIN_NUMBER};
use super::number::{NumberFault, read_ranged};
use super::refusal::WriteRefusal;
use super::report::{Cause, Layer, Report};
use super::write::write;
use std::fmt;
use std::ops::Range;

/// One job. Its identity is its origin and its number.
#[derive(Clone, Copy, Default)]
pub struct Ticket {
    pub paths: u32,
    pub origin: u8,
    pub number: u16,
    pub sheet: u8,
}

/// A fault inside a ticket.
#[derive(Clone, Copy)]
pub enum TicketFault {
    Number(NumberFault),
    /// The field at this offset is out of its range.
    Range(usize),
}

impl From<NumberFault> for TicketFault {
    ghost from_gives = { λ x y. y ≡ TicketNumber x };

    fn from(number: NumberFault) -> TicketFault {
        TicketFault::Number(number)
    }
}

impl TicketFault {
    /// The cause, the place and the layer.
    pub fn report(self) -> Report
        ensures { result ≡ ticket_report self }
    {
        match self {
            TicketFault::Number(fault) => fault.report(),
            TicketFault::Range(place) => Report {
                cause: Cause::OutOfRange,
                place,
                layer: Layer::Ticket,
            },
        }
    }
}

impl fmt::Display for TicketFault {
    ghost output = { λ f. Some (ticket_words f) };

    fn fmt<W: fmt::Write>(&self, f: &mut fmt::Formatter<W>) -> fmt::Result {
        match self {
            TicketFault::Number(fault) => fault.fmt(f),
            TicketFault::Range(_) => f.write_str("this field of a ticket is out of its range"),
        }
    }
}

impl Ticket {
    /// Whether this ticket stands before the other in ticket order.
    #[tactic(auto, unfolding(crate::specs::Ticket::stands_before))]
    pub fn stands_before(&self, other: &Ticket) -> bool
        ensures { result ≡ stands_before self.now other.now }
    {
        (self.paths, self.origin, self.number) < (other.paths, other.origin, other.number)
    }

    /// Whether the two have one identity.
    // Field by field and no comparison of pairs, which takes twice the time: a list is searched for each ticket that is read.
    #[tactic(auto, unfolding(crate::specs::Ticket::same_identity))]
    pub fn same_identity(&self, other: &Ticket) -> bool
        ensures { result ≡ same_identity self.now other.now }
    {
        self.origin == other.origin && self.number == other.number
    }

    /// Whether every field is in its range, for a group of so many beds.
    pub fn in_range(&self, beds: Beds) -> bool
        ensures { Decides result (InRange beds.count self.now) }
    {
        self.paths <= MAX_PATHS
            && self.origin < beds.count()
            && u32::from(self.number) >= MIN_NUMBER
            && u32::from(self.sheet) <= MAX_SHEET
    }
}

// The field at `at`, which is to be in the range.
#[tactic(auto, unfolding(crate::specs::Ranged::ranged_at))]
fn read_field(bytes: &[u8], at: usize, range: Range<u32>) -> Result<(u32, usize), TicketFault>
    ensures value { result ≡ field_at bytes.now at range.start range.end }
    ensures within { IfOk result (λ p. (range.start ≤ p.0) × (p.0 < range.end) × (at < p.1) × (p.1 ≤ length bytes.now)) }
{
    read_ranged(bytes, at, range, TicketFault::Range(at))
}

/// The ticket that begins at `at`, and the offset after it.
#[tactic(auto, unfolding(crate::specs::Ticket::ticket_at))]
pub fn read_ticket(bytes: &[u8], at: usize, beds: Beds) -> Result<(Ticket, usize), TicketFault>
    ensures value { result ≡ ticket_at beds.count bytes.now at }
    ensures within { IfOk result (λ p. (at < p.1) × (p.1 ≤ length bytes.now)) }
{
    let (paths, at) = read_field(bytes, at, 0..MAX_PATHS + 1)?;
    let (origin, at) = read_field(bytes, at, 0..u32::from(beds.count()))?;
    let (number, at) = read_field(bytes, at, MIN_NUMBER..MAX_NUMBER + 1)?;
    let (sheet, at) = read_field(bytes, at, 0..MAX_SHEET + 1)?;
    let ticket = Ticket {
        paths,
        origin: origin as u8,
        number: number as u16,
        sheet: sheet as u8,
    };
    Ok((ticket, at))
}

impl<const CAP: usize> FixedVec<u8, CAP> {
    // The form of a ticket, at the end.
    #[tactic(auto, unfolding(crate::specs::Ticket::ticket_bytes))]
    pub(crate) fn push_ticket(&mut self, ticket: &Ticket)
        requires ranged { InRange max_beds ticket.now }
        requires room { length self.old.items + length (ticket_bytes ticket.now) ≤ CAP }
        ensures { self.new.items ≡ self.old.items ++ ticket_bytes ticket.now }
    {
        self.push_number(ticket.paths);
        self.push_number(u32::from(ticket.origin));
        self.push_number(u32::from(ticket.number));
        self.push_number(u32::from(ticket.sheet));
    }
}

// The form of a ticket, for a group of so many beds, if it has one.
#[tactic(auto, using(crate::proofs::TicketForms::ticket_short, crate::proofs::TicketForms::in_range_more))]
fn ticket_form(ticket: &Ticket, beds: Beds) -> Option<FixedVec<u8, MAX_TICKET_BYTES>>
    ensures { HasBytes (InRange beds.count ticket.now) (ticket_bytes ticket.now) result }
{
    if !ticket.in_range(beds) {
        return None;
    }
    let mut form = FixedVec::new();
    form.push_ticket(ticket);
    Some(form)
}

/// Writes the form of a ticket at the beginning of `out`, for a group of so many beds, and answers its length.
pub fn write_ticket(out: &mut [u8], ticket: &Ticket, beds: Beds) -> Result<usize, WriteRefusal>
    ensures { Wrote (InRange beds.count ticket.now) (ticket_bytes ticket.now) out.old result out.new }
{
    write(out, ticket_form(ticket, beds))
}
