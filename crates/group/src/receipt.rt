// Receipts: what a bed gives for a ticket that it took.
ghost use Rattle.std.specs.Prelude.{◌≡◌, true, false};

use super::refusal::Refusal;
use codec::ticket::Ticket;

/// A bed took this ticket. A receipt must be given back, by redeem or waive: a program that lets one lapse is not proved.
pub(crate) struct Receipt {
    ticket: Ticket,
    // A flag, so that what a lapse breaks is a clause that stands here to be read: without a `Drop`, no clause would say it.
    given_back: bool,
}

impl Drop for Receipt {
    // Only a receipt that was given back may go, and only `waive` gives one back.
    fn drop(self)
        requires { self.given_back ≡ true }
    {
        let Receipt {
            ticket: _,
            given_back: _,
        } = self;
    }
}

/// What became of a ticket that is redeemed.
pub(crate) enum Redeemed {
    /// At this place of the queue, counted from 0.
    Queued(u16),
    /// It still waits, and the receipt comes back.
    Waiting(Receipt),
    Unknown,
}

/// A refused redeem hands the receipt back.
pub(crate) struct Unredeemed {
    pub(crate) refusal: Refusal,
    pub(crate) receipt: Receipt,
}

impl Receipt {
    pub(crate) fn new(ticket: Ticket) -> Receipt
        ensures ticket { result.ticket ≡ ticket }
        ensures still_out { result.given_back ≡ false }
    {
        Receipt {
            ticket,
            given_back: false,
        }
    }

    pub(crate) fn ticket(&self) -> &Ticket
        ensures { result.now ≡ self.now.ticket }
    {
        &self.ticket
    }

    /// Gives the receipt up; the ticket goes its way.
    pub(crate) fn waive(mut self) -> Ticket
        ensures { result ≡ self.ticket }
    {
        self.given_back = true;
        self.ticket
    }
}
