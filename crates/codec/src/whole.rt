// Faults of a whole batch or packet, and where the bytes came from.
ghost use Rattle.std.specs.Prelude.{◌≡◌, Some};
ghost use Rattle.codec.specs.Report.{whole_report};
ghost use Rattle.codec.specs.Words.{fault_words};
ghost use Rattle.codec.specs.declared.whole.WholeFault.TheVariants.{Number as WholeNumber, List as WholeList};

use super::number::NumberFault;
use super::report::{Cause, Layer, Report};
use super::ticket_list::ListFault;
use std::fmt;

/// A fault in a batch or a packet, the whole of it.
#[derive(Clone, Copy)]
pub enum WholeFault {
    /// In a packet's bed or round.
    Number(NumberFault),
    List(ListFault),
    /// A packet has fewer bytes than its mark.
    Short,
    /// A packet's first bytes are not the mark.
    Mark,
    /// A packet's bed or round, at this offset, is out of its range.
    Head(usize),
    /// Bytes are left over from this offset on.
    Spare(usize),
}

impl From<NumberFault> for WholeFault {
    ghost from_gives = { λ x y. y ≡ WholeNumber x };

    fn from(number: NumberFault) -> WholeFault {
        WholeFault::Number(number)
    }
}

impl From<ListFault> for WholeFault {
    ghost from_gives = { λ x y. y ≡ WholeList x };

    fn from(list: ListFault) -> WholeFault {
        WholeFault::List(list)
    }
}

impl WholeFault {
    /// The cause, the place and the layer.
    pub fn report(self) -> Report
        ensures { result ≡ whole_report self }
    {
        match self {
            WholeFault::Number(fault) => fault.report(),
            WholeFault::List(fault) => fault.report(),
            WholeFault::Short => Report {
                cause: Cause::Ends,
                place: 0,
                layer: Layer::Whole,
            },
            WholeFault::Mark => Report {
                cause: Cause::Mark,
                place: 0,
                layer: Layer::Whole,
            },
            WholeFault::Head(place) => Report {
                cause: Cause::OutOfRange,
                place,
                layer: Layer::Whole,
            },
            WholeFault::Spare(place) => Report {
                cause: Cause::Spare,
                place,
                layer: Layer::Whole,
            },
        }
    }

    /// The same fault, with where its bytes came from.
    pub fn at(self, site: Site) -> SitedFault
        ensures { result ≡ record { fault = self; site = site } }
    {
        SitedFault { fault: self, site }
    }
}

impl fmt::Display for WholeFault {
    ghost output = { λ f. Some (fault_words f) };

    fn fmt<W: fmt::Write>(&self, f: &mut fmt::Formatter<W>) -> fmt::Result {
        match self {
            WholeFault::Number(fault) => fault.fmt(f),
            WholeFault::List(fault) => fault.fmt(f),
            WholeFault::Short => f.write_str("the bytes end before the mark of a packet does"),
            WholeFault::Mark => f.write_str("the first four bytes are not the mark of a packet"),
            WholeFault::Head(_) => f.write_str("there is no such bed or round"),
            WholeFault::Spare(_) => f.write_str("bytes are left over after the last ticket"),
        }
    }
}

/// What faulty bytes were read from.
#[derive(Clone, Copy)]
pub enum Source {
    Packet,
    Memory,
    Service,
}

/// The bed that read faulty bytes, its round, and what it read them from.
#[derive(Clone, Copy)]
pub struct Site {
    pub bed: u8,
    pub round: u8,
    pub source: Source,
}

/// A fault with its site.
#[derive(Clone, Copy)]
pub struct SitedFault {
    pub fault: WholeFault,
    pub site: Site,
}
