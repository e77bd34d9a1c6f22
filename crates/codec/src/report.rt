// What is said of faulty bytes: the cause, the place and the layer.
ghost use Rattle.std.specs.Prelude.{◌≡◌, Some};
ghost use Rattle.codec.specs.Report.{cause_number};
ghost use Rattle.codec.specs.Words.{layer_name};

use std::fmt;

/// What is wrong. The numbers are those of the documents.
#[derive(Clone, Copy)]
pub enum Cause {
    /// The bytes end inside a number, or where one is due.
    Ends = 1,
    /// A number is not in its shortest form, or goes on past its last byte.
    NotShortest = 2,
    /// A value or a count is out of its range.
    OutOfRange = 3,
    /// A ticket does not stand after the one before it.
    OutOfOrder = 4,
    /// An identity is repeated.
    Repeated = 5,
    /// Bytes are left over.
    Spare = 6,
    /// The first four bytes are not a packet's.
    Mark = 7,
}

impl Cause {
    // A method and no `From`, here and for every refusal: `cause.number()` says what the number is.
    pub fn number(self) -> u8
        ensures { result ≡ cause_number self }
    {
        self as u8
    }
}

/// Which part of the form has the fault.
#[derive(Clone, Copy)]
pub enum Layer {
    Number,
    Ticket,
    List,
    Whole,
}

impl fmt::Display for Layer {
    ghost output = { λ l. Some (layer_name l) };

    fn fmt<W: fmt::Write>(&self, f: &mut fmt::Formatter<W>) -> fmt::Result {
        f.write_str(match self {
            Layer::Number => "number",
            Layer::Ticket => "ticket",
            Layer::List => "list",
            Layer::Whole => "whole",
        })
    }
}

/// A fault as it is told: the place is an offset into the bytes.
#[derive(Clone, Copy)]
pub struct Report {
    pub cause: Cause,
    pub place: usize,
    pub layer: Layer,
}
