// What is wrong with a line of the input.
ghost use Rattle.std.specs.Prelude.{◌≡◌, Some};
ghost use Rattle.inspect.specs.Fault.{line_words};
ghost use Rattle.inspect.specs.declared.fault.LineError.TheVariants.{Fault, Memory};

use memory::chip::CELLS;
use memory::refusal::MemoryRefusal;
use std::alloc::{AllocError, AllocFailed};
use std::fmt;

/// Why a line cannot be read. An offset counts the characters of the line from 0.
#[derive(Clone, Copy)]
pub enum LineFault {
    Empty,
    /// The first character is neither `b`, `c` nor `p`.
    Letter,
    /// No space and digit follow the letter.
    NoBeds,
    /// The digit is not 1 to 8, or something else than a space follows it.
    Beds,
    /// The character at this offset is no hexadecimal digit.
    NotHex(usize),
    /// A pair of digits lacks its second, which was due at this offset.
    HalfPair(usize),
    /// No name of a file follows the number of beds.
    NoFile,
    /// The file cannot be read.
    Unread,
    /// The file has only so many bytes, fewer than a chip has cells.
    FewCells(usize),
}

impl fmt::Display for LineFault {
    ghost output = { λ f. Some (line_words f) };

    fn fmt<W: fmt::Write>(&self, f: &mut fmt::Formatter<W>) -> fmt::Result {
        match *self {
            LineFault::Empty => write!(f, "the line is empty"),
            LineFault::Letter => write!(f, "the line begins with neither b, c nor p"),
            LineFault::NoBeds => write!(f, "no space and number of beds follow the letter"),
            LineFault::Beds => write!(f, "the number of beds is not one digit, 1 to 8"),
            LineFault::NotHex(offset) => write!(
                f,
                "the character at offset {offset} is no hexadecimal digit"
            ),
            LineFault::HalfPair(offset) => write!(
                f,
                "a pair of digits lacks its second at offset {offset}"
            ),
            LineFault::NoFile => write!(f, "no name of a file follows the number of beds"),
            LineFault::Unread => write!(f, "the file cannot be read"),
            LineFault::FewCells(cells) => {
                let refusal = MemoryRefusal::Cells.number();
                write!(
                    f,
                    "refusal {refusal}, the file has {cells} cells and a chip has {CELLS}"
                )
            }
        }
    }
}

/// Why there is no request: the line is at fault, or no memory was left for its bytes.
#[derive(Clone, Copy)]
pub enum LineError {
    Fault(LineFault),
    Memory(AllocError),
}

// By hand, here and below: a derived conversion would not say what it gives.
impl From<LineFault> for LineError {
    ghost from_gives = { λ x y. y ≡ Fault x };

    fn from(fault: LineFault) -> LineError {
        LineError::Fault(fault)
    }
}

impl From<AllocFailed<u8>> for LineError {
    ghost from_gives = { λ _ y. y ≡ Memory (record {}) };

    fn from(refused: AllocFailed<u8>) -> LineError {
        LineError::Memory(refused.into())
    }
}
