// A line of the input, `b N HEX` or `p N HEX`: a batch or a packet, read for a group of N beds.
ghost use Rattle.std.specs.Prelude.{◌≡◌};
ghost use Rattle.codec.specs.Chain.{map_ok};
ghost use Rattle.inspect.specs.Fault.{Reads};
ghost use Rattle.inspect.specs.Grammar.{ByGrammar};
ghost use Rattle.inspect.specs.Line.{form_of, beds_of, asked, request_of};

use super::fault::{LineError, LineFault};
use super::hex::read_hex;
use codec::beds::Beds;
use std::alloc::Global;

// Where the pairs of digits may begin: after the letter, a space and the number of beds.
const HEX_START: usize = 3;

/// What the bytes are to be read as.
// A name and no reader: what a line asks for is stated before its bytes are read.
#[derive(Clone, Copy)]
pub enum Form {
    Batch,
    Packet,
}

/// What a line asks to have read.
#[derive(Drop)]
pub struct Request {
    pub form: Form,
    pub beds: Beds,
    pub bytes: Vec<u8>,
}

fn read_form(line: &[u8]) -> Result<Form, LineFault>
    ensures { result ≡ form_of line.now }
{
    match line {
        [] => Err(LineFault::Empty),
        [b'b', ..] => Ok(Form::Batch),
        [b'p', ..] => Ok(Form::Packet),
        _ => Err(LineFault::Letter),
    }
}

// The number of beds, after the letter and a space, and with nothing or a space behind it.
pub fn read_beds(line: &[u8]) -> Result<Beds, LineFault>
    ensures { map_ok (λ b. b.count) result ≡ beds_of line.now }
{
    let [_, b' ', digit @ b'0'..=b'9', rest @ ..] = line else {
        return Err(LineFault::NoBeds);
    };
    match rest {
        [] | [b' ', ..] => Beds::new(u32::from(*digit - b'0')).ok_or(LineFault::Beds),
        _ => Err(LineFault::Beds),
    }
}

/// What the line asks for.
#[tactic(auto, using(crate::proofs::Grammars::by_grammar, crate::proofs::Grammars::asks_back))]
pub fn read_line(heap: Global, line: &[u8]) -> Result<Request, LineError>
    ensures value { Reads asked result (request_of line.now) }
    ensures grammar { ByGrammar result line.now }
{
    let form = read_form(line)?;
    let beds = read_beds(line)?;
    let bytes = read_hex(heap, line, HEX_START)?;
    Ok(Request { form, beds, bytes })
}
