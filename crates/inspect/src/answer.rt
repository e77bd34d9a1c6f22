// What is printed for a line.
ghost use Rattle.codec.specs.Reading.{remaining};
ghost use Rattle.inspect.specs.Line.{asked};
ghost use Rattle.inspect.specs.Answer.{Prints, head_text, ticket_text, end_text, fault_text, refusal_text, parts_text, request_text, answer_to};

use super::fault::{LineError, LineFault};
use super::line::{Form, Request, read_line};
use codec::reader::{Head, Part, Reader};
use codec::report::Report;
use codec::ticket::Ticket;
use codec::whole::WholeFault;
use std::alloc::{AllocError, Global};

// Functions and no `Display`, here and below: heads, tickets and the faults of bytes are types of another crate, and an end and a refused
// line are no types of their own.
fn head_text(heap: Global, head: Head) -> Result<String, AllocError>
    ensures { Prints result (head_text head) }
{
    match head {
        Head::Batch { count } => format!(in heap; "head count {count}\n"),
        Head::Packet { bed, round, count } => format!(in heap;
            "head bed {bed} round {round} count {count}\n"
        ),
    }
}

fn ticket_text(heap: Global, offset: usize, ticket: Ticket) -> Result<String, AllocError>
    ensures { Prints result (ticket_text offset ticket) }
{
    let Ticket {
        paths,
        origin,
        number,
        sheet,
    } = ticket;
    format!(in heap;
        "ticket at {offset} paths {paths} origin {origin} number {number} sheet {sheet}\n"
    )
}

fn end_text(heap: Global, length: usize) -> Result<String, AllocError>
    ensures { Prints result (end_text length) }
{
    format!(in heap; "end at {length}\n")
}

fn fault_text(heap: Global, fault: WholeFault) -> Result<String, AllocError>
    ensures { Prints result (fault_text fault) }
{
    let Report {
        cause,
        place,
        layer,
    } = fault.report();
    let number = cause.number();
    format!(in heap; "fault cause {number} at {place} in {layer}: {fault}\n")
}

// The heap and the number go from function to function as they are: a struct of the two would be taken apart in each.
pub fn refusal_text(heap: Global, number: usize, fault: LineFault) -> Result<String, AllocError>
    ensures { Prints result (refusal_text number fault) }
{
    format!(in heap; "line {number}: {fault}\n")
}

// The parts that a reader has still to hand out, one to a line.
pub fn parts_text(heap: Global, reader: &mut Reader, length: usize) -> Result<String, AllocError>
    ensures { Prints result (parts_text length (remaining reader.old)) }
{
    let mut text = String::new(heap);
    loop {
        match reader.next() {
            Ok(Part::Head(head)) => {
                text.push_str(head_text(heap, head)?.as_str())?;
            }
            Ok(Part::Ticket { offset, ticket, .. }) => {
                text.push_str(ticket_text(heap, offset, ticket)?.as_str())?;
            }
            Ok(Part::End) => {
                text.push_str(end_text(heap, length)?.as_str())?;
                return Ok(text);
            }
            Err(fault) => {
                text.push_str(fault_text(heap, fault)?.as_str())?;
                return Ok(text);
            }
        }
    }
}

fn request_text(heap: Global, request: &Request) -> Result<String, AllocError>
    ensures { Prints result (request_text (asked request.now)) }
{
    let bytes = request.bytes.as_slice();
    let mut reader = match request.form {
        Form::Batch => Reader::batch(bytes, request.beds),
        Form::Packet => Reader::packet(bytes, request.beds),
    };
    parts_text(heap, &mut reader, bytes.len())
}

/// The answer to the line of this number: the parts of its bytes, or what is wrong with the line.
pub fn answer_line(heap: Global, number: usize, line: &[u8]) -> Result<String, AllocError>
    ensures { Prints result (answer_to number line.now) }
{
    match read_line(heap, line) {
        Ok(request) => request_text(heap, &request),
        Err(LineError::Fault(fault)) => refusal_text(heap, number, fault),
        Err(LineError::Memory(error)) => Err(error),
    }
}
