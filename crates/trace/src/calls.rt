// Calls of any memory and any decision service, and what they answer.
use codec::limits::MAX_BEDS;
use decision::service::{DecisionService, PutAnswer};
use memory::limits::SLOTS;
use memory::memory::Memory;
use std::alloc::Global;
use std::fmt::{Display, Write};

/// One call of a memory.
// A value and no closure: it is read from the line before it is known which memory it is for.
#[derive(Drop)]
pub enum MemoryCall {
    Keep {
        bed: u32,
        slot: u32,
        bytes: Vec<u8>,
    },
    Torn {
        bed: u32,
        slot: u32,
        at: u32,
        junk: u8,
        bytes: Vec<u8>,
    },
    Read {
        bed: u32,
        slot: u32,
    },
    All,
}

/// The line of an answer, after the name of the call.
pub fn answer_text<T: Display>(heap: Global, name: &str, answer: &T) -> anyhow::Result<String> {
    Ok(format!(in heap; "{name} {answer}\n")?)
}

fn bytes_text(heap: Global, name: &str, bytes: &[u8]) -> anyhow::Result<String> {
    answer_text(heap, name, &hex::encode_upper(heap, bytes)?)
}

fn read_text<M: Memory>(heap: Global, memory: &M, bed: u32, slot: u32) -> anyhow::Result<String> {
    match memory.read(bed, slot) {
        Ok(Some(bytes)) => bytes_text(heap, "read", bytes),
        Ok(None) => answer_text(heap, "read", &"-"),
        Err(refusal) => answer_text(heap, "read", &refusal.number()),
    }
}

fn all_text<M: Memory>(heap: Global, memory: &M) -> anyhow::Result<String> {
    let mut text = String::new(heap);
    let mut full = 0u32;
    for bed in 0..u32::from(MAX_BEDS) {
        for slot in 0..SLOTS {
            if let Ok(Some(bytes)) = memory.read(bed, slot) {
                let held = hex::encode_upper(heap, bytes)?;
                write!(text, "{bed} {slot} {held}\n")?;
                full += 1;
            }
        }
    }
    write!(text, "all {full}\n")?;
    Ok(text)
}

/// Makes a call of a memory, and says what it answers.
pub fn memory_text<M: Memory>(
    heap: Global,
    memory: &mut M,
    call: &MemoryCall,
) -> anyhow::Result<String> {
    match call {
        MemoryCall::Keep { bed, slot, bytes } => {
            let number = match memory.keep(*bed, *slot, bytes.as_slice()) {
                // What the line of an accepted keep prints.
                Ok(()) => 0,
                Err(refusal) => refusal.number(),
            };
            answer_text(heap, "keep", &number)
        }
        MemoryCall::Torn {
            bed,
            slot,
            at,
            junk,
            bytes,
        } => {
            memory.torn_keep(*bed, *slot, bytes.as_slice(), *at, *junk);
            Ok(String::new(heap))
        }
        MemoryCall::Read { bed, slot } => read_text(heap, memory, *bed, *slot),
        MemoryCall::All => all_text(heap, memory),
    }
}

/// Puts a proposal, and says what the service answers.
pub fn put_text<S: DecisionService>(
    heap: Global,
    service: &mut S,
    bed: u32,
    round: u32,
    bytes: &[u8],
) -> anyhow::Result<String> {
    match service.put(bed, round, bytes) {
        Ok(PutAnswer::Taken) => answer_text(heap, "put", &"taken"),
        Ok(PutAnswer::Had) => answer_text(heap, "put", &"had"),
        Err(refusal) => answer_text(heap, "put", &refusal.number()),
    }
}

/// Polls a round, and says what the service answers.
pub fn poll_text<S: DecisionService>(
    heap: Global,
    service: &mut S,
    round: u32,
) -> anyhow::Result<String> {
    match service.poll(round) {
        Ok(value) => bytes_text(heap, "poll", value.as_slice()),
        Err(refusal) => answer_text(heap, "poll", &refusal.number()),
    }
}
