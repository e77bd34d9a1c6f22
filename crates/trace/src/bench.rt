// The memory and the service that the lines are about.
use super::calls::{MemoryCall, answer_text, memory_text, poll_text, put_text};
use super::line::{Words, number};
use anyhow::bail;
use decision::first_comer::FirstComer;
use decision::majority::Majority;
use decision::refusal::DecisionRefusal;
use memory::chip::{CELLS, Chip};
use memory::table::Table;
use std::alloc::{AllocError, Global};

// On the heap, as the services: what is taken into use is moved into its place, and a pointer is moved in no time.
#[derive(Drop)]
enum BenchMemory {
    Table(Box<Table>),
    /// The cells of a chip.
    Chip(Box<[u8; CELLS]>),
}

impl BenchMemory {
    // Out of line, here and below: a function clears its stack where it begins, and no other line is to pay for a new memory or service.
    #[inline(never)]
    fn table(heap: Global) -> Result<BenchMemory, AllocError> {
        Ok(BenchMemory::Table(Box::new(heap, Table::new())?))
    }

    #[inline(never)]
    fn chip(heap: Global) -> Result<BenchMemory, AllocError> {
        Ok(BenchMemory::Chip(Box::new(heap, [0; CELLS])?))
    }

    fn call(&mut self, heap: Global, call: &MemoryCall) -> anyhow::Result<String> {
        match self {
            BenchMemory::Table(table) => memory_text(heap, &mut **table, call),
            BenchMemory::Chip(cells) => memory_text(heap, &mut Chip::new(&mut **cells), call),
        }
    }

    // Sets a cell of a chip. A table has none.
    fn set_cell(&mut self, cell: u32, value: u8) {
        if let BenchMemory::Chip(cells) = self {
            if let Some(place) = cells.get_mut(cell as usize) {
                *place = value;
            }
        }
    }
}

#[derive(Drop)]
enum BenchService {
    First(Box<FirstComer>),
    Majority(Box<Majority>),
}

impl BenchService {
    // A refusal is the answer of the line, and want of memory the end of the program: so the one lies within the other.
    #[inline(never)]
    fn first(heap: Global, beds: u32) -> Result<Result<BenchService, DecisionRefusal>, AllocError> {
        match FirstComer::new(beds) {
            Ok(service) => Ok(Ok(BenchService::First(Box::new(heap, service)?))),
            Err(refusal) => Ok(Err(refusal)),
        }
    }

    #[inline(never)]
    fn majority(
        heap: Global,
        beds: u32,
    ) -> Result<Result<BenchService, DecisionRefusal>, AllocError> {
        match Majority::new(beds) {
            Ok(service) => Ok(Ok(BenchService::Majority(Box::new(heap, service)?))),
            Err(refusal) => Ok(Err(refusal)),
        }
    }

    fn put(&mut self, heap: Global, bed: u32, round: u32, bytes: &[u8]) -> anyhow::Result<String> {
        match self {
            BenchService::First(service) => put_text(heap, &mut **service, bed, round, bytes),
            BenchService::Majority(service) => put_text(heap, &mut **service, bed, round, bytes),
        }
    }

    fn poll(&mut self, heap: Global, round: u32) -> anyhow::Result<String> {
        match self {
            BenchService::First(service) => poll_text(heap, &mut **service, round),
            BenchService::Majority(service) => poll_text(heap, &mut **service, round),
        }
    }
}

/// The memory and the service in use.
#[derive(Drop)]
pub struct Bench {
    memory: BenchMemory,
    service: BenchService,
}

impl Bench {
    /// A table, and a first-comer service for one bed.
    pub fn new(heap: Global) -> Result<Bench, AllocError> {
        Ok(Bench {
            memory: BenchMemory::table(heap)?,
            service: BenchService::First(Box::new(heap, FirstComer::new(1).unwrap())?),
        })
    }

    // Takes a new service into use, unless it was refused. The line prints 0, or the number of the refusal.
    fn begin(
        &mut self,
        heap: Global,
        name: &str,
        service: Result<BenchService, DecisionRefusal>,
    ) -> anyhow::Result<String> {
        let number = match service {
            Ok(service) => {
                self.service = service;
                0
            }
            Err(refusal) => refusal.number(),
        };
        answer_text(heap, name, &number)
    }

    // What a line about the memory prints.
    fn memory_line(
        &mut self,
        heap: Global,
        name: &str,
        mut words: Words,
    ) -> anyhow::Result<String> {
        let call = match name {
            "keep" => MemoryCall::Keep {
                bed: words.number()?,
                slot: words.number()?,
                bytes: words.bytes(heap)?,
            },
            "torn" => {
                let (bed, slot, at) = (words.word(), words.word(), words.word());
                // The junk is tested before the words that stand before it.
                let junk = words.byte()?;
                MemoryCall::Torn {
                    bed: number(bed)?,
                    slot: number(slot)?,
                    at: number(at)?,
                    junk,
                    bytes: words.bytes(heap)?,
                }
            }
            "read" => MemoryCall::Read {
                bed: words.number()?,
                slot: words.number()?,
            },
            "all" => MemoryCall::All,
            _ => bail!("no such call"),
        };
        self.memory.call(heap, &call)
    }

    /// What a line prints.
    pub fn answer(&mut self, heap: Global, line: &str) -> anyhow::Result<String> {
        let mut words = Words::new(line);
        let name = words.name();
        match name {
            "table" => {
                self.memory = BenchMemory::table(heap)?;
                Ok(format!(in heap; "table\n")?)
            }
            "chip" => {
                self.memory = BenchMemory::chip(heap)?;
                Ok(format!(in heap; "chip\n")?)
            }
            "cell" => {
                self.memory.set_cell(words.number()?, words.byte()?);
                Ok(String::new(heap))
            }
            "first" => self.begin(heap, name, BenchService::first(heap, words.number()?)?),
            "majority" => self.begin(heap, name, BenchService::majority(heap, words.number()?)?),
            "put" => {
                let (bed, round) = (words.word(), words.word());
                // The bytes are tested before the words that stand before them.
                let bytes = words.bytes(heap)?;
                self.service
                    .put(heap, number(bed)?, number(round)?, bytes.as_slice())
            }
            "poll" => self.service.poll(heap, words.number()?),
            _ => self.memory_line(heap, name, words),
        }
    }
}
