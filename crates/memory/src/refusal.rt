// Why a memory refuses.
ghost use Rattle.std.specs.Prelude.{◌≡◌};
ghost use Rattle.memory.specs.Refusal.{refusal_number};

/// Why a memory refuses. What it holds is then as it was. The numbers are those of the documents.
#[derive(Clone, Copy)]
pub enum MemoryRefusal {
    /// Fewer cells than a chip has.
    Cells = 16,
    /// No such bed or slot, or a length outside 1 to 65.
    Limits = 17,
    /// The slot holds other bytes.
    Differs = 18,
}

impl MemoryRefusal {
    pub fn number(self) -> u8
        ensures { result ≡ refusal_number self }
    {
        self as u8
    }
}
