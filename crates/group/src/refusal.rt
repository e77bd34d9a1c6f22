// Why a group refuses a call.
ghost use Rattle.std.specs.Prelude.{◌≡◌};
ghost use Rattle.codec.specs.Chain.{raise};
ghost use Rattle.group.specs.Refusal.{refusal_number};
ghost use Rattle.group.specs.declared.refusal.Refusal.TheVariants.{Faulty, Memory, Service};

use codec::whole::{Site, SitedFault, WholeFault};
use decision::refusal::DecisionRefusal;
use memory::refusal::MemoryRefusal;

/// Why a call was refused. The docs say what then stands.
#[derive(Clone, Copy)]
pub enum Refusal {
    /// The group has no such bed.
    NoBed,
    /// The bed is off.
    BedOff,
    /// The bed is running.
    Running,
    /// A field of the ticket is out of its range.
    Field,
    /// The bed knows a ticket of this identity.
    Known,
    /// The waiting set is full.
    SetFull,
    /// The buffer is shorter than the packet.
    NoRoom,
    /// Kept, decided or heard bytes are faulty.
    Faulty(SitedFault),
    /// The bed is waiting for a decision.
    Waiting,
    /// The bed has been through all rounds.
    LastRound,
    /// The bed has no ticket to propose, and has heard of no later round.
    Nothing,
    /// The bed is idle: it has no proposal to collect for.
    Idle,
    /// The queue ends before this place.
    Place,
    /// The memory refused.
    Memory(MemoryRefusal),
    /// The decision service refused.
    Service(DecisionRefusal),
}

// By hand, here and below: a derived conversion would not say what it gives.
impl From<SitedFault> for Refusal {
    ghost from_gives = { λ x y. y ≡ Faulty x };

    fn from(fault: SitedFault) -> Refusal {
        Refusal::Faulty(fault)
    }
}

impl From<MemoryRefusal> for Refusal {
    ghost from_gives = { λ x y. y ≡ Memory x };

    fn from(memory: MemoryRefusal) -> Refusal {
        Refusal::Memory(memory)
    }
}

impl From<DecisionRefusal> for Refusal {
    ghost from_gives = { λ x y. y ≡ Service x };

    fn from(service: DecisionRefusal) -> Refusal {
        Refusal::Service(service)
    }
}

impl Refusal {
    /// The number that documents give it.
    // By a match, since a case that carries the refusal of another crate has no number of its own.
    pub fn number(self) -> u8
        ensures { result ≡ refusal_number self }
    {
        match self {
            Refusal::NoBed => 2,
            Refusal::BedOff => 3,
            Refusal::Running => 4,
            Refusal::Field => 5,
            Refusal::Known => 6,
            Refusal::SetFull => 7,
            Refusal::NoRoom => 8,
            Refusal::Faulty(_) => 9,
            Refusal::Waiting => 10,
            Refusal::LastRound => 11,
            Refusal::Nothing => 12,
            Refusal::Idle => 13,
            Refusal::Place => 15,
            Refusal::Memory(refusal) => refusal.number(),
            Refusal::Service(refusal) => refusal.number(),
        }
    }
}

// What was read, or its fault with the bed that read it, the bed's round and what it read from. Each reader makes its own site: a function
// that took all four with the bytes would be no shorter to call.
pub(crate) fn sited<T>(read: Result<T, WholeFault>, site: Site) -> Result<T, SitedFault>
    ensures { result ≡ raise (λ f. record { fault = f; site = site }) read }
{
    read.map_err(|fault| fault.at(site))
}
