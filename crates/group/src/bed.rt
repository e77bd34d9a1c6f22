// What one bed holds while it has power, and which calls it admits.
ghost use Rattle.std.specs.Prelude.{◌≡◌, ℕ, ◌+◌, ◌<◌, ◌≤◌, [], length, Decides};
ghost use Rattle.group.specs.World.{off_bed};
ghost use Rattle.decision.specs.Limits.{round_count};
ghost use Rattle.group.specs.Calls.{later_of, NoReason};
ghost use Rattle.group.specs.Limits.{set_tickets, queue_tickets};
ghost use Rattle.group.specs.Replay.{started};
ghost use Rattle.group.specs.Start.{StartSound};
ghost use Rattle.group.specs.Record.{queued_in, bed_of, BedSound, TakesIn, HearsOne, HearsAll, with_heard, CollectsBatch};
ghost use Rattle.group.specs.Questions.{state_of, standing_at};
ghost use Rattle.group.specs.Admission.{admitted};

use super::call::Heard;
use super::question::{Standing, State};
use super::queue::Queue;
use super::refusal::Refusal;
use super::waiting_set::WaitingSet;
use codec::fixed_vec::Full;
use codec::ticket::Ticket;

/// A bed is off, or it is running: idle between rounds, or waiting for the decision of its round.
#[derive(Clone, Copy)]
pub enum Phase {
    Off,
    Idle,
    Waiting,
}

/// What a call asks of a bed.
// One half of a table, phase by event (`Phase::after`), and no switch on which step to run.
#[derive(Clone, Copy)]
pub(crate) enum Event {
    Start,
    /// A call that leaves the phase as it is: submit, send, hear, ticket, redeem.
    Use,
    Propose,
    Trip,
    Collect,
    Off,
}

/// One bed. All of it is lost when the bed is switched off.
#[derive(Clone, Copy)]
pub struct BedRecord {
    pub(crate) phase: Phase,
    // The rounds below this one are in the queue.
    pub(crate) round: u8,
    // The highest round above its own that another bed told of, or 0. No round is below 0, so one comparison does for both.
    pub(crate) heard: u8,
    pub(crate) waiting: WaitingSet,
    pub(crate) queue: Queue,
}

impl BedRecord {
    // A bed before its first round, with nothing in its set and its queue.
    fn new(phase: Phase) -> BedRecord
        ensures { bed_of result ≡ started phase 0 [] }
    {
        BedRecord {
            phase,
            round: 0,
            heard: 0,
            waiting: WaitingSet::new(),
            queue: Queue::new(),
        }
    }

    // A bed without power. An empty record and no `None`: the law shows an off bed so, and its place in the table stays.
    pub(crate) fn off() -> BedRecord
        ensures bed { bed_of result ≡ off_bed }
        ensures sound { (n : ℕ) → BedSound n result }
    {
        BedRecord::new(Phase::Off)
    }

    // A bed that has just got power.
    pub(crate) fn fresh() -> BedRecord
        ensures sound { StartSound result }
        ensures round { result.round ≡ 0 }
        ensures queue { queued_in result.queue ≡ [] }
    {
        BedRecord::new(Phase::Idle)
    }

    // A new ticket for the set.
    pub(crate) fn take_in(&mut self, ticket: Ticket) -> Result<(), Refusal>
        ensures takes { TakesIn ticket self.old result self.new }
    {
        if self.waiting.knows(&ticket) || self.queue.knows(&ticket) {
            return Err(Refusal::Known);
        }
        self.waiting.insert(ticket).map_err(|_| Refusal::SetFull)
    }
}

impl BedRecord {
    // A decided batch comes into the queue, and the round is over.
    pub(crate) fn collect(&mut self, batch: &[Ticket])
        requires queue { length (queued_in self.old.queue) + length batch.now ≤ queue_tickets }
        requires left { self.old.round < round_count }
        ensures collects { CollectsBatch batch.now self.old self.new }
    {
        self.queue.append(batch);
        self.waiting.leave(&self.queue);
        self.round += 1;
        self.phase = Phase::Idle;
    }
}

impl BedRecord {
    // How the bed stands.
    pub(crate) fn state(&self) -> State
        ensures { result ≡ state_of (bed_of self.now) }
    {
        match self.phase {
            Phase::Off => State {
                phase: Phase::Off,
                round: 0,
                waiting: 0,
                queued: 0,
            },
            Phase::Idle | Phase::Waiting => State {
                phase: self.phase,
                round: self.round,
                waiting: self.waiting.as_slice().len() as u8,
                queued: self.queue.len() as u16,
            },
        }
    }

    // Where a ticket stands.
    pub(crate) fn standing(&self, ticket: &Ticket) -> Standing
        ensures { result ≡ standing_at (bed_of self.now) ticket.now }
    {
        if let Some(place) = self.queue.place_of(ticket) {
            return Standing::Queued(place as u16);
        }
        if self.waiting.knows(ticket) {
            Standing::Waiting
        } else {
            Standing::Unknown
        }
    }

    // Whether there is no reason to propose: no ticket waits, and no later round was heard of.
    pub(crate) fn is_content(&self) -> bool
        ensures { Decides result (NoReason (bed_of self.now)) }
    {
        self.waiting.is_empty() && self.heard <= self.round
    }

    // One ticket of a packet: a known identity is skipped, another is taken while there is room.
    fn hear_one(&mut self, ticket: &Ticket, heard: Heard) -> Heard
        requires count { heard.taken + heard.full < set_tickets }
        ensures hears { HearsOne ticket.now heard self.old result self.new }
    {
        if self.waiting.knows(ticket) || self.queue.knows(ticket) {
            return heard;
        }
        match self.waiting.insert(*ticket) {
            Ok(()) => Heard {
                taken: heard.taken + 1,
                ..heard
            },
            Err(Full) => Heard {
                full: heard.full + 1,
                ..heard
            },
        }
    }

    // The tickets of a packet, in their order.
    pub(crate) fn hear_tickets(&mut self, tickets: &[Ticket]) -> Heard
        requires { length tickets.now ≤ set_tickets }
        ensures hears { HearsAll tickets.now self.old result self.new }
    {
        let mut heard = Heard { taken: 0, full: 0 };
        for ticket in tickets {
            heard = self.hear_one(ticket, heard);
        }
        heard
    }

    // A later round than its own, and than any that it heard of before, is remembered.
    pub(crate) fn hear_round(&mut self, round: u8)
        ensures { self.new ≡ with_heard self.old (later_of self.old.round self.old.heard round) }
    {
        if round > self.round && round > self.heard {
            self.heard = round;
        }
    }
}

impl Phase {
    // The phase after an event, or why a bed in this phase does not admit it.
    pub(crate) fn after(self, event: Event) -> Result<Phase, Refusal>
        ensures { result ≡ admitted self event }
    {
        match (self, event) {
            (Phase::Off, Event::Start) => Ok(Phase::Idle),
            (Phase::Off, _) => Err(Refusal::BedOff),
            (_, Event::Start) => Err(Refusal::Running),
            (phase, Event::Use) => Ok(phase),
            (Phase::Idle, Event::Propose) => Ok(Phase::Waiting),
            (Phase::Idle, Event::Trip) => Ok(Phase::Off),
            (Phase::Idle, Event::Collect) => Err(Refusal::Idle),
            (Phase::Waiting, Event::Propose) => Err(Refusal::Waiting),
            (Phase::Waiting, Event::Trip) => Err(Refusal::Waiting),
            (Phase::Waiting, Event::Collect) => Ok(Phase::Idle),
            (_, Event::Off) => Ok(Phase::Off),
        }
    }
}
