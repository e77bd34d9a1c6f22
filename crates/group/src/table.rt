// The inner table of a group: eight bed records, and how many of them the group has.
ghost use Rattle.std.specs.Prelude.{◌≡◌, ◌<◌, length};
ghost use Rattle.std.specs.List.{AllByRecursion};
ghost use Rattle.codec.specs.Limits.{max_beds};
ghost use Rattle.group.specs.Calls.{ticket_of};
ghost use Rattle.group.specs.Record.{BedSound, MakesTicket};

use super::bed::{BedRecord, Event, Phase};
use super::call::Heard;
use super::proposal::{Proposal, Turn};
use super::question::{Standing, State};
use super::refusal::{Refusal, sited};
use codec::beds::Beds;
use codec::limits::{BATCH_TICKETS, MAX_BEDS, MAX_NUMBER, MAX_PATHS, MAX_SHEET, MIN_NUMBER};
use codec::packet::{read_packet, write_packet};
use codec::ticket::Ticket;
use codec::value::Value;
use codec::whole::{Site, Source};
use decision::limits::ROUNDS;

/// The beds of a group. Those past its size are never used.
// An array and its size, since each call changes one record in place, and every packet is read by the size, which has its own type.
#[derive(Drop)]
pub struct Table {
    beds: [BedRecord; MAX_BEDS as usize],
    size: Beds,
    ghost room: { length beds ≡ max_beds },
    ghost sound: { ∥ AllByRecursion (BedSound size.count) beds ∥₁ },
}

impl Table {
    ghost use Rattle.std.specs.Prelude.{◌≡◌, ◌<◌, ◌≤◌, ◌⊎◌, length, replicate, slice_index_or, slice_set};
    ghost use Rattle.codec.specs.Chain.{map_ok};
    ghost use Rattle.memory.specs.Meaning.{Slots};
    ghost use Rattle.decision.specs.Meaning.{Board};
    ghost use Rattle.decision.specs.Limits.{round_count};
    ghost use Rattle.group.specs.World.{off_bed};
    ghost use Rattle.codec.specs.Limits.{batch_tickets};
    ghost use Rattle.group.specs.Calls.{OffDoes, SubmitDoes, SendDoes, sent_answer, BufferAfter, HearDoes, waiting_now, collected};
    ghost use Rattle.group.specs.Questions.{state_answer, ticket_answer, redeem_answer};
    ghost use Rattle.group.specs.Record.{BedSound, bed_of};
    ghost use Rattle.group.specs.Start.{MakesStart};
    ghost use Rattle.group.specs.Proposal.{MakesProposal, MakesTurn};
    ghost use Rattle.group.specs.declared.bed.Phase.TheVariants.{Waiting};
    ghost use Rattle.group.specs.declared.bed.Event.TheVariants.{Propose, Trip};
    ghost use Rattle.group.specs.Table.{beds_of, world_of, record_of, admission};
    ghost use Rattle.group.specs.declared.call.Reply.TheVariants.{Done, Submitted, Heard as HeardReply};

    // Every bed off.
    pub(crate) fn new(size: Beds) -> Table
        ensures { beds_of result ≡ replicate size.count off_bed }
    {
        Table {
            beds: [BedRecord::off(); MAX_BEDS as usize],
            size,
        }
    }

    // Where the record of a bed stands and what its phase is after an event, or why the event is not admitted.
    fn admit(&self, bed: u32, event: Event) -> Result<(usize, Phase), Refusal>
        ensures { result ≡ admission self.now bed event }
    {
        if bed >= u32::from(self.size.count()) {
            return Err(Refusal::NoBed);
        }
        let index = bed as usize;
        let next = self.beds[index].phase.after(event)?;
        Ok((index, next))
    }

    pub(crate) fn state(&self, bed: u32) -> Result<State, Refusal>
        ensures { (kept : Slots) (board : Board) → result ≡ state_answer (world_of self.now kept board) bed }
    {
        if bed >= u32::from(self.size.count()) {
            return Err(Refusal::NoBed);
        }
        Ok(self.beds[bed as usize].state())
    }

    pub(crate) fn ticket(&self, bed: u32, place: u32) -> Result<Ticket, Refusal>
        ensures { (kept : Slots) (board : Board) → result ≡ ticket_answer (world_of self.now kept board) bed place }
    {
        let (index, _) = self.admit(bed, Event::Use)?;
        self.beds[index]
            .queue
            .get(place as usize)
            .ok_or(Refusal::Place)
    }

    // Where a ticket stands at the bed that took it.
    pub(crate) fn standing(&self, ticket: &Ticket) -> Result<Standing, Refusal>
        ensures { (kept : Slots) (board : Board) → result ≡ redeem_answer (world_of self.now kept board) ticket.now }
    {
        let (index, _) = self.admit(u32::from(ticket.origin), Event::Use)?;
        Ok(self.beds[index].standing(ticket))
    }

    pub(crate) fn off(&mut self, bed: u32) -> Result<(), Refusal>
        ensures { (kept : Slots) (board : Board) → OffDoes (world_of self.old kept board) bed (map_ok (λ _. Done) result) (world_of self.new kept board) }
    {
        let (index, _) = self.admit(bed, Event::Off)?;
        self.beds[index] = BedRecord::off();
        Ok(())
    }

    pub(crate) fn submit(
        &mut self,
        bed: u32,
        number: u32,
        paths: u32,
        sheet: u32,
    ) -> Result<Ticket, Refusal>
        ensures { (kept : Slots) (board : Board) → SubmitDoes (world_of self.old kept board) bed number paths sheet (map_ok Submitted result) (world_of self.new kept board) }
    {
        let (index, _) = self.admit(bed, Event::Use)?;
        let ticket = new_ticket(bed, number, paths, sheet)?;
        self.beds[index].take_in(ticket)?;
        Ok(ticket)
    }

    pub(crate) fn send(&self, bed: u32, out: &mut [u8]) -> Result<usize, Refusal>
        ensures does { (kept : Slots) (board : Board) → SendDoes (world_of self.now kept board) bed (length out.old) (sent_answer result out.new) (world_of self.now kept board) }
        ensures buffer { BufferAfter result out.old out.new }
    {
        let (index, _) = self.admit(bed, Event::Use)?;
        let own = &self.beds[index];
        // A bed's packet has a form, since its set is sound: only the room can be missing.
        write_packet(out, bed as u8, own.round, own.waiting.as_slice(), self.size).map_err(
            |_| Refusal::NoRoom,
        )
    }

    pub(crate) fn hear(&mut self, bed: u32, bytes: &[u8]) -> Result<Heard, Refusal>
        ensures { (kept : Slots) (board : Board) → HearDoes (world_of self.old kept board) bed bytes.now (map_ok HeardReply result) (world_of self.new kept board) }
    {
        let (index, _) = self.admit(bed, Event::Use)?;
        let site = Site {
            bed: bed as u8,
            round: self.beds[index].round,
            source: Source::Packet,
        };
        let packet = sited(read_packet(bytes, self.size), site)?;
        let own = &mut self.beds[index];
        own.hear_round(packet.round);
        Ok(own.hear_tickets(packet.tickets.as_slice()))
    }

    // What a bed would keep and propose now, or why it does not propose.
    pub(crate) fn proposal(&self, bed: u32, event: Event) -> Result<Proposal, Refusal>
        requires { (event ≡ Propose) ⊎ (event ≡ Trip) }
        ensures { MakesProposal self.now bed result }
    {
        let (index, _) = self.admit(bed, event)?;
        let own = &self.beds[index];
        if own.round >= ROUNDS as u8 {
            return Err(Refusal::LastRound);
        }
        if own.is_content() {
            return Err(Refusal::Nothing);
        }
        let Ok(batch) = Value::of_batch(own.waiting.first(BATCH_TICKETS), self.size) else {
            unreachable!()
        };
        let turn = Turn {
            index,
            round: u32::from(own.round),
        };
        Ok(Proposal { turn, batch })
    }

    // The bed has proposed, and waits.
    pub(crate) fn wait(&mut self, index: usize)
        requires low { index < self.old.size.count }
        requires left { (record_of self.old index).round < round_count }
        ensures beds { beds_of self.new ≡ slice_set (beds_of self.old) index (waiting_now (slice_index_or (beds_of self.old) index off_bed)) }
    {
        self.beds[index].phase = Phase::Waiting;
    }

    // The bed has lost its power.
    pub(crate) fn cut(&mut self, index: usize)
        requires { index < self.old.size.count }
        ensures { beds_of self.new ≡ slice_set (beds_of self.old) index off_bed }
    {
        self.beds[index] = BedRecord::off();
    }

    pub(crate) fn size(&self) -> Beds
        ensures { result ≡ self.now.size }
    {
        self.size
    }

    // The round that a waiting bed collects for, or why it does not collect.
    pub(crate) fn turn(&self, bed: u32) -> Result<Turn, Refusal>
        ensures { MakesTurn self.now bed result }
    {
        let (index, _) = self.admit(bed, Event::Collect)?;
        Ok(Turn {
            index,
            round: u32::from(self.beds[index].round),
        })
    }

    // A decided batch for a waiting bed.
    pub(crate) fn collect(&mut self, index: usize, batch: &[Ticket])
        requires low { index < self.old.size.count }
        requires waits { (record_of self.old index).phase ≡ Waiting }
        requires few { length batch.now ≤ batch_tickets }
        ensures { beds_of self.new ≡ slice_set (beds_of self.old) index (collected (slice_index_or (beds_of self.old) index off_bed) batch.now) }
    {
        self.beds[index].collect(batch);
    }

    // Where the record of a bed stands that is off, or why it does not start.
    pub(crate) fn startable(&self, bed: u32) -> Result<usize, Refusal>
        ensures { MakesStart self.now bed result }
    {
        let (index, _) = self.admit(bed, Event::Start)?;
        Ok(index)
    }

    // A bed that has been through its start.
    pub(crate) fn enter(&mut self, index: usize, own: BedRecord)
        requires low { index < self.old.size.count }
        requires sound { BedSound self.old.size.count own }
        ensures { beds_of self.new ≡ slice_set (beds_of self.old) index (bed_of own) }
    {
        self.beds[index] = own;
    }
}

// The ticket of a bed, if its fields are in their ranges.
fn new_ticket(bed: u32, number: u32, paths: u32, sheet: u32) -> Result<Ticket, Refusal>
    requires { bed < max_beds }
    ensures { MakesTicket (ticket_of bed number paths sheet) result }
{
    if number < MIN_NUMBER || number > MAX_NUMBER || paths > MAX_PATHS || sheet > MAX_SHEET {
        return Err(Refusal::Field);
    }
    Ok(Ticket {
        paths,
        origin: bed as u8,
        number: number as u16,
        sheet: sheet as u8,
    })
}
