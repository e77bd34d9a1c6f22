// A group of beds, over any memory and any decision service.
ghost use Rattle.std.specs.Prelude.{◌≡◌, ◌<◌, length};
ghost use Rattle.codec.specs.Chain.{map_ok};
ghost use Rattle.group.specs.Calls.{ProposeDoes, TripDoes, CollectDoes, StartDoes, OffDoes, SubmitDoes, SendDoes, sent_answer, BufferAfter, HearDoes, Does};
ghost use Rattle.group.specs.Questions.{state_answer, ticket_answer, redeem_answer, redeemed};
ghost use Rattle.group.specs.declared.receipt.Receipt.{Receipt};
ghost use Rattle.group.specs.Start.{StartSound, ReplaysRound};
ghost use Rattle.decision.specs.Meaning.{New as NewBoard};
ghost use Rattle.group.specs.History.{New};
ghost use Rattle.group.specs.Row.{shows, made, Empty, Runs};
ghost use Rattle.group.specs.declared.call.Reply.TheVariants.{Done, Submitted, Sent, Heard as HeardReply};

use super::bed::{BedRecord, Event, Phase};
use super::call::{Call, Heard, Reply, SentPacket};
use super::proposal::Replayed;
use super::question::{Standing, State};
use super::receipt::{Receipt, Redeemed, Unredeemed};
use super::refusal::{Refusal, sited};
use super::table::Table;
use codec::batch::read_batch;
use codec::fixed_vec::FixedVec;
use codec::limits::MAX_PACKET_BYTES;
use codec::ticket::Ticket;
use codec::whole::{Site, Source};
use decision::limits::ROUNDS;
use decision::service::DecisionService;
use memory::memory::Memory;

/// The beds of a group, what they keep, and what makes them agree.
pub(crate) struct Row<M, S> {
    memory: M,
    service: S,
    table: Table,
}

impl<M: Memory, S: DecisionService> Row<M, S> {
    // A group of as many beds as the service has, all of them off.
    fn new(memory: M, service: S) -> Row<M, S>
        ensures parts { (result.memory ≡ memory) × (result.service ≡ service) }
        ensures shown { shows M.holds S.board result ≡ made (M.holds memory) (S.board service) }
        ensures new { Empty (M.holds memory) → NewBoard (S.board service).beds (S.board service) → New (shows M.holds S.board result) }
    {
        let table = Table::new(service.beds());
        Row {
            memory,
            service,
            table,
        }
    }

    // The batch is kept first and put then, so that whatever the service holds of a bed its memory holds too.
    fn propose(&mut self, bed: u32) -> Result<(), Refusal>
        ensures { ProposeDoes (shows M.holds S.board self.old) bed (map_ok (λ _. Done) result) (shows M.holds S.board self.new) }
    {
        let proposal = self.table.proposal(bed, Event::Propose)?;
        let bytes = proposal.batch.as_slice();
        self.memory.keep(bed, proposal.turn.round, bytes)?;
        // Taken or had, the bed's proposal now stands.
        let _ = self.service.put(bed, proposal.turn.round, bytes);
        self.table.wait(proposal.turn.index);
        Ok(())
    }

    // A propose during which power fails after `at` finished cells of the keep; the cell then under way holds `junk`.
    fn trip(&mut self, bed: u32, at: u32, junk: u8) -> Result<(), Refusal>
        ensures { TripDoes M.named (shows M.holds S.board self.old) bed at (map_ok (λ _. Done) result) (shows M.holds S.board self.new) }
    {
        let proposal = self.table.proposal(bed, Event::Trip)?;
        let bytes = proposal.batch.as_slice();
        self.memory
            .torn_keep(bed, proposal.turn.round, bytes, at, junk);
        self.table.cut(proposal.turn.index);
        Ok(())
    }

    // The decision of the bed's round, whosever batch it is.
    fn collect(&mut self, bed: u32) -> Result<(), Refusal>
        ensures { CollectDoes (shows M.holds S.board self.old) bed (map_ok (λ _. Done) result) (shows M.holds S.board self.new) }
    {
        let turn = self.table.turn(bed)?;
        let decision = self.service.poll(turn.round)?;
        let site = Site {
            bed: bed as u8,
            round: turn.round as u8,
            source: Source::Service,
        };
        let batch = sited(read_batch(decision.as_slice(), self.table.size()), site)?;
        self.table.collect(turn.index, batch.as_slice());
        Ok(())
    }

    // One round of a start: what the bed kept in it is put again, and what was decided comes into the queue.
    fn replay(&mut self, bed: u32, own: &mut BedRecord) -> Result<Replayed, Refusal>
        requires low { bed < self.old.table.size.count }
        requires sound { StartSound own.old }
        ensures replays { ReplaysRound self.old.table.size.count (M.holds self.old.memory bed) bed own.old (S.board self.old.service) result own.new (S.board self.new.service) }
        ensures memory { self.new.memory ≡ self.old.memory }
        ensures table { self.new.table ≡ self.old.table }
    {
        let round = u32::from(own.round);
        if round >= ROUNDS {
            return Ok(Replayed::End);
        }
        let Ok(slot) = self.memory.read(bed, round) else {
            unreachable!()
        };
        let Some(bytes) = slot else {
            return Ok(Replayed::End);
        };
        let site = Site {
            bed: bed as u8,
            round: own.round,
            source: Source::Memory,
        };
        sited(read_batch(bytes, self.table.size()), site)?;
        // Taken or had, the bed's proposal now stands.
        let _ = self.service.put(bed, round, bytes);
        let Ok(decision) = self.service.poll(round) else {
            own.phase = Phase::Waiting;
            return Ok(Replayed::End);
        };
        let site = Site {
            bed: bed as u8,
            round: own.round,
            source: Source::Service,
        };
        let batch = sited(read_batch(decision.as_slice(), self.table.size()), site)?;
        own.collect(batch.as_slice());
        Ok(Replayed::Round)
    }

    // Power on: the bed goes through what it kept, round by round, and takes up its queue again.
    fn start(&mut self, bed: u32) -> Result<(), Refusal>
        ensures { StartDoes (shows M.holds S.board self.old) bed (map_ok (λ _. Done) result) (shows M.holds S.board self.new) }
    {
        let index = self.table.startable(bed)?;
        let mut own = BedRecord::fresh();
        while let Replayed::Round = self.replay(bed, &mut own)? {}
        self.table.enter(index, own);
        Ok(())
    }
}

impl<M: Memory, S: DecisionService> Row<M, S> {
    fn off(&mut self, bed: u32) -> Result<(), Refusal>
        ensures { OffDoes (shows M.holds S.board self.old) bed (map_ok (λ _. Done) result) (shows M.holds S.board self.new) }
    {
        self.table.off(bed)
    }

    fn submit(&mut self, bed: u32, number: u32, paths: u32, sheet: u32) -> Result<Receipt, Refusal>
        ensures { SubmitDoes (shows M.holds S.board self.old) bed number paths sheet (map_ok (λ (x : Receipt). Submitted x.ticket) result) (shows M.holds S.board self.new) }
    {
        let ticket = self.table.submit(bed, number, paths, sheet)?;
        Ok(Receipt::new(ticket))
    }

    fn send(&self, bed: u32, out: &mut [u8]) -> Result<usize, Refusal>
        ensures does { SendDoes (shows M.holds S.board self.now) bed (length out.old) (sent_answer result out.new) (shows M.holds S.board self.now) }
        ensures buffer { BufferAfter result out.old out.new }
    {
        self.table.send(bed, out)
    }

    fn hear(&mut self, bed: u32, bytes: &[u8]) -> Result<Heard, Refusal>
        ensures { HearDoes (shows M.holds S.board self.old) bed bytes.now (map_ok HeardReply result) (shows M.holds S.board self.new) }
    {
        self.table.hear(bed, bytes)
    }
}

impl<M: Memory, S: DecisionService> Row<M, S> {
    fn state(&self, bed: u32) -> Result<State, Refusal>
        ensures { result ≡ state_answer (shows M.holds S.board self.now) bed }
    {
        self.table.state(bed)
    }

    fn ticket(&self, bed: u32, place: u32) -> Result<Ticket, Refusal>
        ensures { result ≡ ticket_answer (shows M.holds S.board self.now) bed place }
    {
        self.table.ticket(bed, place)
    }

    fn redeem(&self, receipt: Receipt) -> Result<Redeemed, Unredeemed>
        ensures { result ≡ redeemed (redeem_answer (shows M.holds S.board self.now) receipt.ticket) receipt }
    {
        // No `map_err`: its closure would take the receipt, which the other answers still need.
        let standing = match self.table.standing(receipt.ticket()) {
            Ok(standing) => standing,
            Err(refusal) => return Err(Unredeemed { refusal, receipt }),
        };
        match standing {
            Standing::Queued(place) => {
                receipt.waive();
                Ok(Redeemed::Queued(place))
            }
            Standing::Waiting => Ok(Redeemed::Waiting(receipt)),
            Standing::Unknown => {
                receipt.waive();
                Ok(Redeemed::Unknown)
            }
        }
    }
}

impl<M: Memory, S: DecisionService> Row<M, S> {
    // Sends into a packet of its own, with so much room. The buffer is there since `send` promises what it leaves in one that is lent.
    fn send_packet(&self, bed: u32, room: usize) -> Result<SentPacket, Refusal>
        ensures { SendDoes (shows M.holds S.board self.now) bed room (map_ok Sent result) (shows M.holds S.board self.now) }
    {
        let mut buffer = [0; MAX_PACKET_BYTES];
        let len = self.send(bed, &mut buffer)?;
        if len > room {
            return Err(Refusal::NoRoom);
        }
        let Ok(bytes) = FixedVec::try_from(&buffer[..len]) else {
            unreachable!()
        };
        Ok(SentPacket { bytes })
    }

    // Makes one call.
    fn perform(&mut self, call: &Call<'_>) -> Result<Reply, Refusal>
        ensures { Does M.named (shows M.holds S.board self.old) call.now result (shows M.holds S.board self.new) }
    {
        match call {
            Call::Start { bed } => self.start(*bed)?,
            Call::Submit {
                bed,
                number,
                paths,
                sheet,
            } => {
                let receipt = self.submit(*bed, *number, *paths, *sheet)?;
                return Ok(Reply::Submitted(receipt.waive()));
            }
            Call::Send { bed, room } => return self.send_packet(*bed, *room).map(Reply::Sent),
            Call::Hear { bed, bytes } => return self.hear(*bed, bytes).map(Reply::Heard),
            Call::Propose { bed } => self.propose(*bed)?,
            Call::Trip { bed, at, junk } => self.trip(*bed, *at, *junk)?,
            Call::Collect { bed } => self.collect(*bed)?,
            Call::Off { bed } => self.off(*bed)?,
        }
        Ok(Reply::Done)
    }
}

impl<M: Memory, S: DecisionService> Row<M, S> {
    // Makes the calls one after another; each answer goes to the place of its call, in what the caller lends.
    fn run(
        &mut self,
        calls: &[Call<'_>],
        answers: &mut [Result<Reply, Refusal>],
    ) -> Result<(), Refusal>
        ensures { Runs M.named (shows M.holds S.board self.old) calls.now answers.old result answers.new (shows M.holds S.board self.new) }
    {
        if answers.len() < calls.len() {
            return Err(Refusal::NoRoom);
        }
        for (made, call) in calls.iter().enumerate() {
            answers[made] = self.perform(call);
        }
        Ok(())
    }
}
