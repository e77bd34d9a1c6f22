// A batch: at most eight tickets, what a bed proposes in one round.
//
// | part    | form              |
// |---------|-------------------|
// | count   | number, 0 to 8    |
// | tickets | so many tickets   |
ghost use Rattle.std.specs.Prelude.{◌≡◌, ◌≤◌, IfOk};
ghost use Rattle.codec.specs.Limits.{batch_tickets, max_batch_bytes};
ghost use Rattle.codec.specs.Chain.{map_ok};
ghost use Rattle.codec.specs.Tickets.{listed};
ghost use Rattle.codec.specs.TicketList.{Sound};
ghost use Rattle.codec.specs.Batch.{batch_bytes, batch_of, ReadBatch};
ghost use Rattle.codec.specs.Write.{HasBytes, Wrote};

use super::beds::Beds;
use super::fixed_vec::FixedVec;
use super::limits::{BATCH_TICKETS, MAX_BATCH_BYTES};
use super::reader::Reader;
use super::refusal::WriteRefusal;
use super::ticket::Ticket;
use super::ticket_list::is_sound;
use super::tickets::Tickets;
use super::whole::WholeFault;
use super::write::write;

/// The tickets of a batch, for a group of so many beds.
#[tactic(auto, unfolding(crate::specs::Batch::batch_of), using(crate::proofs::Wholes::all_fresh, crate::proofs::Wholes::batch_sound))]
pub fn read_batch(bytes: &[u8], beds: Beds) -> Result<Tickets, WholeFault>
    ensures value { map_ok listed result ≡ batch_of beds.count bytes.now }
    ensures sound { ReadBatch beds.count bytes.now result }
{
    let mut reader = Reader::batch(bytes, beds);
    reader.finish()
}

// The form of a batch, for a group of so many beds, if the tickets make a sound one.
pub(crate) fn batch_form(tickets: &[Ticket], beds: Beds) -> Option<FixedVec<u8, MAX_BATCH_BYTES>>
    ensures { HasBytes (Sound beds.count batch_tickets tickets.now) (batch_bytes tickets.now) result }
{
    if !is_sound(tickets, beds, BATCH_TICKETS) {
        return None;
    }
    let mut form = FixedVec::new();
    form.push_list(tickets);
    Some(form)
}

/// Writes a batch at the beginning of `out`, for a group of so many beds, and answers its length.
pub fn write_batch(out: &mut [u8], tickets: &[Ticket], beds: Beds) -> Result<usize, WriteRefusal>
    ensures wrote { Wrote (Sound beds.count batch_tickets tickets.now) (batch_bytes tickets.now) out.old result out.new }
    ensures short { IfOk result (λ len. len ≤ max_batch_bytes) }
{
    write(out, batch_form(tickets, beds))
}
