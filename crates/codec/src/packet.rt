// A packet: what one bed tells another.
//
// | offset | part    | form                         |
// |--------|---------|------------------------------|
// | 0      | mark    | the bytes 4A 4F 42 47        |
// | 4      | bed     | number below n, the sender   |
// | 5      | round   | number, 0 to 32              |
// | 6      | count   | number, 0 to 16              |
// | 7      | tickets | so many tickets              |
ghost use Rattle.std.specs.Prelude.{◌≡◌, ◌≤◌, IfOk};
ghost use Rattle.codec.specs.Limits.{max_packet_bytes};
ghost use Rattle.codec.specs.Chain.{map_ok};
ghost use Rattle.codec.specs.Packet.{SoundPacket, packet_bytes, packet_of, packet_parts, ReadPacket};
ghost use Rattle.codec.specs.Write.{HasBytes, Wrote};

use super::beds::Beds;
use super::fixed_vec::FixedVec;
use super::limits::{MAX_PACKET_BYTES, MAX_ROUND, PACKET_TICKETS};
use super::reader::{Head, Part, Reader};
use super::refusal::WriteRefusal;
use super::ticket::Ticket;
use super::ticket_list::is_sound;
use super::tickets::Tickets;
use super::whole::WholeFault;
use super::write::write;

/// What a packet begins with.
pub const MARK: [u8; 4] = [b'J', b'O', b'B', 0x47];

/// The bed that sent a packet, its round then, and the tickets that it was waiting with.
#[derive(Clone, Copy)]
pub struct Packet {
    pub bed: u8,
    pub round: u8,
    pub tickets: Tickets,
}

/// A packet, for a group of so many beds.
#[tactic(auto, unfolding(crate::specs::Packet::packet_of, crate::specs::Reading::packet_reading), using(crate::proofs::Wholes::first_head, crate::proofs::Wholes::all_fresh, crate::proofs::Wholes::packet_sound, crate::proofs::Wholes::packet_right))]
pub fn read_packet(bytes: &[u8], beds: Beds) -> Result<Packet, WholeFault>
    ensures value { map_ok packet_parts result ≡ packet_of beds.count bytes.now }
    ensures sound { ReadPacket beds.count bytes.now result }
{
    let mut reader = Reader::packet(bytes, beds);
    let Part::Head(Head::Packet { bed, round, .. }) = reader.next()? else {
        unreachable!()
    };
    let tickets = reader.finish()?;
    Ok(Packet {
        bed,
        round,
        tickets,
    })
}

// The form of a packet, for a group of so many beds, if it is a sound one.
#[tactic(auto, unfolding(crate::specs::Packet::packet_bytes))]
fn packet_form(
    bed: u8,
    round: u8,
    tickets: &[Ticket],
    beds: Beds,
) -> Option<FixedVec<u8, MAX_PACKET_BYTES>>
    ensures { HasBytes (SoundPacket beds.count bed round tickets.now) (packet_bytes bed round tickets.now) result }
{
    if bed >= beds.count() || u32::from(round) > MAX_ROUND {
        return None;
    }
    if !is_sound(tickets, beds, PACKET_TICKETS) {
        return None;
    }
    let mut form = FixedVec::new();
    form.extend_from_slice(&MARK);
    form.push_number(u32::from(bed));
    form.push_number(u32::from(round));
    form.push_list(tickets);
    Some(form)
}

/// Writes a packet at the beginning of `out`, for a group of so many beds, and answers its length.
pub fn write_packet(
    out: &mut [u8],
    bed: u8,
    round: u8,
    tickets: &[Ticket],
    beds: Beds,
) -> Result<usize, WriteRefusal>
    ensures wrote { Wrote (SoundPacket beds.count bed round tickets.now) (packet_bytes bed round tickets.now) out.old result out.new }
    ensures short { IfOk result (λ len. len ≤ max_packet_bytes) }
{
    write(out, packet_form(bed, round, tickets, beds))
}
