// The laws above the definitions: each function's contract is a theorem, and the function does nothing.
ghost use Rattle.codec.specs.Laws.{NumberLaws, OrderLaws, EditLaws, BatchLaws, PacketLaws};

/// The form of a number is its shortest in LEB128; what is written is read again, and what is read was in its form.
#[tactic(auto, using(crate::proofs::Numbers::number_laws))]
pub fn number_laws_hold()
    ensures { NumberLaws }
{}

/// Identity is an equivalence, and ticket order a strict total order on tickets of different identities.
#[tactic(auto, using(crate::proofs::Orders::order_laws))]
pub fn order_laws_hold()
    ensures { OrderLaws }
{}

/// Insertion in order, the first few, and removal keep a list sound.
#[tactic(auto, using(crate::proofs::ListEdits::edit_laws))]
pub fn edit_laws_hold()
    ensures { EditLaws }
{}

/// Bytes are accepted as a batch exactly if they are those of a sound list, and no two lists have the same bytes.
#[tactic(auto, using(crate::proofs::FormLaws::batch_laws))]
pub fn batch_laws_hold()
    ensures { BatchLaws }
{}

/// Bytes are accepted as a packet exactly if they are those of a sound packet, and no two packets have the same bytes.
#[tactic(auto, using(crate::proofs::FormLaws::packet_laws))]
pub fn packet_laws_hold()
    ensures { PacketLaws }
{}
