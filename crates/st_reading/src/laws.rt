//! What holds of bytes and messages: each law is the contract of a function that has nothing to do.

ghost use Rattle.std.specs.Prelude.{◌≡◌, ℕ, ◌^◌, ◌<◌, ◌≤◌, List, length, map, slice_index};
ghost use Rattle.st_words.specs.declared.deployment.Deployment.{Deployment};
ghost use Rattle.st_message.specs.declared.message.Message.{Message};
ghost use Rattle.st_wire.specs.Ranges.{most_bytes, KeepsMessage, FitsMessage};
ghost use Rattle.st_wire.specs.Spelling.{message_spelling};
ghost use Rattle.st_protocol.specs.Duty.{Clean};
ghost use Rattle.st_protocol.specs.Known.{seals_of};
ghost use Rattle.st_reading.specs.Deployed.{wire_formats};
ghost use Rattle.st_reading.specs.Answered.{IsSpelled};
ghost use Rattle.st_reading.specs.Placeless.{without_place};

/// What is sent is read as it was sent, where it keeps its ranges and isn't too long.
#[tactic(auto, using(crate::proofs::ReadLaws::sent_is_clean))]
pub fn sent_messages_are_read()
    ensures { (d : Deployment) (m : Message) → d.id < 2 ^ 64 → KeepsMessage m → FitsMessage m → length (message_spelling d.id m) ≤ most_bytes → (wire_formats d).read ((wire_formats d).encode m) ≡ Clean m }
{}

/// Bytes that are read as a message are those as which it is sent; it keeps its ranges and isn't too long.
pub fn read_messages_are_spelled()
    ensures { (d : Deployment) (bytes : List ℕ) (m : Message) → ((i : ℕ) → slice_index bytes i < 256) → (wire_formats d).read bytes ≡ Clean m → IsSpelled d.id bytes m }
{}

/// The seals that stand in a message are those that it holds: the same parties', over the same statements, in
/// the same order.
#[tactic(auto, using(crate::proofs::SameSealsLaws::same_seals))]
pub fn seals_that_stand_are_held()
    ensures { (d : Deployment) (m : Message) → KeepsMessage m → map without_place ((wire_formats d).seals_in m) ≡ seals_of d.sites m }
{}
