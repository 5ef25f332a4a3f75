//! What holds of the parts of a state's bytes, and of joiners.

ghost use Rattle.std.specs.Prelude.{ℕ, List, ◌≡◌, Some, flat_map, is_none, length, map};
ghost use Rattle.jp_types.specs.declared.message.Message.{Message};
ghost use Rattle.jp_types.specs.declared.message.SnapshotPart.{SnapshotPart};
ghost use Rattle.kv_service.specs.Parts.{Joiner, part_count, parts_from, takes_part};
ghost use Rattle.snapshots.specs.Cutting.{parts_of};
ghost use Rattle.snapshots.specs.Given.{JoinsInAnyOrder};
ghost use Rattle.snapshots.specs.Joining.{HoldsCuts, IsFirstDifference, part_fault};
ghost use Rattle.snapshots.specs.declared.joiner.PartFault.TheVariants as fault;

/// The bytes of the parts, one behind the other, are the bytes that were cut.
pub fn parts_join_to_the_bytes()
    ensures { (upto : ℕ) (bytes : List ℕ) → flat_map (λ part. part.bytes) (parts_of upto bytes) ≡ bytes }
{}

/// The parts are those that the messages to a replica which catches up have.
pub fn parts_are_those_sent()
    ensures { (upto : ℕ) (bytes : List ℕ) → map (λ part. Message.SnapshotPart part) (parts_of upto bytes) ≡ parts_from (part_count (length bytes)) upto (length bytes) bytes 0 }
{}

/// Parts of the same bytes join to these, in whatever order and however often they are given.
pub fn joins_in_any_order()
    ensures { (upto : ℕ) (bytes : List ℕ) (given : List SnapshotPart) → JoinsInAnyOrder upto bytes given }
{}

/// A joiner refuses exactly the parts that it does not take.
pub fn refuses_what_it_does_not_take()
    ensures { (j : Joiner) (m : SnapshotPart) → is_none (part_fault j m) ≡ takes_part j m }
{}

/// The place told of a part that differs is that of the first byte which is not the one held there.
pub fn differs_at_the_first_byte()
    ensures { (j : Joiner) (m : SnapshotPart) (place : ℕ) → HoldsCuts j.total j.parts → part_fault j m ≡ Some (fault.Differs place) → IsFirstDifference j m place }
{}
