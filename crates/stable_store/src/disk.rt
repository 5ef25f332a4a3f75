//! A device of a fixed length, as its callers see it: what a read gives, and what a crash may leave.

ghost use Rattle.std.specs.Prelude.{◌≡◌, ◌↔◌, ℕ, Bool, List, Option, Some, ◌+◌, ◌≤◌, length, take, drop, IfOk, OnOk, OnErr};
ghost use Rattle.std.specs.Option.{option_map};
ghost use Rattle.jp_types.specs.Faults.{HasCause};
ghost use Rattle.stable_store.specs.Disks.{overwritten, TornFrom, Tears, IsSettled, Elapses};

use jp_types::fault::Failed;

/// A device of a fixed length. Between two syncs a crash may leave any bytes where something was written, and leaves the
/// others as they were. After a sync it leaves what a read gives.
pub trait Disk: Send {
    /// How many bytes there are.
    ghost size: { Self → ℕ };

    /// All the bytes as a read gives them, where that is known.
    ghost seen: { Self → Option (List ℕ) };

    /// What a crash at this moment may leave. There is no such image where nothing is known.
    ghost may_leave: { Self → List ℕ → Type 0 };

    /// The moment, as a number that does not fall.
    ghost moment: { Self → ℕ };

    /// What a crash at some moment from that one on might have left, during a call or between two.
    ghost left_since: { Self → ℕ → List ℕ → Type 0 };

    /// Whether every past moment is known, or the present one alone. A clause that speaks of any moment of a call says of a
    /// disk that does not remember only what a crash after the call leaves: the end of each call alone.
    ghost remembers: { Bool };

    /// How many calls have failed.
    ghost faults: { Self → ℕ };

    /// How many bytes there are.
    fn length(&mut self) -> Result<u64, Failed>
        ensures value { IfOk result (λ count. count ≡ size self.old) }
        ensures size { size self.new ≡ size self.old }
        ensures seen { seen self.new ≡ seen self.old }
        ensures images { (image : List ℕ) → may_leave self.new image ↔ may_leave self.old image }
        ensures time { Elapses remembers (moment self.old) (moment self.new) (left_since self.old) (left_since self.new) (may_leave self.new) }
        ensures cause { HasCause (faults self.old) (faults self.new) result };

    /// Fills the room from a place on.
    fn read(&mut self, at: u64, room: &mut [u8]) -> Result<(), Failed>
        requires { at + length room.old ≤ size self.old }
        ensures bytes { OnOk result ((bytes : List ℕ) → seen self.old ≡ Some bytes → room.new ≡ take (length room.old) (drop at bytes)) }
        ensures size { size self.new ≡ size self.old }
        ensures seen { seen self.new ≡ seen self.old }
        ensures images { (image : List ℕ) → may_leave self.new image ↔ may_leave self.old image }
        ensures time { Elapses remembers (moment self.old) (moment self.new) (left_since self.old) (left_since self.new) (may_leave self.new) }
        ensures cause { HasCause (faults self.old) (faults self.new) result };

    /// Writes a piece in place. Until a sync a crash may leave any bytes there, also where the call failed.
    fn write_at(&mut self, at: u64, piece: &[u8]) -> Result<(), Failed>
        requires { at + length piece.now ≤ size self.old }
        ensures written { OnOk result (seen self.new ≡ option_map (overwritten at piece.now) (seen self.old)) }
        ensures torn { OnErr result (Tears at (length piece.now) (seen self.old) (seen self.new)) }
        ensures size { size self.new ≡ size self.old }
        ensures images { (image : List ℕ) → may_leave self.new image → TornFrom at (length piece.now) (may_leave self.old) image }
        ensures time { Elapses remembers (moment self.old) (moment self.new) (left_since self.old) (left_since self.new) (may_leave self.new) }
        ensures cause { HasCause (faults self.old) (faults self.new) result };

    /// After it a crash leaves what a read gives. A failure leaves what a crash might have left before.
    fn sync(&mut self) -> Result<(), Failed>
        ensures settled { OnOk result (IsSettled (seen self.new) (may_leave self.new)) }
        ensures size { size self.new ≡ size self.old }
        ensures seen { seen self.new ≡ seen self.old }
        ensures fewer { (image : List ℕ) → may_leave self.new image → may_leave self.old image }
        ensures failed { OnErr result ((image : List ℕ) → may_leave self.old image → may_leave self.new image) }
        ensures time { Elapses remembers (moment self.old) (moment self.new) (left_since self.old) (left_since self.new) (may_leave self.new) }
        ensures cause { HasCause (faults self.old) (faults self.new) result };

    /// What a read gives is all of the device.
    ghost whole: { (disk : Self) (bytes : List ℕ) → seen disk ≡ Some bytes → length bytes ≡ size disk };

    /// A crash may leave just that.
    ghost seen_may_stay: { (disk : Self) (bytes : List ℕ) → seen disk ≡ Some bytes → may_leave disk bytes };

    /// This moment is one of those since an earlier one.
    ghost counts_now: { (disk : Self) (t : ℕ) (image : List ℕ) → t ≤ moment disk → may_leave disk image → left_since disk t image };

    /// Since this moment there is no other.
    ghost only_now: { (disk : Self) (image : List ℕ) → left_since disk (moment disk) image → may_leave disk image };
}
