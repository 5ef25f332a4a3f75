//! The Protocol stage of a replica: the turn of a life over a disk, and over what repeats its messages.

ghost use Rattle.std.specs.Prelude.{◌≡◌, ◌≢◌, ◌⊎◌, ◌↔◌, ◌≤◌, ℕ, List, true, false, Option, Some, Err, IfOk, OnOk, OnErr};
ghost use Rattle.std.specs.Borrow.{sem};
ghost use Rattle.jp_types.specs.Faults.{Rose};
ghost use Rattle.proposer_core.specs.Proposing.{next_of};
ghost use Rattle.retransmitter.specs.Slots.{claim_of, lent_of, next_live};
ghost use Rattle.stable_store.specs.Disks.{LeavesOnly};
ghost use Rattle.stable_store.specs.Slots.{Loads, Stands, held};
ghost use Rattle.protocol_stage.specs.declared.protocol.StartFault.TheVariants as fault;
ghost use Rattle.protocol_stage.specs.declared.protocol.TurnFault.TheVariants as turn_fault;
ghost use Rattle.jp_types.specs.declared.mode.Mode.TheVariants as mode;
ghost use Rattle.paxos_world.specs.Stage.{Stage, Item as ModelItem};
ghost use Rattle.protocol_laws.specs.Acting.{item_of};
ghost use Rattle.protocol_laws.specs.Coming.{Comes};
ghost use Rattle.protocol_stage.specs.Following.{FollowsOpening, FollowsTurn, LoadsAtStart, LoadsAtTurn, model_config, model_slots};
ghost use Rattle.protocol_stage.specs.Lending.{KeepsRunning};
ghost use Rattle.protocol_stage.specs.Performing.{LoadsOneOf, Repeats, outward, stored_after};
ghost use Rattle.protocol_stage.specs.Running.{HasBegun, HoldsStable, IsHeld, IsOpened, IsSteady, LoadsAtOpening, Opens};
ghost use Rattle.protocol_stage.specs.Standing.{Lives};
ghost use Rattle.protocol_core.specs.Starting.{IsSpent, opening};
ghost use Rattle.protocol_core.specs.Turned.{Turned};
ghost use Rattle.protocol_core.specs.Turning.{turn};

use crate::performing::Repeating;
use crate::storing::save_for;
use jp_types::listed::Listed;
use jp_types::memory::NoMemory;
use jp_types::message::{Instance, Mark, View};
use jp_types::mode::Phase;
use protocol_core::act::Act;
use protocol_core::config::Config;
use protocol_core::item::Item;
use protocol_core::life::Life;
use protocol_core::starting;
use retransmitter::arms::Arms;
use retransmitter::slots::{Lent, Slots};
use stable_store::cell::{Cell, CellFault};
use stable_store::disk::Disk;
use std::alloc::Global;
use std::marker::Model;

/// Why no life begins.
#[derive(Clone, Copy, Debug, PartialEq, Eq)]
pub enum StartFault {
    /// A call of the disk failed.
    StoreFault,
    /// The disk has this many bytes, and not 18.
    Damaged(u64),
    /// The disk holds this number, and the next one to save would pass the limit: the replica can't start again.
    Spent(u64),
    NoMemory,
}

/// Why a turn answers no acts.
#[derive(Clone, Copy, Debug, PartialEq, Eq)]
pub enum TurnFault {
    NoMemory,
    /// A call of the disk failed.
    StoreFault,
    /// An earlier turn failed.
    Down,
}

impl From<NoMemory> for StartFault {
    ghost from_gives = { λ _ f. f ≡ fault.NoMemory };

    fn from(_error: NoMemory) -> StartFault {
        StartFault::NoMemory
    }
}

impl From<CellFault> for StartFault {
    ghost use Rattle.protocol_stage.specs.Running.{fault_of_cell};

    ghost from_gives = { λ error f. f ≡ fault_of_cell error };

    fn from(error: CellFault) -> StartFault {
        match error {
            CellFault::Disk => StartFault::StoreFault,
            CellFault::Damaged(length) => StartFault::Damaged(length),
        }
    }
}

impl From<starting::StartFault> for StartFault {
    ghost use Rattle.protocol_stage.specs.Running.{fault_of_life};

    ghost from_gives = { λ error f. f ≡ fault_of_life error };

    fn from(error: starting::StartFault) -> StartFault {
        match error {
            starting::StartFault::Spent(number) => StartFault::Spent(number),
            starting::StartFault::NoMemory => StartFault::NoMemory,
        }
    }
}

impl From<NoMemory> for TurnFault {
    ghost from_gives = { λ _ f. f ≡ turn_fault.NoMemory };

    fn from(_error: NoMemory) -> TurnFault {
        TurnFault::NoMemory
    }
}

impl From<CellFault> for TurnFault {
    ghost from_gives = { λ _ f. f ≡ turn_fault.StoreFault };

    fn from(_error: CellFault) -> TurnFault {
        TurnFault::StoreFault
    }
}

/// A life that begins, from the number that the disk holds, and what it does first.
#[derive(Drop)]
struct Begun {
    cell: Cell,
    stored: Option<u64>,
    life: Life,
    acts: Listed<Act>,
}

// Begins a life from the number that the disk holds. Nothing is saved yet.
fn begin_life<D: Disk>(alloc: Global, config: &Config, disk: &mut D) -> Result<Begun, StartFault>
    ensures opens { IfOk result (λ begun. Opens config.now begun.stored (record { life = begun.life; acts = begun.acts })) }
    ensures stores { IfOk result (λ begun. stored_after begun.stored begun.acts ≡ Some begun.life.stable) }
    ensures steady { IfOk result (λ begun. IsSteady begun.life) }
    ensures held { IfOk result (λ begun. held begun.cell ≡ begun.stored) }
    ensures is_held { IfOk result (λ begun. IsHeld (D.seen disk.old) begun.stored) }
    ensures stands { IfOk result (λ begun. Stands begun.cell (D.size disk.new) (D.seen disk.new) (D.may_leave disk.new)) }
    ensures spent { (number : ℕ) → result ≡ Err (fault.Spent number) → (D.size disk.old ≡ 18) × ((stored : Option ℕ) × IsHeld (D.seen disk.old) stored × IsSpent config.now stored number) }
    ensures no_memory { result ≡ Err fault.NoMemory → (D.size disk.old ≡ 18) × ((stored : Option ℕ) × (opened : Turned) × IsHeld (D.seen disk.old) stored × Opens config.now stored opened) }
    ensures whole { OnOk result (D.size disk.old ≡ 18) }
    ensures damaged { (count : ℕ) → result ≡ Err (fault.Damaged count) → (count ≡ D.size disk.old) × (D.size disk.old ≢ 18) }
    ensures fault { result ≡ Err fault.StoreFault → Rose (D.faults disk.old) (D.faults disk.new) }
    ensures later { D.faults disk.old ≤ D.faults disk.new }
    ensures any_moment { LeavesOnly D.moment D.left_since disk.old disk.new (D.may_leave disk.old) }
    ensures size { D.size disk.new ≡ D.size disk.old }
{
    let (cell, stored) = Cell::load(disk)?;
    let (life, acts) = starting::start(alloc, *config, stored)?;
    Ok(Begun {
        cell,
        stored,
        life,
        acts,
    })
}

/// A life, the number on its disk, and the messages that are repeated for it.
#[derive(Drop)]
struct Parts<A: Arms + Drop> {
    life: Life,
    cell: Cell,
    repeating: Repeating<A>,
}

impl<A: Arms + Drop> Parts<A> {
    // Saves what the acts tell to save, and then performs them. The answer is those that go out.
    fn perform<D: Disk>(
        &mut self,
        acts: Listed<Act>,
        stored: Option<u64>,
        disk: &mut D,
    ) -> Result<Listed<Act>, TurnFault>
        requires held { held self.old.cell ≡ stored }
        requires stands { Stands self.old.cell (D.size disk.old) (D.seen disk.old) (D.may_leave disk.old) }
        ensures life { self.new.life ≡ self.old.life }
        ensures out { IfOk result (λ out. out ≡ outward acts) }
        ensures repeated { OnOk result (Repeats A.may_take acts self.old.repeating self.new.repeating) }
        ensures held { OnOk result (held self.new.cell ≡ stored_after stored acts) }
        ensures stands { OnOk result (Stands self.new.cell (D.size disk.new) (D.seen disk.new) (D.may_leave disk.new)) }
        ensures loads { OnOk result ((image : List ℕ) → D.may_leave disk.new image → Loads image (stored_after stored acts)) }
        ensures any_moment { LeavesOnly D.moment D.left_since disk.old disk.new (LoadsOneOf stored (stored_after stored acts)) }
        ensures untouched { stored ≡ stored_after stored acts → disk.new ≡ disk.old }
        ensures not_down { result ≢ Err TurnFault.Down }
        ensures fault { result ≡ Err TurnFault.StoreFault → Rose (D.faults disk.old) (D.faults disk.new) }
        ensures later { D.faults disk.old ≤ D.faults disk.new }
        ensures size { D.size disk.new ≡ D.size disk.old }
    {
        save_for(&mut self.cell, disk, stored, acts.as_slice())?;
        Ok(self.repeating.perform_all(self.life.alloc(), acts)?)
    }

    // One turn of the life, whose acts are performed.
    fn turn<D: Disk>(
        &mut self,
        item: Item,
        room: usize,
        disk: &mut D,
    ) -> Result<Listed<Act>, TurnFault>
        requires stable { HoldsStable self.old.life self.old.cell }
        requires stands { Stands self.old.cell (D.size disk.old) (D.seen disk.old) (D.may_leave disk.old) }
        ensures life { OnOk result (self.new.life ≡ (turn self.old.life item room).life) }
        ensures out { IfOk result (λ out. out ≡ outward (turn self.old.life item room).acts) }
        ensures repeated { OnOk result (Repeats A.may_take (turn self.old.life item room).acts self.old.repeating self.new.repeating) }
        ensures stable { OnOk result (HoldsStable self.new.life self.new.cell) }
        ensures stands { OnOk result (Stands self.new.cell (D.size disk.new) (D.seen disk.new) (D.may_leave disk.new)) }
        ensures loads { OnOk result ((image : List ℕ) → D.may_leave disk.new image → Loads image (Some self.new.life.stable)) }
        ensures any_moment { LeavesOnly D.moment D.left_since disk.old disk.new (LoadsOneOf (Some self.old.life.stable) (Some (turn self.old.life item room).life.stable)) }
        ensures untouched { (turn self.old.life item room).life.stable ≡ self.old.life.stable → disk.new ≡ disk.old }
        ensures not_down { result ≢ Err TurnFault.Down }
        ensures fault { result ≡ Err TurnFault.StoreFault → Rose (D.faults disk.old) (D.faults disk.new) }
        ensures later { D.faults disk.old ≤ D.faults disk.new }
        ensures size { D.size disk.new ≡ D.size disk.old }
    {
        let stored = Some(self.life.stable);
        let acts = self.life.turn(item, room)?;
        self.perform(acts, stored, disk)
    }
}

/// The Protocol stage of a replica: a life, the number on its disk, and the messages that are repeated for it. What it does
/// goes out only when the number that it told to save is stable.
#[derive(Drop)]
pub struct Protocol<A: Arms + Drop> {
    parts: Parts<A>,
    /// Whether a turn has failed.
    down: bool,
}

impl<A: Arms + Drop> Model for Protocol<A> {
    ghost use Rattle.std.specs.Prelude.{◌≡◌, Bool, List, false, refl};
    ghost use Rattle.std.specs.Coded.{code_by, coded×, coded_bool, coded_list};
    ghost use Rattle.retransmitter.specs.contracts.slots.Slot as of_slot;
    ghost use Rattle.retransmitter.specs.declared.slots.Slot.{Slot};
    ghost use Rattle.stable_store.specs.contracts.cell.Cell as of_cell;
    ghost use Rattle.stable_store.specs.Slots.{Slots as CellSlots};
    ghost use Rattle.protocol_core.specs.contracts.life.Life as of_life;
    ghost use Rattle.protocol_core.specs.declared.life.Life.{Life};
    ghost use Rattle.protocol_stage.specs.contracts.tokens.Tokens as of_tokens;
    ghost use Rattle.protocol_stage.specs.Repeating.{Tokens};
    ghost use Rattle.protocol_stage.specs.Running.{HoldsStable, Running};

    ghost Value = { Running };

    ghost coded = { code_by (Life × (CellSlots × ((List Slot × Tokens) × Bool))) (coded× of_life.the_row.coded (coded× of_cell.the_row.coded (coded× (coded× (coded_list of_slot.the_row.coded) of_tokens.the_row.coded) coded_bool))) (λ s. (s.life, (s.cell, ((s.repeating.slots, s.repeating.tokens), s.down)))) (λ p. record { life = p.0; cell = p.1.0; repeating = record { slots = p.1.1.0.0; tokens = p.1.1.0.1 }; down = p.1.1.1 }) (λ _. refl) };

    ghost view = { λ p. record { life = p.parts.life; cell = p.parts.cell; repeating = p.parts.repeating; down = p.down } };

    ghost invariant = { λ p. p.down ≡ false → HoldsStable p.parts.life p.parts.cell };
}

impl<A: Arms + Drop> Protocol<A> {
    // Performs what a life does first.
    fn open<D: Disk>(
        begun: Begun,
        repeating: Repeating<A>,
        disk: &mut D,
    ) -> Result<(Protocol<A>, Listed<Act>), StartFault>
        requires held { held begun.cell ≡ begun.stored }
        requires stands { Stands begun.cell (D.size disk.old) (D.seen disk.old) (D.may_leave disk.old) }
        requires stores { stored_after begun.stored begun.acts ≡ Some begun.life.stable }
        requires steady { IsSteady begun.life }
        ensures begun { IfOk result (λ made. HasBegun A.may_take repeating begun.life begun.acts made.0 made.1) }
        ensures stands { IfOk result (λ made. Stands made.0.cell (D.size disk.new) (D.seen disk.new) (D.may_leave disk.new)) }
        ensures loads { IfOk result (λ made. (image : List ℕ) → D.may_leave disk.new image → Loads image (Some made.0.life.stable)) }
        ensures any_moment { LeavesOnly D.moment D.left_since disk.old disk.new (LoadsOneOf begun.stored (Some begun.life.stable)) }
        ensures not_damaged { (count : ℕ) → result ≢ Err (fault.Damaged count) }
        ensures not_spent { (number : ℕ) → result ≢ Err (fault.Spent number) }
        ensures fault { result ≡ Err fault.StoreFault → Rose (D.faults disk.old) (D.faults disk.new) }
        ensures later { D.faults disk.old ≤ D.faults disk.new }
        ensures size { D.size disk.new ≡ D.size disk.old }
    {
        let mut parts = Parts {
            life: begun.life,
            cell: begun.cell,
            repeating,
        };
        match parts.perform(begun.acts, begun.stored, disk) {
            Ok(out) => Ok((Protocol { parts, down: false }, out)),
            Err(TurnFault::NoMemory) => Err(StartFault::NoMemory),
            Err(_) => Err(StartFault::StoreFault),
        }
    }

    /// Begins a life of a replica, from the number that its disk holds. The answer has what the life does first, and the
    /// life's own number is stable before that.
    pub fn start<D: Disk>(
        alloc: Global,
        config: &Config,
        arms: A,
        disk: &mut D,
    ) -> Result<(Protocol<A>, Listed<Act>), StartFault>
        ensures ok { IfOk result (λ made. (stored : Option ℕ) × IsHeld (D.seen disk.old) stored × IsOpened A.may_take (A.slots arms) config.now stored made.0 made.1) }
        ensures stands { IfOk result (λ made. Stands made.0.cell (D.size disk.new) (D.seen disk.new) (D.may_leave disk.new)) }
        ensures loads { IfOk result (λ made. (image : List ℕ) → D.may_leave disk.new image → Loads image (Some made.0.life.stable)) }

        // It stands for the stage with which the model's life begins, and what goes out is what goes out there.
        ensures follows { IfOk result (λ made. (stored : Option ℕ) × IsHeld (D.seen disk.old) stored × IsOpened A.may_take (A.slots arms) config.now stored made.0 made.1 × FollowsOpening A.may_take (A.slots arms) config.now stored made.0 made.1) }

        // At each moment of the call an image that a crash may leave is one that it might have left as the call began, or it
        // loads the number that the disk held, or the one that the life saves first, which is the model's.
        ensures any_moment { LeavesOnly D.moment D.left_since disk.old disk.new (λ image. D.may_leave disk.old image ⊎ ((stored : Option ℕ) × IsHeld (D.seen disk.old) stored × LoadsAtOpening config.now stored image)) }
        ensures stops { LeavesOnly D.moment D.left_since disk.old disk.new (λ image. D.may_leave disk.old image ⊎ ((stored : Option ℕ) × IsHeld (D.seen disk.old) stored × ((number : ℕ) → LoadsAtStart (model_config config.now) (model_slots (A.slots arms)) number stored image))) }

        // Which answer comes, where no call of the disk failed.
        ensures whole { OnOk result (D.size disk.old ≡ 18) }
        ensures damaged { (count : ℕ) → result ≡ Err (fault.Damaged count) → (count ≡ D.size disk.old) × (D.size disk.old ≢ 18) }
        ensures spent { (number : ℕ) → result ≡ Err (fault.Spent number) → (D.size disk.old ≡ 18) × ((stored : Option ℕ) × IsHeld (D.seen disk.old) stored × IsSpent config.now stored number) }
        ensures no_memory { result ≡ Err fault.NoMemory → (D.size disk.old ≡ 18) × ((stored : Option ℕ) × (opened : Turned) × IsHeld (D.seen disk.old) stored × Opens config.now stored opened) }
        ensures fault { result ≡ Err fault.StoreFault → Rose (D.faults disk.old) (D.faults disk.new) }
        ensures later { D.faults disk.old ≤ D.faults disk.new }
        ensures size { D.size disk.new ≡ D.size disk.old }
    {
        let begun = begin_life(alloc, config, disk)?;
        Protocol::open(begun, Repeating::new(alloc, arms), disk)
    }

    // One turn by the functions of this crate. After an error the stage is down.
    fn take<D: Disk>(
        &mut self,
        item: Item,
        room: usize,
        disk: &mut D,
    ) -> Result<Listed<Act>, TurnFault>
        requires stands { self.old.down ≡ false → Stands self.old.cell (D.size disk.old) (D.seen disk.old) (D.may_leave disk.old) }
        ensures acts { IfOk result (λ acts. acts ≡ outward (turn self.old.life item room).acts) }
        ensures life { OnOk result (self.new.life ≡ (turn self.old.life item room).life) }
        ensures repeated { OnOk result (Repeats A.may_take (turn self.old.life item room).acts self.old.repeating self.new.repeating) }
        ensures up { OnOk result (self.new.down ≡ false) }
        ensures stands { OnOk result (Stands self.new.cell (D.size disk.new) (D.seen disk.new) (D.may_leave disk.new)) }
        ensures loads { OnOk result ((image : List ℕ) → D.may_leave disk.new image → Loads image (Some self.new.life.stable)) }
        ensures any_moment { self.old.down ≡ false → LeavesOnly D.moment D.left_since disk.old disk.new (LoadsOneOf (Some self.old.life.stable) (Some (turn self.old.life item room).life.stable)) }
        ensures untouched { (turn self.old.life item room).life.stable ≡ self.old.life.stable → disk.new ≡ disk.old }
        ensures down { result ≡ Err TurnFault.Down ↔ (self.old.down ≡ true) }
        ensures unchanged { self.old.down ≡ true → (self.new ≡ self.old) × (disk.new ≡ disk.old) }
        ensures failed { OnErr result (self.new.down ≡ true) }
        ensures fault { result ≡ Err TurnFault.StoreFault → Rose (D.faults disk.old) (D.faults disk.new) }
        ensures later { D.faults disk.old ≤ D.faults disk.new }
        ensures size { D.size disk.new ≡ D.size disk.old }
    {
        if self.down {
            return Err(TurnFault::Down);
        }
        let answer = self.parts.turn(item, room, disk);
        if answer.is_err() {
            self.down = true;
        }
        answer
    }

    /// One turn, which hands on at most `room` decisions. The answer is what goes out, in order, and the number that the life
    /// told to save is stable before that. After an error the stage is down.
    pub fn turn<D: Disk>(
        &mut self,
        item: Item,
        room: usize,
        disk: &mut D,
    ) -> Result<Listed<Act>, TurnFault>
        requires stands { self.old.down ≡ false → Stands self.old.cell (D.size disk.old) (D.seen disk.old) (D.may_leave disk.old) }
        ensures acts { IfOk result (λ acts. acts ≡ outward (turn self.old.life item room).acts) }
        ensures life { OnOk result (self.new.life ≡ (turn self.old.life item room).life) }
        ensures repeated { OnOk result (Repeats A.may_take (turn self.old.life item room).acts self.old.repeating self.new.repeating) }
        ensures up { OnOk result (self.new.down ≡ false) }
        ensures stands { OnOk result (Stands self.new.cell (D.size disk.new) (D.seen disk.new) (D.may_leave disk.new)) }
        ensures loads { OnOk result ((image : List ℕ) → D.may_leave disk.new image → Loads image (Some self.new.life.stable)) }

        // At each moment of the call each image that a crash may leave loads the stable number before the turn, or the one after.
        ensures any_moment { self.old.down ≡ false → LeavesOnly D.moment D.left_since disk.old disk.new (LoadsOneOf (Some self.old.life.stable) (Some (turn self.old.life item room).life.stable)) }

        // A turn that leaves the stable number as it was does not touch the disk. In EpochSS each turn is such a one.
        ensures untouched { (turn self.old.life item room).life.stable ≡ self.old.life.stable → disk.new ≡ disk.old }
        ensures epoch { self.old.life.config.mode ≡ mode.EpochSs → disk.new ≡ disk.old }

        // For each stage of the model for which this one stood, and to which the item may come: it stands for that after the
        // model's turn, and what goes out is what goes out there. At each moment of the call each image that a crash may leave
        // loads the model's stable number before the turn, or the one after.
        ensures follows { IfOk result (λ out. FollowsTurn A.may_take item room self.old out self.new) }
        ensures stops { (s : Stage) (i : ModelItem) → Lives s self.old → Comes s i → item_of i ≡ item → LeavesOnly D.moment D.left_since disk.old disk.new (LoadsAtTurn s i room) }
        ensures down { result ≡ Err TurnFault.Down ↔ (self.old.down ≡ true) }
        ensures unchanged { self.old.down ≡ true → (self.new ≡ self.old) × (disk.new ≡ disk.old) }
        ensures failed { OnErr result (self.new.down ≡ true) }
        ensures fault { result ≡ Err TurnFault.StoreFault → Rose (D.faults disk.old) (D.faults disk.new) }
        ensures later { D.faults disk.old ≤ D.faults disk.new }
        ensures size { D.size disk.new ≡ D.size disk.old }
    {
        self.take(item, room, disk)
    }

    pub fn alloc(&self) -> Global {
        self.parts.life.alloc()
    }

    pub fn phase(&self) -> Phase
        ensures { result ≡ self.now.life.phase }
    {
        self.parts.life.phase
    }

    pub fn view(&self) -> View
        ensures { result ≡ self.now.life.view }
    {
        self.parts.life.view
    }

    pub fn mark(&self) -> Mark
        ensures { result ≡ self.now.life.mark }
    {
        self.parts.life.mark
    }

    /// The next instance of a Prepared leader's own, `None` exactly where the life is not Prepared.
    pub fn next(&self) -> Option<Instance>
        ensures { result ≡ next_of self.now.life.proposer.leading }
    {
        self.parts.life.proposer.next()
    }
}

impl Protocol<Slots> {
    /// The generation and the message of a slot, `None` exactly where it is not live. Nothing changes.
    pub fn claim(&mut self, slot: u16) -> Option<Lent<'_>>
        ensures* kept { sem 𝓛 (KeepsRunning self.entry) }
        ensures lent { lent_of result ≡ claim_of self.old.repeating.slots slot }
    {
        self.lent(slot)
    }

    /// The same as a claim, over a stage that is only read.
    pub fn lent(&self, slot: u16) -> Option<Lent<'_>>
        ensures { lent_of result ≡ claim_of self.now.repeating.slots slot }
    {
        self.parts.repeating.lent(slot)
    }

    /// The first live slot from `cursor` on, going round over all slots.
    pub fn next_live(&self, cursor: u16) -> Option<u16>
        ensures { result ≡ next_live self.now.repeating.slots cursor }
    {
        self.parts.repeating.next_live(cursor)
    }
}

#[cfg(test)]
mod tests {
    use super::*;
    use crate::drawn_items::{Draws, batch};
    use jp_types::message::{Accept, Message, PrepareOk, ReplicaId, Report};
    use jp_types::mode::Mode;
    use jp_types::views::NUMBER_LIMIT;
    use retransmitter::outgoing::Outgoing;
    use stable_store::failing::FailingDisk;
    use stable_store::memory::MemoryDisk;
    use std::test::Fail;

    /// A gate byte that is open.
    const OPEN: u8 = 0xA5;

    /// A stage with its disk.
    #[derive(Drop)]
    struct Node<D: Disk + Drop> {
        stage: Protocol<Slots>,
        disk: D,
        ghost tied: { stage.down ≡ false → Stands stage.cell (D.size disk) (D.seen disk) (D.may_leave disk) },
    }

    impl<D: Disk + Drop> Node<D> {
        fn turn(&mut self, item: Item) -> Result<Listed<Act>, TurnFault> {
            self.stage.turn(item, 64, &mut self.disk)
        }

        fn claimed(&mut self, slot: u16) -> Option<(u64, &'static str)> {
            claimed(&mut self.stage, slot)
        }
    }

    fn config(mode: Mode, me: ReplicaId) -> Config {
        Config {
            n: 3,
            me: me.min(2),
            mode,
            window: 4,
        }
    }

    fn start<D: Disk>(
        alloc: Global,
        mode: Mode,
        me: ReplicaId,
        disk: &mut D,
    ) -> Result<(Protocol<Slots>, Listed<Act>), StartFault>
        ensures { IfOk result (λ made. Stands made.0.cell (D.size disk.new) (D.seen disk.new) (D.may_leave disk.new)) }
    {
        Protocol::start(alloc, &config(mode, me), Slots::new(alloc)?, disk)
    }

    /// A stage that starts, with its disk, and what goes out first.
    fn started<D: Disk + Drop>(
        alloc: Global,
        mode: Mode,
        me: ReplicaId,
        disk: D,
    ) -> Result<(Node<D>, Listed<Act>), Fail> {
        let mut disk = disk;
        match start(alloc, mode, me, &mut disk) {
            Ok((stage, out)) => Ok((Node { stage, disk }, out)),
            Err(_) => Err(Fail::new("a stage starts")),
        }
    }

    /// The bytes of a disk that holds this number, or none.
    fn bytes_of(number: Option<u64>) -> [u8; 18] {
        let mut bytes = [0; 18];
        if let Some(number) = number {
            bytes[..8].copy_from_slice(&number.to_be_bytes());
            bytes[8] = OPEN;
        }
        bytes
    }

    fn memory(alloc: Global, number: Option<u64>) -> Result<MemoryDisk, NoMemory> {
        Ok(MemoryDisk::new(bytes_of(number).to_vec(alloc)?))
    }

    fn failing(
        alloc: Global,
        number: Option<u64>,
        calls: &[u64],
        stop: u64,
    ) -> Result<FailingDisk, NoMemory> {
        FailingDisk::new(bytes_of(number).to_vec(alloc)?, calls.to_vec(alloc)?, stop)
    }

    /// The number that a disk of these bytes holds.
    fn loaded(bytes: Vec<u8>) -> Result<Option<u64>, CellFault> {
        Ok(Cell::load(&mut MemoryDisk::new(bytes))?.1)
    }

    fn kind(outgoing: &Outgoing) -> &'static str {
        match outgoing.message {
            Message::Prepare(_) => "prepare",
            Message::Propose(_) => "propose",
            Message::Recovery(_) => "recovery",
            Message::CatchUpQuery(_) => "query",
            _ => "another",
        }
    }

    fn claimed(stage: &mut Protocol<Slots>, slot: u16) -> Option<(u64, &'static str)>
        ensures { stage.new ≡ stage.old }
    {
        let lent = stage.claim(slot)?;
        Some((lent.generation, kind(lent.outgoing)))
    }

    fn promise(alloc: Global) -> Message {
        Message::PrepareOk(PrepareOk {
            view: 0,
            mark: 0,
            vector: [0; 9],
            low: 0,
            report: Report::empty(alloc),
        })
    }

    /// The leader of view 0 becomes Prepared, proposes, learns, hears of an instance that it lacks, and enters view 3.
    fn leading_items(alloc: Global) -> Result<[Item; 6], NoMemory> {
        let from = 1;
        let instance = 0;
        Ok([
            Item::Message {
                from,
                message: promise(alloc),
            },
            Item::Batch(batch(alloc, 1)?),
            Item::Message {
                from,
                message: Message::Accept(Accept { view: 0, instance }),
            },
            Item::Message {
                from,
                message: Message::Accept(Accept {
                    view: 0,
                    instance: 5,
                }),
            },
            Item::Tick,
            Item::Suspect,
        ])
    }

    #[test]
    fn armed_messages_are_claimed(rt: HostRuntime) -> Result<(), Fail> {
        let alloc = rt.alloc();
        let (mut node, out) = started(alloc, Mode::ViewSs, 0, memory(alloc, None)?)?;
        assert_eq!(rt; out.as_slice().len(), 4);
        assert_eq!(rt; node.claimed(0), Some((1, "prepare")));

        // how many acts go out, what slot 0 repeats, and the next instance
        let wanted = [
            (1, None, Some(0)),
            (4, Some((2, "propose")), Some(1)),
            (2, None, Some(1)),
            (0, None, Some(1)),
            (3, Some((3, "query")), Some(1)),
            (4, Some((3, "query")), None),
        ];
        for (item, want) in leading_items(alloc)?.into_iter().zip(wanted) {
            let Ok(out) = node.turn(item) else {
                return Err(Fail::new("a turn answers acts"));
            };
            let told = (out.as_slice().len(), node.claimed(0), node.stage.next());
            assert_eq!(rt; told, want);
        }
        assert_eq!(rt; node.stage.next_live(1), Some(1));
        assert_eq!(rt; node.claimed(1), Some((1, "prepare")));
        assert_eq!(rt; (node.stage.view(), node.stage.mark()), (3, 0));
        assert_eq!(rt; loaded(node.disk.bytes().to_vec(alloc)?), Ok(Some(3)));
        Ok(())
    }

    #[test]
    fn some_stages_do_not_start(rt: HostRuntime) -> Result<(), Fail> {
        let alloc = rt.alloc();
        let last = NUMBER_LIMIT;
        for mode in [Mode::ViewSs, Mode::EpochSs] {
            let mut disk = memory(alloc, Some(last))?;
            let fault = start(alloc, mode, 1, &mut disk).err();
            assert_eq!(rt; fault, Some(StartFault::Spent(last)));
            assert_eq!(rt; disk.bytes(), bytes_of(Some(last)).as_slice());
            let mut short = MemoryDisk::new([0; 17].to_vec(alloc)?);
            let fault = start(alloc, mode, 1, &mut short).err();
            assert_eq!(rt; fault, Some(StartFault::Damaged(17)));
        }
        Ok(())
    }

    /// The calls are 3 of the load, then a sync and two writes of two calls each of the save.
    #[test]
    fn a_stop_at_the_start_leaves_the_old_number_or_the_new_one(
        rt: HostRuntime,
    ) -> Result<(), Fail> {
        let alloc = rt.alloc();
        for (number, mark) in [(None, 1u64), (Some(6), 7)] {
            for stop in 0u64..=8 {
                for fill in [0, 0xFF, OPEN] {
                    let mut disk = failing(alloc, number, &[], stop)?;
                    let fault = start(alloc, Mode::EpochSs, 1, &mut disk).err();
                    let want = if stop < 8 {
                        Some(StartFault::StoreFault)
                    } else {
                        None
                    };
                    assert_eq!(rt; fault, want, "stop at {stop}");
                    let is_new = stop == 8 || fill == OPEN && stop >= 6;
                    let held = if is_new { Some(mark) } else { number };
                    assert_eq!(rt;
                        loaded(disk.crash(fill)),
                        Ok(held),
                        "stop at {stop}, {fill}"
                    );
                }
            }
        }
        Ok(())
    }

    /// A stage over a disk of which one call fails, or each from one on. Its start is 8 calls.
    fn failing_node(alloc: Global, calls: &[u64], stop: u64) -> Result<Node<FailingDisk>, Fail> {
        let disk = failing(alloc, None, calls, stop)?;
        Ok(started(alloc, Mode::ViewSs, 1, disk)?.0)
    }

    /// The calls of the turn are the 5 of a save.
    #[test]
    fn a_stop_in_a_turn_leaves_the_old_view_or_the_new_one(rt: HostRuntime) -> Result<(), Fail> {
        let alloc = rt.alloc();
        for stop in 8u64..=13 {
            for fill in [0, 0xFF, OPEN] {
                let mut node = failing_node(alloc, &[], stop)?;
                let fault = node.turn(Item::Suspect).err();
                let want = if stop < 13 {
                    Some(TurnFault::StoreFault)
                } else {
                    None
                };
                assert_eq!(rt; fault, want, "stop at {stop}");
                let after = node.turn(Item::Tick).err();
                let down = if stop < 13 {
                    Some(TurnFault::Down)
                } else {
                    None
                };
                assert_eq!(rt; after, down, "after the stop at {stop}");
                let is_new = stop == 13 || fill == OPEN && stop >= 11;
                let held = if is_new { Some(1) } else { Some(0) };
                assert_eq!(rt;
                    loaded(node.disk.crash(fill)),
                    Ok(held),
                    "stop at {stop}, {fill}"
                );
            }
        }
        Ok(())
    }

    #[test]
    fn a_failure_in_a_turn_leaves_the_stage_down(rt: HostRuntime) -> Result<(), Fail> {
        let alloc = rt.alloc();
        for call in 8u64..13 {
            let mut node = failing_node(alloc, &[call], u64::MAX)?;
            for want in [TurnFault::StoreFault, TurnFault::Down, TurnFault::Down] {
                assert_eq!(rt;
                    node.turn(Item::Suspect).err(),
                    Some(want),
                    "failure at {call}"
                );
            }
            let bytes = node.disk.crash(0);
            let held = loaded(bytes);
            assert!(rt;
                held == Ok(Some(0)) || held == Ok(Some(1)),
                "failure at {call}"
            );
        }
        Ok(())
    }

    fn goes_out(act: &Act) -> bool {
        match act {
            Act::Step(_) => true,
            Act::Send { .. } => true,
            Act::Hand(_) => true,
            _ => false,
        }
    }

    #[test]
    fn no_item_stops_a_stage(rt: HostRuntime) -> Result<(), Fail> {
        let alloc = rt.alloc();
        let mut draws = Draws::new(alloc, 7);
        for (mode, me, number) in [
            (Mode::ViewSs, 0u8, None),
            (Mode::EpochSs, 1, None),
            (Mode::ViewSs, 2, Some(0)),
            (Mode::EpochSs, 0, Some(1)),
        ] {
            let (mut node, _out) = started(alloc, mode, me, memory(alloc, number)?)?;
            for turn in 0..400 {
                let item = draws.item(me)?;
                match node.turn(item) {
                    Ok(out) => assert!(rt; out.as_slice().iter().all(goes_out)),
                    Err(fault) => assert_eq!(rt; fault, TurnFault::NoMemory, "turn {turn}"),
                }
            }
        }
        Ok(())
    }
}
