//! The laws of every schedule's run.

ghost use Rattle.std.specs.Prelude.{◌≡◌, ℕ, List, Ok};
ghost use Rattle.schedules.specs.declared.schedule.Schedule.{Schedule};
ghost use Rattle.schedules.specs.Schedule.{read_schedule};
ghost use Rattle.cluster_laws.specs.Laws.{IsSchedule, WorldRun, WorldSame, AllShown, OneList, StatesListed, KnownSame, ListIsChosen, OneIsChosen, KnownIsChosen, IsTold, AtMostOnce, ExecutesOnceIn, Replies, FirstShowsNone, RecoveringIsSilent, Rejoins, RejoinsDue};

/// The steps of a schedule's run are a run of the world, and after each line the cluster's messages, lives and stable numbers are the world's.
pub fn world_run()
    ensures run { (s : Schedule) → IsSchedule s → WorldRun s }
    ensures same { (s : Schedule) → IsSchedule s → WorldSame s }
{}

/// What each line shows are its steps of the world, and its Send steps are the messages that these add, numbered in order.
pub fn steps_shown()
    ensures { (s : Schedule) → IsSchedule s → AllShown s }
{}

/// After every event the service of each running replica is the sequential one after a prefix of the one list of the whole run, so is each state that it had or installed, and an instance is known with at most one batch.
pub fn one_list()
    ensures stand { (s : Schedule) → IsSchedule s → OneList s }
    ensures states { (s : Schedule) → IsSchedule s → StatesListed s }
    ensures known { (s : Schedule) → IsSchedule s → KnownSame s }
{}

/// The one list is the list of the batches that are chosen by the votes of the run, up to the first instance that is not
/// chosen; an instance is chosen with one batch alone; and what a replica knows is chosen.
pub fn list_is_chosen()
    ensures list { (s : Schedule) → IsSchedule s → ListIsChosen s }
    ensures one { (s : Schedule) → IsSchedule s → OneIsChosen s }
    ensures known { (s : Schedule) → IsSchedule s → KnownIsChosen s }
{}

/// The run of a schedule has one event a line, in order, which is what happens at that line, and ends with what runs then.
pub fn run_is_told()
    ensures { (s : Schedule) → IsTold s }
{}

/// Over the one list each client's number is First once at most, and a life executes an instance once at most.
pub fn at_most_once()
    ensures first { (s : Schedule) → AtMostOnce s }
    ensures life { (s : Schedule) → IsSchedule s → ExecutesOnceIn s }
{}

/// The outcomes of an execution are the sequential service's at that place of the one list.
pub fn replies()
    ensures shown { (s : Schedule) → IsSchedule s → Replies s }
    ensures first { (s : Schedule) → IsSchedule s → FirstShowsNone s }
{}

/// A Recovering life enters no view, begins no phase 1, promises, launches, votes and answers nothing, and does not become Prepared.
pub fn recovering_is_silent()
    ensures { (s : Schedule) → IsSchedule s → RecoveringIsSilent s }
{}

/// A life rejoins only where the condition of Rejoin holds, and after each line it holds of no life that runs: so each life rejoins as soon as it holds.
pub fn rejoins_exactly()
    ensures met { (s : Schedule) → IsSchedule s → Rejoins s }
    ensures due { (s : Schedule) → IsSchedule s → RejoinsDue s }
{}

/// A schedule that is read is one that the laws above speak of.
pub fn reads_within_limits()
    ensures { (input : List ℕ) (s : Schedule) → read_schedule input ≡ Ok s → IsSchedule s }
{}
