//! The laws of the model, each over every run.

ghost use Rattle.std.specs.Prelude.{ℕ};
ghost use Rattle.paxos_world.specs.Setup.{Setup};
ghost use Rattle.paxos_world.specs.Life.{Life};
ghost use Rattle.paxos_world.specs.Counting.{ok_vectors, answer_vectors, CoversOks, CoversAnswers};
ghost use Rattle.jp_types.specs.Vectors.{IsCrashConsistent};
ghost use Rattle.paxos_world.specs.Trace.{Trace};
ghost use Rattle.paxos_world.specs.Laws.{RejoinsAreSeen, CountedComeBack, ReturnedComeBack, OnePrepared, OneBatch, ChosenAreAdopted, OneChosen, KnownAreChosen, SomeRunChooses, SomeRunAdopts, CountedAreConsistent, SentToOthers, LeadersLead};
ghost use Rattle.paxos_world.specs.Served.{AllStand, ListedRunsStand, ListIsChosen, ExecutesOnce, AllExecuteListed, RecoveringAreSilent, FirstOnce};

/// In EpochSS, if a rejoin counted an answer of a replica, each later life of that replica that rejoins has by then an entry of at least the first one's mark.
pub fn rejoins_are_seen()
    ensures { (run : Trace) → RejoinsAreSeen run }
{}

/// A life rejoins at or above the view of each Prepared step that counted an earlier life of its replica, or that came before its return.
pub fn come_back()
    ensures counted { (run : Trace) → CountedComeBack run }
    ensures returned { (run : Trace) → ReturnedComeBack run }
{}

/// A view has at most one Prepared step, and at most one batch for each instance.
pub fn one_per_view()
    ensures prepared { (run : Trace) → OnePrepared run }
    ensures batch { (run : Trace) → OneBatch run }
{}

/// A life that becomes Prepared adopts, or knows, each batch that is chosen in a lower view of the whole run.
pub fn chosen_are_adopted()
    ensures { (run : Trace) → ChosenAreAdopted run }
{}

/// An instance is chosen with at most one batch, and each known batch is chosen.
pub fn agreement()
    ensures one { (run : Trace) → OneChosen run }
    ensures known { (run : Trace) → KnownAreChosen run }
{}

/// Each service state that a life has, had or installed is the sequential service's after a prefix of the one list of chosen batches.
pub fn stand_on_one_list()
    ensures all { (run : Trace) → AllStand run }
    ensures listed { ListedRunsStand }
{}

/// The list that is computed from the votes of a run's steps is the list of chosen batches, up to the first instance that is not chosen.
pub fn list_is_chosen()
    ensures { ListIsChosen }
{}

/// The replies that a life counts are crash-consistent wherever its own entries are at least those of the replies that it holds, and so in every run.
pub fn counted_are_consistent()
    ensures oks { (c : Setup) (r : ℕ) (l : Life) → CoversOks c r l → IsCrashConsistent (ok_vectors c r l) }
    ensures answers { (c : Setup) (r : ℕ) (l : Life) → CoversAnswers c r l → IsCrashConsistent (answer_vectors c r l) }
    ensures runs { (run : Trace) → CountedAreConsistent run }
{}

/// What a life executes is the list's batch at that place, each instance once at most, and a client's number is First at one place at most.
pub fn execution()
    ensures listed { (run : Trace) → AllExecuteListed run }
    ensures once { (run : Trace) → ExecutesOnce run }
    ensures first { FirstOnce }
{}

/// No message is sent to its sender; Prepare, Propose and Alive come from their view's leader, and PrepareOk goes to it.
pub fn senders()
    ensures others { (run : Trace) → SentToOthers run }
    ensures leaders { (run : Trace) → LeadersLead run }
{}

/// A Recovering life enters no view, begins no phase 1, promises, launches, votes and answers nothing, and does not become Prepared.
pub fn recovering_are_silent()
    ensures { (run : Trace) → RecoveringAreSilent run }
{}

/// In each mode the steps' conditions can be met: some run chooses a batch and has a second life rejoin, and in ViewSS one chooses it again in the next view.
pub fn runs_exist()
    ensures chooses { SomeRunChooses }
    ensures adopts { SomeRunAdopts }
{}
