//! What a turn of the model shows, sends and hands on, and that it does no more of that kind.

ghost use Rattle.step_laws.specs.Laws.{AnswersExactly, CountsQuietExactly, EntersExactly, HandedExactly, HandsOnExactly, InstallsExactly, LaunchesExactly, LearnsExactly, PreparedExactly, PromisesExactly, RejoinsExactly, RepeatsExactly, RepeatsOnly, SavesExactly, SendsExactly, ShowsNoOther, VotesExactly, WaitsExactly};

/// A turn enters exactly the view that its item makes it enter, if there is one: by a message of a higher view from its leader,
/// in ViewSS by a recovery, by a suspicion, or by the last tick that it waits for its leader.
pub fn turns_enter_exactly()
    ensures { EntersExactly }
{}

/// A turn promises exactly the view that it enters, to itself where it leads it, and a view to the leader that asks for it.
pub fn turns_promise_exactly()
    ensures { PromisesExactly }
{}

/// A turn answers exactly a recovery that a Working stage takes, with the view that it is then in.
pub fn turns_answer_exactly()
    ensures { AnswersExactly }
{}

/// A turn rejoins exactly where the condition of Rejoin holds after its item.
pub fn turns_rejoin_exactly()
    ensures { RejoinsExactly }
{}

/// A turn becomes Prepared exactly where the condition of Prepared holds after its item, and once.
pub fn turns_are_prepared_exactly()
    ensures { PreparedExactly }
{}

/// A turn launches exactly the adopted batches as it becomes Prepared, and then the waiting ones that have a place, in order.
pub fn turns_launch_exactly()
    ensures { LaunchesExactly }
{}

/// A turn votes exactly on a proposal of the leader of its view that it may vote on, and with each launch.
pub fn turns_vote_exactly()
    ensures { VotesExactly }
{}

/// A turn learns exactly what its item makes it learn: by votes, with which the tally of an instance has a batch and a majority,
/// or by known batches that came; and what the counted reports have as decided as it becomes Prepared.
pub fn turns_learn_exactly()
    ensures { LearnsExactly }
{}

/// A turn installs exactly the state of which its item is the last part.
pub fn turns_install_exactly()
    ensures { InstallsExactly }
{}

/// A turn hands on at most as many decisions as there is room for, while there is a next one, from where the turn before left
/// off. What was handed on then lies below the place behind the last of them.
pub fn turns_hand_on_exactly()
    ensures decisions { HandsOnExactly }
    ensures place { HandedExactly }
{}

/// A turn sends exactly what its item makes it send, and the proposal of each launch.
pub fn turns_send_exactly()
    ensures { SendsExactly }
{}

/// The Retransmitter sends exactly the message of the first live slot from its cursor on. It shows no step, and leaves the stage
/// as it was.
pub fn repeats_send_exactly()
    ensures sent { RepeatsExactly }
    ensures only { RepeatsOnly }
{}

/// A turn saves exactly the view that it enters, where the disk holds a lower number, and the one in which it rejoins, where
/// that is above the mark; and both in ViewSS alone.
pub fn turns_save_exactly()
    ensures { SavesExactly }
{}

/// A turn shows no step of another kind than those of which the laws above speak.
pub fn turns_show_no_other()
    ensures { ShowsNoOther }
{}

/// After a turn exactly those batches wait that waited before it or came, less those that it dropped in another leader's view,
/// and less those that it launched.
pub fn turns_keep_waiting_exactly()
    ensures { WaitsExactly }
{}

/// A turn counts the ticks without the leader exactly as its item says, and anew in a view that it enters or rejoins in.
pub fn turns_count_quiet_exactly()
    ensures { CountsQuietExactly }
{}
