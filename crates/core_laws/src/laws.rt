//! What holds of the cores of a replica beside the stage of the model.

ghost use Rattle.core_laws.specs.LogLaws.{LogsAreRead, LogsAreKept};
ghost use Rattle.core_laws.specs.AcceptLaws.{AcceptsAlike, AnswersAlike};
ghost use Rattle.core_laws.specs.RejoinLaws.{RejoinsAlike, AnswersAreKept};
ghost use Rattle.core_laws.specs.KeptLaws.{ProposersAreKept, LaunchesAreKept, AnsweringIsKept, OthersAreKept, CountsAlike};
ghost use Rattle.core_laws.specs.StartLaws.{StartsKept};
ghost use Rattle.core_laws.specs.LaunchLaws.{LaunchesAsTheModel};
ghost use Rattle.core_laws.specs.PrepareLaws.{PromisesAreKept, PreparesAsTheModel, OffersAlike};

/// A log that keeps what a stage has from its base on gives the stage's span, known instances, first undecided instance,
/// reports, full tallies and replies to queries; and it still keeps what the stage has after both were changed alike.
pub fn logs_keep_the_stage()
    ensures read { LogsAreRead }
    ensures kept { LogsAreKept }
{}

/// What an acceptor does with a Propose and an Accept is what the turn of the model does with them, once it has raised
/// its view.
pub fn acceptors_follow_the_turn()
    ensures { AcceptsAlike }
{}

/// The promises that a proposer holds and counts are those that the life holds and counts by what it took. So it becomes
/// Prepared exactly where the model does, with the same `next` and the same launches, and a batch that is offered has the
/// place that the model has for the next one.
pub fn proposers_follow_the_turn()
    ensures kept { PromisesAreKept }
    ensures prepared { PreparesAsTheModel }
    ensures offered { OffersAlike }
    ensures launched { LaunchesAsTheModel }
{}

/// The answers that a life that recovers holds and counts are those of the model, so it rejoins exactly where the model
/// does, and with the same view.
pub fn rejoiners_follow_the_turn()
    ensures kept { AnswersAreKept }
    ensures rejoins { RejoinsAlike }
{}

/// As a life begins, each core as it is made keeps what the stage has.
pub fn cores_begin_with_the_stage()
    ensures { StartsKept }
{}

/// What is kept stays kept: a proposer as its life enters a view, begins phase 1, becomes Prepared and launches; a log as a
/// batch is launched; the vector and what is held as a recovery is answered, and as any other message is taken.
pub fn cores_stay_with_the_stage()
    ensures proposers { ProposersAreKept }
    ensures launches { LaunchesAreKept }
    ensures answering { AnsweringIsKept }
    ensures others { OthersAreKept }
{}

/// What is counted of a replica is what the life counts of it.
pub fn counting_is_the_models()
    ensures { CountsAlike }
{}

/// The promise that answers a Prepare, and what answers a query, are the model's.
pub fn answers_are_the_models()
    ensures { AnswersAlike }
{}
