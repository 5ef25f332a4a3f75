//! The law that each request was asked for.

ghost use Rattle.schedules.specs.declared.schedule.Schedule.{Schedule};
ghost use Rattle.cluster_laws.specs.Laws.{IsSchedule};
ghost use Rattle.request_laws.specs.Laws.{ListIsAsked, KnownIsAsked, StoresAreAsked, StatesAreAsked};

/// Each request of the one list was asked for by a `request` line of the schedule that was answered `done`. What a replica knows
/// after some lines has only requests for which these lines asked, and so have those batches of the one list that led to its
/// store by then, and to each state that its service had or that it installed.
pub fn requests_are_asked()
    ensures list { (s : Schedule) → IsSchedule s → ListIsAsked s }
    ensures known { (s : Schedule) → IsSchedule s → KnownIsAsked s }
    ensures stores { (s : Schedule) → IsSchedule s → StoresAreAsked s }
    ensures states { (s : Schedule) → IsSchedule s → StatesAreAsked s }
{}
