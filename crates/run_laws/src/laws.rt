//! Runs of the code beside those of the model.

ghost use Rattle.run_laws.specs.Laws.{DrawnAlike, DrawnPastAlike, DrawnWithin, RunsAlike, RunsPastAlike};

/// A run of a schedule, each replica on a machine of its own, is the one that the model gives: the same events and the
/// same last states. Where its frames pass the limit, those of the model's run do.
pub fn runs_are_the_models()
    ensures run { RunsAlike }
    ensures past { RunsPastAlike }
{}

/// A schedule that is drawn line by line, each with the run's state at that point, is the one that the model draws. Where
/// what is drawn sends too much, the model's run does. And what the model draws is within the limits.
pub fn drawn_runs_are_the_models()
    ensures drawn { DrawnAlike }
    ensures past { DrawnPastAlike }
    ensures within { DrawnWithin }
{}
