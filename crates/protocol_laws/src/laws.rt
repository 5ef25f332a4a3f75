//! The turn of a life, and how it begins, beside those of the model.

ghost use Rattle.protocol_laws.specs.Laws.{TurnsAlike, OpeningsAlike};

/// A life that is that of a stage is that of the stage after a turn, and its acts are those of the turn, in order; they
/// leave armed what the stage has armed.
pub fn turns_follow_the_model()
    ensures { TurnsAlike }
{}

/// A life begins exactly where a stage does, and as it does.
pub fn openings_follow_the_model()
    ensures { OpeningsAlike }
{}
