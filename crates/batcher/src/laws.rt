//! What holds of the batches that a list of requests and ticks is cut into.

ghost use Rattle.std.specs.Prelude.{◌≡◌, ◌∷◌, [], ◌++◌, List};
ghost use Rattle.std.specs.List.{AllByRecursion};
ghost use Rattle.jp_types.specs.declared.command.Request.{Request};
ghost use Rattle.batcher.specs.declared.fed.Fed.{Fed};
ghost use Rattle.batcher.specs.Cut.{Fits, IsNotEmpty, IsShort, IsWithinLimits, cut, held_after, is_closed_by, requests_in, requests_of, with_closed};

/// However a list of requests and ticks is cut: the closed batches and then the held one are all its requests, in
/// order; where each request fits a batch of its own, each of these batches is within the limits; no closed batch is
/// empty; and with one item more the batches are those of one more turn.
pub fn batches_are_the_requests_in_order()
    ensures whole { (feds : List Fed) → requests_in (cut feds).0 ++ (cut feds).1 ≡ requests_of feds }
    ensures closed_within { (feds : List Fed) → AllByRecursion Fits feds → AllByRecursion IsWithinLimits (cut feds).0 }
    ensures held_within { (feds : List Fed) → AllByRecursion Fits feds → IsWithinLimits (cut feds).1 }
    ensures not_empty { (feds : List Fed) → AllByRecursion IsNotEmpty (cut feds).0 }
    ensures closed_by_turns { (feds : List Fed) (next : Fed) → (cut (feds ++ next ∷ [])).0 ≡ (cut feds).0 ++ with_closed (is_closed_by (cut feds).1 next) (cut feds).1 [] }
    ensures held_by_turns { (feds : List Fed) (next : Fed) → (cut (feds ++ next ∷ [])).1 ≡ held_after (is_closed_by (cut feds).1 next) (cut feds).1 next }
{}

/// A request of which no part passes its own limit fits a batch of its own.
pub fn short_requests_fit()
    ensures { (request : Request) → IsShort request.command → Fits (Fed.Request request) }
{}
