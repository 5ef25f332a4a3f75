//! Whether a replica leads a view.

ghost use Rattle.std.specs.Prelude.{◌≡◌};
ghost use Rattle.proposer_core.specs.Adoption.{prepared_at};
ghost use Rattle.proposer_core.specs.Proposing.{is_awaited, next_of, view_of};

use jp_types::message::{Instance, Mark, PrepareOk, View};

/// Whether a replica leads a view: no; it is in phase 1 of it; it is Prepared in it.
#[derive(Clone, Copy, Debug, PartialEq, Eq)]
pub enum Leading {
    No,
    Preparing {
        view: View,
        /// The first instance that the promises are asked about.
        first: Instance,
        /// The mark of the life that asks.
        mark: Mark,
    },
    Prepared {
        view: View,
        /// The instance for the next batch that is offered.
        next: Instance,
    },
}

impl Leading {
    /// Whether a promise is for the phase 1 that is under way.
    pub fn is_awaited(&self, promise: &PrepareOk) -> bool
        ensures { result ≡ is_awaited self.now promise.now }
    {
        match *self {
            Leading::Preparing { view, mark, .. } => promise.view == view && promise.mark == mark,
            _ => false,
        }
    }

    // Prepared in the view of the phase 1 that is under way.
    pub fn prepared(&self, next: Instance) -> Leading
        ensures { result ≡ prepared_at self.now next }
    {
        match *self {
            Leading::Preparing { view, .. } => Leading::Prepared { view, next },
            other => other,
        }
    }

    /// The instance for the next batch, where it is Prepared.
    pub fn next(&self) -> Option<Instance>
        ensures { result ≡ next_of self.now }
    {
        match *self {
            Leading::Prepared { next, .. } => Some(next),
            _ => None,
        }
    }

    /// The view that it leads, in phase 1 of it or Prepared.
    pub fn view(&self) -> Option<View>
        ensures { result ≡ view_of self.now }
    {
        match *self {
            Leading::No => None,
            Leading::Preparing { view, .. } => Some(view),
            Leading::Prepared { view, .. } => Some(view),
        }
    }
}
