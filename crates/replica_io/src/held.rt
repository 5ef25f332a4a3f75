//! The link of a stage.

ghost use Rattle.std.specs.Prelude.{◌≡◌};
ghost use Rattle.std.specs.Option.{option_copied};
ghost use Rattle.replica_io.specs.Turns.{link_of};

/// The link of a stage.
#[derive(Debug, Drop)]
pub enum Held<L> {
    /// There is none.
    Nothing,
    /// It stands, and the next turn uses it.
    Standing(L),
    /// It was given up in the last turn. It is kept until the next one, so that its counts can be read.
    GivenUp(L),
}

impl<L> Held<L> {
    /// The link, if there is one.
    pub fn link(&self) -> Option<&L>
        ensures { option_copied result ≡ link_of self.now }
    {
        match self {
            Held::Nothing => None,
            Held::Standing(link) | Held::GivenUp(link) => Some(link),
        }
    }
}
