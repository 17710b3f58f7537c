ghost use Rattle.std.specs.Prelude.{◌≡◌};

use crate::state::State;

/// A machine that has stopped: it can only be asked how it stands.
// A type beside `Live`, though alike, so that a program that steps a stopped machine does not compile.
#[derive(Drop)]
pub struct Stopped {
    pub(crate) state: State,
}

impl Stopped {
    pub fn state(&self) -> State
        ensures { result ≡ self.now.state }
    {
        self.state
    }
}
