ghost use Rattle.std.specs.Prelude.{◌≡◌, ◌+◌};
ghost use Rattle.cli.specs.Counts.{counted};

use std::fmt;

/// What became of one message.
#[derive(Clone, Copy)]
pub(crate) enum Outcome {
    Sound,
    Refused,
    Error,
}

/// How many messages came to what.
#[derive(Clone, Copy, Default)]
pub(crate) struct Tally {
    pub(crate) sound: u64,
    pub(crate) refused: u64,
    pub(crate) errors: u64,
}

impl Tally {
    pub(crate) fn add(&mut self, outcome: Outcome)
        ensures { self.new ≡ counted self.old outcome }
    {
        match outcome {
            Outcome::Sound => self.sound = self.sound.saturating_add(1),
            Outcome::Refused => self.refused = self.refused.saturating_add(1),
            Outcome::Error => self.errors = self.errors.saturating_add(1),
        }
    }

    // Wide enough for any three counts.
    pub(crate) fn messages(&self) -> u128
        ensures { result ≡ self.now.sound + self.now.refused + self.now.errors }
    {
        u128::from(self.sound) + u128::from(self.refused) + u128::from(self.errors)
    }
}

impl fmt::Display for Tally {
    fn fmt<W: fmt::Write>(&self, f: &mut fmt::Formatter<W>) -> fmt::Result {
        let messages = self.messages();
        let sound = self.sound;
        let refused = self.refused;
        let errors = self.errors;
        write!(
            f,
            "{messages} messages: {sound} sound, {refused} refused, {errors} errors"
        )
    }
}
