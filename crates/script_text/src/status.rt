//! How a run of a program ended.

ghost use Rattle.std.specs.Prelude.{◌≡◌};
ghost use Rattle.script_text.specs.Statuses.{number_of};

/// How a run ended.
#[derive(Clone, Copy, Debug, PartialEq, Eq)]
pub enum Status {
    /// The run's text was written.
    Done,
    /// The words ask for no run; the usage line was written.
    Usage,
    /// A line of the script breaks a rule; the line and the rule were written.
    Script,
    /// The source failed. Nothing was written.
    Read,
    /// The sink failed. It holds a part of what was to be written.
    Write,
    /// There was no memory for the words, the input, the run's room or the text. Nothing was written.
    Memory,
    /// The given order can't be followed; the item and what was answered before it by no rule were written.
    Order,
    /// The two chunks that a database is opened with have one address; it and both byte strings were written.
    Collision,
}

impl Status {
    /// The status that the process ends with.
    pub fn number(self) -> u8
        ensures { result ≡ number_of self }
    {
        match self {
            Status::Done => 0,
            Status::Usage => 1,
            Status::Script => 2,
            Status::Read => 3,
            Status::Write => 4,
            Status::Memory => 5,
            Status::Order => 6,
            Status::Collision => 7,
        }
    }
}
