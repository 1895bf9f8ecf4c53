use cast_calculus::Settings;

/// What a command does with a script.
#[derive(Clone, Copy, Debug, PartialEq, Eq)]
pub enum Verb {
    /// Says that nothing is wrong with it.
    Check,
    /// Prints it.
    Show,
    /// Lists its casts.
    Casts,
    /// Lists its closed types.
    Types,
    /// Runs it within these limits, in the order of the seed.
    Step(Settings, u64),
    /// The same, behind the head line of the stress script of so many tasks.
    Stress(Settings, u64, u32),
}
