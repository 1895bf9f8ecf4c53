use cast_machine::Settings;

/// What a command line asks for. A file is the name under which the shelf has the script.
#[derive(Drop)]
pub enum Command {
    /// Says whether anything is wrong with the script.
    Check(String),
    /// Prints the script.
    Show(String),
    /// Lists its casts.
    Casts(String),
    /// Lists its closed types.
    Types(String),
    /// Runs it in the order of a seed.
    Step(Settings, u64, String),
    /// Runs it on running threads.
    Run(Settings, String),
    /// Runs the generated script of 1 to 200 tasks in the order of a seed.
    Stress(Settings, u64, u32),
}
