use std::alloc::{AllocError, Global};

/// A case: a script, and what its typing is to give.
#[derive(Drop)]
pub struct Case {
    pub name: String,
    pub script: String,
    pub want: String,
    /// Each of its lines could be read.
    pub is_read: bool,
}

impl Case {
    /// A case of this name, with an empty script that has no expressions.
    pub fn new(alloc: Global, name: &str) -> Result<Case, AllocError> {
        Ok(Case {
            name: String::from_str(alloc, name)?,
            script: String::new(alloc),
            want: String::new(alloc),
            is_read: true,
        })
    }

    /// Takes in a line of the case.
    pub fn set(&mut self, key: &str, value: &str) -> Result<(), AllocError> {
        match key {
            "script" => push_line(&mut self.script, value)?,
            "type" => push_line(&mut self.want, value)?,
            "refused" => push_line(&mut self.want, value)?,
            _ => self.is_read = false,
        }
        Ok(())
    }
}

fn push_line(text: &mut String, line: &str) -> Result<(), AllocError> {
    text.push_str(line)?;
    text.push_str("\n")
}
