use std::alloc::{AllocError, Global};

/// A case: a script, and the text that is wanted for it.
#[derive(Drop)]
pub struct Case {
    pub name: String,
    pub script: Vec<u8>,
    pub text: String,
    /// Each of its lines could be read.
    pub is_read: bool,
}

impl Case {
    /// A case of this name, with an empty script and no text.
    pub fn new(alloc: Global, name: &str) -> Result<Case, AllocError> {
        Ok(Case {
            name: String::from_str(alloc, name)?,
            script: Vec::new(alloc),
            text: String::new(alloc),
            is_read: true,
        })
    }

    /// Takes in a line of the case.
    pub fn set(&mut self, key: &str, value: &str) -> Result<(), AllocError> {
        match key {
            "script" => push_script_line(&mut self.script, value)?,
            "bytes" => self.push_bytes(value)?,
            "text" => push_line(&mut self.text, value)?,
            _ => self.is_read = false,
        }
        Ok(())
    }

    /// Takes in bytes of the script, each as two hexadecimal digits.
    fn push_bytes(&mut self, value: &str) -> Result<(), AllocError> {
        for digits in value.split(' ') {
            let Ok(byte) = u8::from_str_radix(digits, 16) else {
                self.is_read = false;
                return Ok(());
            };
            self.script.push(byte)?;
        }
        Ok(())
    }
}

fn push_line(text: &mut String, line: &str) -> Result<(), AllocError> {
    text.push_str(line)?;
    text.push_str("\n")
}

fn push_script_line(script: &mut Vec<u8>, line: &str) -> Result<(), AllocError> {
    script.extend_from_slice(line.as_bytes())?;
    script.push(b'\n')?;
    Ok(())
}
