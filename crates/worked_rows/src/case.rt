use std::alloc::{AllocError, Global};

/// A case: the words and the script that are given, the numbers of the calls that fail, and what is wanted.
#[derive(Drop)]
pub struct Case {
    pub name: String,
    pub words: Vec<String>,
    pub file: String,
    pub script: Vec<u8>,
    pub shelf_fails: Vec<u64>,
    pub out_fails: Vec<u64>,
    pub err_fails: Vec<u64>,
    pub out: String,
    pub err: String,
    pub status: u8,
    /// Each of its lines could be read.
    pub is_read: bool,
}

impl Case {
    /// A case of this name, with an empty script and nothing wanted.
    pub fn new(alloc: Global, name: &str) -> Result<Case, AllocError> {
        Ok(Case {
            name: String::from_str(alloc, name)?,
            words: Vec::new(alloc),
            file: String::from_str(alloc, "a")?,
            script: Vec::new(alloc),
            shelf_fails: Vec::new(alloc),
            out_fails: Vec::new(alloc),
            err_fails: Vec::new(alloc),
            out: String::new(alloc),
            err: String::new(alloc),
            status: 0,
            is_read: true,
        })
    }

    /// Takes in a line of the case.
    pub fn set(&mut self, alloc: Global, key: &str, value: &str) -> Result<(), AllocError> {
        match key {
            "word" => self.words.push(String::from_str(alloc, value)?)?,
            "file" => self.file = String::from_str(alloc, value)?,
            "script" => push_script_line(&mut self.script, value)?,
            "bytes" => self.push_bytes(value)?,
            "line feeds" => self.push_line_feeds(value)?,
            "rows" => self.push_rows(alloc, value)?,
            "group" => self.push_group(alloc, value)?,
            "out" => push_line(&mut self.out, value)?,
            "out part" => self.out.push_str(value)?,
            "err" => push_line(&mut self.err, value)?,
            "err part" => self.err.push_str(value)?,
            _ => self.set_number(key, value)?,
        }
        Ok(())
    }

    fn push_line_feeds(&mut self, value: &str) -> Result<(), AllocError> {
        let Ok(count) = value.parse::<u32>() else {
            self.is_read = false;
            return Ok(());
        };
        for _i in 0..count {
            self.script.push(b'\n')?;
        }
        Ok(())
    }

    /// Takes in rows of the script: a count, ` of `, and the text that stands in each, with `#` for its number from 1 and `/` for a line's end.
    fn push_rows(&mut self, alloc: Global, value: &str) -> Result<(), AllocError> {
        let Some((count, text)) = value.split_once(" of ") else {
            self.is_read = false;
            return Ok(());
        };
        let Ok(count) = count.parse::<u16>() else {
            self.is_read = false;
            return Ok(());
        };
        for number in 0..count {
            push_row(alloc, &mut self.script, text, number as u32 + 1)?;
        }
        Ok(())
    }

    /// Takes in a group of classes, by its name and their count: all have the same fields, as many as there are classes, and in each class
    /// another one is `int` and the others are `Dyn`.
    fn push_group(&mut self, alloc: Global, value: &str) -> Result<(), AllocError> {
        let Some((name, count)) = value.split_once(' ') else {
            self.is_read = false;
            return Ok(());
        };
        let Ok(count) = count.parse::<u16>() else {
            self.is_read = false;
            return Ok(());
        };
        for class in 0..count {
            push_class(alloc, &mut self.script, name, class, count)?;
        }
        Ok(())
    }

    /// Takes in bytes of the script, each as two hexadecimal digits.
    fn push_bytes(&mut self, value: &str) -> Result<(), AllocError> {
        for digits in value.split(' ') {
            let Ok(byte) = u8::from_str_radix(digits, 16) else {
                self.is_read = false;
                return Ok(());
            };
            self.script.push(byte)?;
        }
        Ok(())
    }

    fn set_number(&mut self, key: &str, value: &str) -> Result<(), AllocError> {
        let Ok(number) = value.parse::<u8>() else {
            self.is_read = false;
            return Ok(());
        };
        match key {
            "shelf fails" => self.shelf_fails.push(number as u64)?,
            "out fails" => self.out_fails.push(number as u64)?,
            "err fails" => self.err_fails.push(number as u64)?,
            "status" => self.status = number,
            _ => self.is_read = false,
        }
        Ok(())
    }
}

fn push_line(text: &mut String, line: &str) -> Result<(), AllocError> {
    text.push_str(line)?;
    text.push_str("\n")
}

fn push_script_line(script: &mut Vec<u8>, line: &str) -> Result<(), AllocError> {
    script.extend_from_slice(line.as_bytes())?;
    script.push(b'\n')?;
    Ok(())
}

/// A row of this number.
fn push_row(
    alloc: Global,
    script: &mut Vec<u8>,
    text: &str,
    number: u32,
) -> Result<(), AllocError> {
    let digits = number.to_string(alloc)?;
    for byte in text.as_bytes() {
        match *byte {
            b'#' => script.extend_from_slice(digits.as_bytes())?,
            b'/' => script.push(b'\n')?,
            byte => script.push(byte)?,
        }
    }
    script.push(b'\n')?;
    Ok(())
}

/// The class of this number among so many of a group.
fn push_class(
    alloc: Global,
    script: &mut Vec<u8>,
    name: &str,
    class: u16,
    count: u16,
) -> Result<(), AllocError> {
    let head = format!(in alloc; "class G{name}{class}:")?;
    push_script_line(script, head.as_str())?;
    for field in 0..count {
        let ty = if field == class { "int" } else { "Dyn" };
        let line = format!(in alloc; "    {name}{field}: {ty}")?;
        push_script_line(script, line.as_str())?;
    }
    Ok(())
}
