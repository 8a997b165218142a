//! Cases as blocks of lines: the first line of a block says what it shows, the second what there is before, and each line
//! that begins with two blanks asks something, with what comes behind ` => `.

use std::alloc::{AllocError, Global};

/// What answers the questions of a block.
pub trait Asked {
    /// What comes of a question, or `None` where it can't be read.
    fn came(&mut self, alloc: Global, ask: &str) -> Option<String>;
}

/// What there is before the questions of a block.
pub fn before(block: &str) -> &str {
    let mut lines = block.lines();
    let _ = lines.next();
    lines.next().unwrap_or("")
}

/// What a line asks.
pub fn ask_of(line: &str) -> &str {
    match line.split_once(" => ") {
        Some((ask, _)) => ask,
        None => line,
    }
}

/// Adds a question and what came of it.
pub fn push_line(text: &mut String, ask: &str, came: &str) -> Result<(), AllocError> {
    write!(text, "\n  {ask} => {came}")
}

fn push_asked<A: Asked>(alloc: Global, text: &mut String, asked: &mut A, line: &str) -> Option<()> {
    let ask = ask_of(line);
    let came = asked.came(alloc, ask)?;
    push_line(text, ask, came.as_str()).ok()
}

/// A block up to its last question, with what came.
pub fn written<A: Asked>(alloc: Global, block: &str, asked: &mut A) -> Option<String> {
    let (head, _) = block.split_once("\n  ")?;
    let mut text = String::from_str(alloc, head).ok()?;
    for line in block.lines() {
        if let Some(line) = line.strip_prefix("  ") {
            push_asked(alloc, &mut text, asked, line)?;
        }
    }
    Some(text)
}

/// The first line of a block that came out otherwise, and what came of it; both are empty where all is the same.
pub fn difference<'a>(block: &'a str, came: &'a Option<String>) -> (&'a str, &'a str) {
    let came = match came {
        Some(text) => text.as_str(),
        None => "what can't be read",
    };
    let mut lines = came.lines();
    for line in block.lines() {
        let said = lines.next().unwrap_or("");
        if said != line {
            return (line, said);
        }
    }
    ("", lines.next().unwrap_or(""))
}
