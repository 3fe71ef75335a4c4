//! Code that is written line by line, at a depth of modules.
use crate::imports::uncited;
use std::alloc::{AllocError, Global};

/// How many bytes two parts of a clause may have on one line.
const CLAUSE_LENGTH: usize = 60;

/// A name in a template, and the value that stands for it.
#[derive(Drop)]
struct Hole {
    name: &'static str,
    value: String,
}

/// The values that stand for names in a template. If an allocation fails for one of them, filling a
/// template with these fails, so no call that adds one has to be tested.
#[derive(Drop)]
pub struct Holes {
    alloc: Global,
    holes: Vec<Hole>,
    /// Whether there was memory for all of them.
    is_whole: bool,
}

impl Holes {
    /// No values.
    pub fn new(alloc: Global) -> Holes {
        Holes {
            alloc,
            holes: Vec::new(alloc),
            is_whole: true,
        }
    }

    /// With one more value, which stands for this name.
    pub fn with(self, name: &'static str, value: &str) -> Holes {
        let value = String::from_str(self.alloc, value);
        self.holding(name, value)
    }

    /// With one more value, which is kept here, if there is one.
    pub fn holding(mut self, name: &'static str, value: Result<String, AllocError>) -> Holes {
        let is_kept = match value {
            Ok(value) => self.holes.push(Hole { name, value }).is_ok(),
            Err(_) => false,
        };
        self.is_whole = self.is_whole && is_kept;
        self
    }

    /// With one more value, a number.
    pub fn number(self, name: &'static str, value: impl Into<u64>) -> Holes {
        let value: u64 = value.into();
        let value = format!(in self.alloc; "{value}");
        self.holding(name, value)
    }

    /// With one more value, some code without the end of its last line.
    pub fn code(self, name: &'static str, code: &Code) -> Holes {
        let lines = if code.is_whole {
            String::from_str(
                self.alloc,
                code.lines.strip_suffix('\n').unwrap_or(&code.lines),
            )
        } else {
            Err(AllocError)
        };
        self.holding(name, lines)
    }

    /// A template that is filled with these, without a line's end after it. A name without a value
    /// stays.
    pub fn fill(&self, template: &str) -> Result<String, AllocError> {
        let mut code = Code::new(self.alloc, 0);
        code.add(template, self);
        code.without_end()
    }

    // The value that stands for a name.
    fn value_of(&self, name: &str) -> Option<&str> {
        for hole in &self.holes {
            if hole.name == name {
                return Some(&hole.value);
            }
        }
        None
    }
}

/// Code that is written. If an allocation fails for a part of it, `whole` fails, so no call that
/// adds one has to be tested.
#[derive(Drop)]
pub struct Code {
    pub alloc: Global,
    lines: String,
    /// How many modules, and blocks of them, are open.
    pub depth: usize,
    /// Whether there was memory for all of it.
    is_whole: bool,
}

impl Code {
    /// No code, at a depth of modules.
    pub fn new(alloc: Global, depth: usize) -> Code {
        Code {
            alloc,
            lines: String::new(alloc),
            depth,
            is_whole: true,
        }
    }

    /// What is added so far.
    pub fn as_str(&self) -> &str {
        &self.lines
    }

    /// All of it, unless an allocation failed for a part.
    pub fn whole(self) -> Result<String, AllocError> {
        if self.is_whole {
            Ok(self.lines)
        } else {
            Err(AllocError)
        }
    }

    /// The same without the end of the last line.
    pub fn without_end(mut self) -> Result<String, AllocError> {
        let _ = self.lines.pop();
        self.whole()
    }

    /// What was made for this code; none if there was no memory for it, as the code then remembers.
    pub fn kept<T: Drop, E: Drop>(&mut self, made: Result<T, E>) -> Option<T> {
        self.is_whole = self.is_whole && made.is_ok();
        made.ok()
    }

    /// A text that was made for this code; an empty one if there was no memory for it.
    pub fn text(&mut self, made: Result<String, AllocError>) -> String {
        let nothing = String::new(self.alloc);
        self.kept(made).unwrap_or(nothing)
    }

    /// No values for a template yet.
    pub fn holes(&self) -> Holes {
        Holes::new(self.alloc)
    }

    /// Adds the lines of a template, in which `@name@` stands for the value of that hole. If the
    /// value has several lines, each of them begins where the line of the hole does.
    pub fn add(&mut self, template: &str, holes: &Holes) {
        let added = self.try_add(template, holes);
        self.is_whole = self.is_whole && added.is_ok();
    }

    /// Adds the lines of a template with one name, in whose place this value is put.
    pub fn add_with(&mut self, template: &str, name: &'static str, value: &str) {
        self.add(template, &self.holes().with(name, value));
    }

    /// Adds lines without a change.
    pub fn add_lines(&mut self, lines: &str) {
        self.add(lines, &self.holes());
    }

    /// Adds code whose lines have their depth.
    pub fn add_code(&mut self, code: &str) {
        let added = self.lines.push_str(code);
        self.is_whole = self.is_whole && added.is_ok();
    }

    /// Adds code that was made, if there was memory for it.
    pub fn add_made(&mut self, made: Result<String, AllocError>) {
        let made = self.text(made);
        self.add_code(&made);
    }

    /// Adds an empty line.
    pub fn add_gap(&mut self) {
        self.add_code("\n");
    }

    /// Adds a docstring of some lines.
    pub fn add_comment(&mut self, comment: &str) {
        for line in comment.lines() {
            let line = line.trim_end();
            if line.is_empty() {
                self.add_lines("///");
            } else {
                let holes = self.holes().holding("line", uncited(self.alloc, line));
                self.add("/// @line@", &holes);
            }
        }
    }

    // Adds the lines of a template, as long as there is memory.
    fn try_add(&mut self, template: &str, holes: &Holes) -> Result<(), AllocError> {
        if !holes.is_whole {
            return Err(AllocError);
        }
        for line in template.lines() {
            self.add_line(line, holes)?;
        }
        Ok(())
    }

    // Adds one line.
    fn add_line(&mut self, line: &str, holes: &Holes) -> Result<(), AllocError> {
        let spaces = line.len().saturating_sub(line.trim_start().len());
        if !line.is_empty() {
            self.indent(0)?;
        }
        let mut is_hole = false;
        for part in line.split('@') {
            if is_hole {
                self.add_hole(part, holes, spaces)?;
            } else {
                self.lines.push_str(part)?;
            }
            is_hole = !is_hole;
        }
        self.lines.push('\n')
    }

    // Adds the value of a hole, in a line that begins with some spaces. A hole without a value
    // stays.
    fn add_hole(&mut self, name: &str, holes: &Holes, spaces: usize) -> Result<(), AllocError> {
        let Some(value) = holes.value_of(name) else {
            self.lines.push('@')?;
            self.lines.push_str(name)?;
            return self.lines.push('@');
        };
        let mut is_first = true;
        for line in value.split('\n') {
            if !is_first {
                self.lines.push('\n')?;
                self.indent(spaces)?;
            }
            is_first = false;
            self.lines.push_str(line)?;
        }
        Ok(())
    }

    // Adds the spaces in front of a line, and some more.
    fn indent(&mut self, spaces: usize) -> Result<(), AllocError> {
        for _ in 0..self.depth {
            self.lines.push_str("    ")?;
        }
        for _ in 0..spaces {
            self.lines.push(' ')?;
        }
        Ok(())
    }
}

/// Two parts of a clause: on one line, or on two where they are too long for one.
pub fn joined(alloc: Global, first: &str, second: &str) -> Result<String, AllocError> {
    let length = first.len().saturating_add(second.len());
    let between = if length > CLAUSE_LENGTH { '\n' } else { ' ' };
    format!(in alloc; "{first}{between}{second}")
}
