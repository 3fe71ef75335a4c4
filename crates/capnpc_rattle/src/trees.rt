//! Trees of values that pointers point to, as clauses have them: terms of `Trees` of `capnp_wire`,
//! in the names by which `importable.rt` has its constructors.
use crate::code::Code;
use anyhow::Result;
use capnp_frame::message::ReaderSegments;
use capnp_wire::any_object::Numbers;
use capnp_wire::any_struct::StructReader;
use capnp_wire::{any_object, any_pointer, struct_list};
use std::alloc::{AllocError, Global};
use std::fmt::Write;

/// The most columns of a line of a tree.
const WIDTH: usize = 100;

/// The most bytes of a tree's code; a clause with a longer tree takes a second and more to prove.
const MAX_TREE: usize = 32768;

/// What is still to be written of a tree.
#[derive(Drop)]
enum Step<'a, S: ReaderSegments> {
    /// What a pointer points to.
    Object(any_pointer::Reader<'a, S>),
    /// The end of a list of trees, by their number.
    End(u32),
}

/// A tree that is being written.
#[derive(Drop)]
struct TreeWriter<'a, S: ReaderSegments> {
    written: String,
    /// What follows what is written, the next part last.
    steps: Vec<Step<'a, S>>,
}

/// The tree that a pointer points to. There is none where its code would be too long, or where a
/// list of structs in it is empty: no view says how large the elements of that list are.
pub fn tree_at<S: ReaderSegments>(
    alloc: Global,
    pointer: &any_pointer::Reader<'_, S>,
) -> Result<Option<String>> {
    let mut tree = TreeWriter {
        written: String::new(alloc),
        steps: Vec::new(alloc),
    };
    tree.steps.push(Step::End(1))?;
    let mut is_known = tree.add_object(pointer)?;
    for _ in 0..u64::MAX {
        if !is_known || is_full(tree.written.as_str()) {
            return Ok(None);
        }
        let Some(step) = tree.steps.pop() else {
            break;
        };
        match step {
            Step::Object(pointer) => is_known = tree.add_object(&pointer)?,
            Step::End(count) => tree.add_end(count)?,
        }
    }
    Ok(Some(tree.written))
}

// Whether what is written is too long for a tree, so that no more is added.
fn is_full(written: &str) -> bool {
    written.len() > MAX_TREE
}

impl<'a, S: ReaderSegments> TreeWriter<'a, S> {
    // Adds the form of what a pointer points to; its pointers, and the end of their trees, are
    // still to be written. Returns whether the form is known.
    fn add_object(&mut self, pointer: &any_pointer::Reader<'a, S>) -> Result<bool> {
        self.written.push_str("(TreeOf ")?;
        match pointer.get_as()? {
            any_object::Reader::Null => {
                self.written.push_str("NullForm ")?;
                self.steps.push(Step::End(0))?;
            }
            any_object::Reader::Struct(fields) => self.add_struct(&fields)?,
            any_object::Reader::Structs(list) => return self.add_structs(&list),
            any_object::Reader::Pointers(list) => {
                self.written.push_str("PointersForm ")?;
                self.steps.push(Step::End(list.len()))?;
                for index in (0..list.len()).rev() {
                    if let Some(pointer) = list.try_get(index) {
                        self.steps.push(Step::Object(pointer))?;
                    }
                }
            }
            any_object::Reader::Numbers(numbers) => {
                push_numbers(&mut self.written, &numbers)?;
                self.steps.push(Step::End(0))?;
            }
        }
        Ok(true)
    }

    // Adds the form of a struct.
    fn add_struct(&mut self, fields: &StructReader<'a, S>) -> Result<(), AllocError> {
        self.written.push_str("(StructForm ")?;
        push_words(&mut self.written, fields)?;
        self.written.push_str(") ")?;
        self.steps.push(Step::End(fields.pointers() as u32))?;
        self.add_pointers(fields)
    }

    // Notes that the pointers of a struct are still to be written.
    fn add_pointers(&mut self, fields: &StructReader<'a, S>) -> Result<(), AllocError> {
        for index in (0..fields.pointers()).rev() {
            self.steps.push(Step::Object(fields.get_pointer(index)))?;
        }
        Ok(())
    }

    // Adds the form of a list of structs. Returns whether it is known.
    fn add_structs(&mut self, list: &struct_list::Reader<'a, S>) -> Result<bool> {
        let Some(first) = list.try_get(0) else {
            return Ok(false);
        };
        let (data_words, pointers) = (first.data_words(), first.pointers());
        write!(self.written, "(StructsForm {data_words} {pointers} (")?;
        for fields in list.iter() {
            if is_full(self.written.as_str()) {
                return Ok(false);
            }
            push_words(&mut self.written, &fields)?;
            self.written.push_str(" ∷ ")?;
        }
        self.written.push_str("[])) ")?;
        let count = list.len().saturating_mul(pointers as u32);
        self.steps.push(Step::End(count))?;
        for index in (0..list.len()).rev() {
            if let Some(fields) = list.try_get(index) {
                self.add_pointers(&fields)?;
            }
        }
        Ok(true)
    }

    // Adds the end of a list of trees.
    fn add_end(&mut self, count: u32) -> Result<(), AllocError> {
        self.written.push_str("NoTrees")?;
        for _ in 0..count {
            self.written.push(')')?;
        }
        if !self.steps.is_empty() {
            self.written.push(' ')?;
        }
        Ok(())
    }
}

// Adds the data words of a struct, as a list.
fn push_words<S: ReaderSegments>(
    written: &mut String,
    fields: &StructReader<'_, S>,
) -> Result<(), AllocError> {
    if fields.data_words() == 0 {
        return written.push_str("[]");
    }
    written.push('(')?;
    for index in 0..fields.data_words() {
        let word = fields.get_word(index);
        write!(written, "{word:#x} ∷ ")?;
    }
    written.push_str("[])")
}

// Adds the form of a list of numbers.
fn push_numbers(written: &mut String, numbers: &Numbers<'_>) -> Result<(), AllocError> {
    let code = match numbers.bits_of_each() {
        0 => 0,
        1 => 1,
        8 => 2,
        16 => 3,
        32 => 4,
        _ => 5,
    };
    if numbers.len() == 0 {
        return write!(written, "(NumbersForm {code} []) ");
    }
    write!(written, "(NumbersForm {code} (")?;
    for index in 0..numbers.len() {
        if is_full(written.as_str()) {
            break;
        }
        let number = numbers.get(index);
        write!(written, "{number} ∷ ")?;
    }
    written.push_str("[])) ")
}

/// The tree of a list of bytes, with a zero byte after them where it is a text.
pub fn tree_of_bytes(alloc: Global, bytes: &[u8], is_text: bool) -> Result<String, AllocError> {
    let mut written = String::from_str(alloc, "(TreeOf (NumbersForm 2 (")?;
    for byte in bytes {
        write!(written, "{byte} ∷ ")?;
    }
    written.push_str(if is_text { "0 ∷ []" } else { "[]" })?;
    written.push_str(")) NoTrees NoTrees)")?;
    Ok(written)
}

/// A term in lines that are not too wide for a clause at some depth of modules. What is no number in
/// it is cited.
pub fn wrapped(alloc: Global, depth: usize, term: &str) -> Result<String, AllocError> {
    let width = WIDTH.saturating_sub(depth.saturating_mul(4).saturating_add(12));
    let mut written = Code::new(alloc, 0);
    let mut column: usize = 0;
    for word in term.split(' ') {
        let letters = word.chars().count();
        if column.saturating_add(letters) > width && word != "∷" {
            written.add_code("\n");
            column = 0;
        } else if !written.as_str().is_empty() {
            written.add_code(" ");
        }
        push_cited(&mut written, word);
        column = column.saturating_add(letters).saturating_add(1);
    }
    written.whole()
}

// Adds a word of a term, whose name or operator is cited.
fn push_cited(written: &mut Code, word: &str) {
    let name = word.trim_start_matches('(');
    let brackets = word.len().saturating_sub(name.len());
    written.add_code(word.get(..brackets).unwrap_or(""));
    if !name.is_empty() && !name.starts_with(|letter: char| letter.is_ascii_digit()) {
        written.add_code("$");
    }
    written.add_code(name);
}
