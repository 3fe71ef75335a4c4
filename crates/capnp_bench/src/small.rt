//! Small messages by what their roots are.
ghost use Rattle.std.specs.Prelude.{◌≤◌};

use crate::random::Random;
use crate::raw::{far_pointer, list_pointer, push_text, push_word};
use crate::shape::{Kind, Shape};
use capnp::Result;
use std::alloc::Global;

/// How many messages of a kind have each depth, from one to four.
const OF_A_DEPTH: u32 = 5;

/// How many messages of a kind there are.
pub const MESSAGES: u32 = 4 * OF_A_DEPTH;

/// What a root is.
#[derive(Clone, Copy)]
pub enum Root {
    Null,
    Tree(Kind),
    Numbers,
    Text,
    /// A pointer to a landing pad of one word.
    Far,
    /// A pointer to a landing pad of two words.
    DoubleFar,
}

/// A message of one to three segments; the others are empty.
#[derive(Drop)]
pub struct SmallMessage {
    segments: [Vec<u8>; 3],
}

impl SmallMessage {
    /// Three segments; the first `count` ones are the message's.
    pub fn segments(&self) -> [&[u8]; 3] {
        let [first, second, third] = &self.segments;
        [first.as_slice(), second.as_slice(), third.as_slice()]
    }

    /// How many of the segments the message has.
    pub fn count(&self) -> usize
        ensures { result ≤ 3 }
    {
        if self.segments[1].is_empty() {
            1
        } else if self.segments[2].is_empty() {
            2
        } else {
            3
        }
    }
}

/// Messages with such roots, of depths from one to four.
pub fn messages(alloc: Global, root: Root, seed: u32) -> Result<Vec<SmallMessage>> {
    let mut random = Random::new(seed);
    let mut messages = Vec::new(alloc);
    for index in 0..MESSAGES {
        messages.push(message(alloc, root, index, &mut random)?)?;
    }
    Ok(messages)
}

/// The message of an index. A far root points to an object of each other kind in turn.
fn message(alloc: Global, root: Root, index: u32, random: &mut Random) -> Result<SmallMessage> {
    let depth = 1 + index / OF_A_DEPTH % 4;
    let mut first = Vec::new(alloc);
    let mut second = Vec::new(alloc);
    let mut object = Vec::new(alloc);
    match root {
        Root::Far => {
            push_word(&mut first, far_pointer(1, 0, false))?;
            let pointer = push_object(&mut object, random, root_in_turn(index), depth)?;
            push_word(&mut second, pointer)?;
            second.extend_from_slice(&object)?;
            object.clear();
        }
        Root::DoubleFar => {
            push_word(&mut first, far_pointer(1, 0, true))?;
            push_word(&mut second, far_pointer(2, 0, false))?;
            let pointer = push_object(&mut object, random, root_in_turn(index), depth)?;
            push_word(&mut second, pointer)?;
        }
        _ => {
            let pointer = push_object(&mut object, random, root, depth)?;
            push_word(&mut first, pointer)?;
            first.extend_from_slice(&object)?;
            object.clear();
        }
    }
    Ok(SmallMessage {
        segments: [first, second, object],
    })
}

fn root_in_turn(index: u32) -> Root {
    match index % OF_A_DEPTH {
        0 => Root::Tree(Kind::Struct),
        1 => Root::Tree(Kind::Pointers),
        2 => Root::Tree(Kind::Structs),
        3 => Root::Numbers,
        _ => Root::Text,
    }
}

/// Adds an object without its pointer, and returns the pointer to it from the word before it.
/// Numbers and texts point to nothing: at depths of one to four they have up to 4, 16, 64 and 256
/// bytes, numbers in whole words.
fn push_object(words: &mut Vec<u8>, random: &mut Random, root: Root, depth: u32) -> Result<u64> {
    let most = 1_u32 << (2 * depth.min(4));
    match root {
        Root::Tree(kind) => {
            let shape = Shape::new(kind, 1 + random.below(6_u32.saturating_sub(depth)));
            shape.push(words, random, depth)?;
            Ok(shape.pointer(0, depth))
        }
        Root::Numbers => {
            let count = 1 + random.below(most) / 8;
            push_numbers(words, random, count)
        }
        Root::Text => {
            let length = random.below(most);
            push_text(words, random, length)?;
            Ok(list_pointer(0, 2, length + 1))
        }
        _ => Ok(0),
    }
}

/// Adds this many words of numbers of a byte, of two, of four or of eight.
fn push_numbers(words: &mut Vec<u8>, random: &mut Random, count: u64) -> Result<u64> {
    for _ in 0..count {
        push_word(words, random.next())?;
    }
    let width = random.below(4);
    Ok(list_pointer(0, 2 + width, (count << 3) >> width))
}
