//! A schema, as a request to generate code has it (`schema.capnp` of Cap'n Proto), as far as the
//! compiler needs it.
use crate::wanted::Wanted;
use std::alloc::Global;

/// The most declarations that may be nested; the schema compiler accepts no more.
pub const MAX_DEPTH: u32 = 64;

/// A declaration.
#[derive(Drop)]
pub struct Node {
    pub id: u64,
    /// The node in which it is declared; 0 for a file.
    pub scope: u64,
    /// The name within that node, or the one that an annotation gives instead; of a file its path.
    pub name: String,
    /// Of a file, what is put before all names that its header makes; empty if nothing is.
    pub prefix: String,
    /// Its comment; empty if it has none.
    pub comment: String,
    /// The comments of its fields or enumerants, in the order of these.
    pub member_comments: Vec<String>,
    /// The names of its fields or enumerants as the schema has them, in the same order.
    pub member_names: Vec<String>,
    /// The nodes that are declared in it.
    pub nested: Vec<u64>,
    /// The names of these as the schema has them, in the same order.
    pub nested_names: Vec<String>,
    pub body: Body,
}

impl Node {
    /// The comment of the field or enumerant at this index.
    pub fn member_comment(&self, index: usize) -> &str {
        match self.member_comments.get(index) {
            Some(comment) => comment,
            None => "",
        }
    }
}

/// What a node declares.
#[derive(Drop)]
pub enum Body {
    File,
    Struct(Struct),
    /// The names of the enumerants, by their numbers.
    Enum(Vec<String>),
    Interface,
    Constant(Type, Value),
    /// An annotation, or what this compiler doesn't know.
    Other,
}

/// A struct, or a group of one.
#[derive(Drop)]
pub struct Struct {
    pub is_group: bool,
    /// Where the number is that says which member of the union is set, in units of two bytes; none
    /// if there is no union.
    pub discriminant: Option<u32>,
    /// How many words its data section has.
    pub data_words: u32,
    /// How many pointers it has.
    pub pointers: u32,
    pub fields: Vec<Field>,
}

/// A field of a struct.
#[derive(Drop)]
pub struct Field {
    /// The name, or the one that an annotation gives instead.
    pub name: String,
    /// Its number among the members of the union, if it is one.
    pub member: Option<u16>,
    pub slot: Slot,
}

/// Where a field is in its struct.
#[derive(Drop)]
pub enum Slot {
    At(Place),
    /// In a group, which is a node.
    Group(u64),
    /// What this compiler doesn't know.
    Unknown,
}

/// Where a field of the data section or a pointer is.
#[derive(Drop)]
pub struct Place {
    /// In units of the field's own width, or among the pointers.
    pub offset: u32,
    pub of: Type,
    pub default: Value,
}

/// A type: for lists of lists, the type of the innermost elements, and how deep the lists are
/// nested.
#[derive(Clone, Copy)]
pub struct Type {
    /// How many lists there are around the base; 0 for the base itself.
    pub lists: u32,
    pub base: Base,
}

impl Type {
    /// How many lists of pointers there are around the innermost type.
    pub fn pointer_lists(&self) -> u32 {
        match self.base {
            Base::Text | Base::Data | Base::AnyPointer => self.lists,
            _ => self.lists.saturating_sub(1),
        }
    }
}

/// A type that is no list.
#[derive(Clone, Copy, PartialEq, Eq)]
pub enum Base {
    Void,
    Bool,
    Int8,
    Int16,
    Int32,
    Int64,
    Uint8,
    Uint16,
    Uint32,
    Uint64,
    Float32,
    Float64,
    Text,
    Data,
    /// An enum, by its node.
    Enum(u64),
    /// A struct, by its node.
    Struct(u64),
    /// An interface, or what this compiler doesn't know.
    Interface,
    AnyPointer,
}

/// A value of a constant or of a default.
#[derive(Drop)]
pub enum Value {
    /// The bits of a number, a bool or an enum; 0 for `Void`.
    Bits(u64),
    Text(String),
    Data(Vec<u8>),
    /// A null pointer.
    Null,
    /// A list, a struct or any pointer that is not null.
    Object(Object),
}

/// A value that a pointer points to.
#[derive(Drop)]
pub struct Object {
    /// The words of a message of one segment whose root it is.
    pub words: Vec<u8>,
    /// Its tree as a clause has it, where that is known.
    pub tree: Option<String>,
}

/// A file for which code is asked for.
#[derive(Drop)]
pub struct RequestedFile {
    pub id: u64,
    pub name: String,
}

/// A request to generate code.
#[derive(Drop)]
pub struct Request {
    pub alloc: Global,
    pub nodes: Vec<Node>,
    pub files: Vec<RequestedFile>,
    pub wanted: Wanted,
}

impl Request {
    /// The node of this number.
    pub fn find(&self, id: u64) -> Option<&Node> {
        for node in &self.nodes {
            if node.id == id {
                return Some(node);
            }
        }
        None
    }

    /// The names of the enumerants of a node.
    pub fn enumerants_of(&self, id: u64) -> &[String] {
        if let Some(node) = self.find(id)
            && let Body::Enum(names) = &node.body
        {
            return names;
        }
        &[]
    }

    /// The file in which a node is declared; 0 if that is not in the request.
    pub fn file_of(&self, id: u64) -> u64 {
        let mut next = id;
        for _ in 0..MAX_DEPTH {
            let Some(node) = self.find(next) else {
                break;
            };
            if let Body::File = &node.body {
                return next;
            }
            next = node.scope;
        }
        0
    }

    /// The name of a file, as it was asked for or as it was declared.
    pub fn file_name(&self, id: u64) -> Option<&str> {
        for file in &self.files {
            if file.id == id {
                return Some(&file.name);
            }
        }
        let node = self.find(id)?;
        Some(&node.name)
    }
}
