//! The request that the schema compiler hands to its plugins, read with the types that this
//! compiler has made from `schema.capnp`.
use crate::annotations::{name_in_code, prefix_in_code};
use crate::schema::{Body, Field, Node, Place, Request, RequestedFile, Slot, Struct};
use crate::schema_capnp::{code_generator_request, field, node};
use crate::types::{read_type, read_value};
use crate::wanted::Wanted;
use anyhow::{Result, bail};
use capnp_frame::message::ReaderSegments;
use capnp_wire::text;
use std::alloc::Global;
use std::str::from_utf8;

/// The request at the root of a message, for readers and what else is wanted.
pub fn read_request<S: ReaderSegments>(
    alloc: Global,
    root: &code_generator_request::Reader<'_, S>,
    wanted: Wanted,
) -> Result<Request> {
    let mut request = Request {
        alloc,
        nodes: Vec::new(alloc),
        files: Vec::new(alloc),
        wanted,
    };
    add_root(root, &mut request)?;
    Ok(request)
}

// Adds what is at the root of a message.
fn add_root<S: ReaderSegments>(
    root: &code_generator_request::Reader<'_, S>,
    request: &mut Request,
) -> Result<()> {
    let (alloc, wanted) = (request.alloc, request.wanted);
    let nodes = root.get_nodes()?;
    for node in nodes.iter() {
        request.nodes.push(read_node(alloc, &node, wanted)?)?;
    }
    name_groups(alloc, &mut request.nodes)?;
    let files = root.get_requested_files()?;
    for file in files.iter() {
        let name = read_text(alloc, file.get_filename())?;
        let id = file.get_id();
        request.files.push(RequestedFile { id, name })?;
    }
    add_comments(root, request)
}

/// A text that is UTF-8, if it could be read.
pub fn read_text(alloc: Global, text: capnp_frame::Result<text::Reader<'_>>) -> Result<String> {
    match from_utf8(text?.as_bytes()) {
        Ok(text) => Ok(String::from_str(alloc, text)?),
        Err(_) => bail!("a text of the request is no UTF-8"),
    }
}

// A node, without its comments, which are elsewhere in the request.
fn read_node<S: ReaderSegments>(
    alloc: Global,
    read: &node::Reader<'_, S>,
    wanted: Wanted,
) -> Result<Node> {
    let mut node = Node {
        id: read.get_id(),
        scope: read.get_scope_id(),
        name: String::new(alloc),
        prefix: String::new(alloc),
        comment: String::new(alloc),
        member_comments: Vec::new(alloc),
        member_names: Vec::new(alloc),
        nested: Vec::new(alloc),
        nested_names: Vec::new(alloc),
        body: Body::Other,
    };
    add_node(alloc, read, wanted, &mut node)?;
    Ok(node)
}

// Fills a node that has only its numbers so far.
fn add_node<S: ReaderSegments>(
    alloc: Global,
    read: &node::Reader<'_, S>,
    wanted: Wanted,
    node: &mut Node,
) -> Result<()> {
    let name = read_name(alloc, read)?;
    node.name = name_in_code(alloc, read.get_annotations(), name)?;
    node.prefix = prefix_in_code(alloc, read.get_annotations(), wanted.namespaces)?;
    let list = read.get_nested_nodes()?;
    for nested in list.iter() {
        node.nested.push(nested.get_id())?;
        node.nested_names
            .push(read_text(alloc, nested.get_name())?)?;
    }
    node.body = read_body(alloc, read, &mut node.member_names)?;
    Ok(())
}

// The name of a node within the node in which it is declared; of a file its path.
fn read_name<S: ReaderSegments>(alloc: Global, read: &node::Reader<'_, S>) -> Result<String> {
    let shown = read_text(alloc, read.get_display_name())?;
    if read.get_scope_id() == 0 {
        return Ok(shown);
    }
    let prefix = read.get_display_name_prefix_length() as usize;
    Ok(String::from_str(alloc, shown.get(prefix..).unwrap_or(&shown))?)
}

// What a node declares; the names of its fields or enumerants, as the schema has them, are added to
// the names.
fn read_body<S: ReaderSegments>(
    alloc: Global,
    read: &node::Reader<'_, S>,
    names: &mut Vec<String>,
) -> Result<Body> {
    match read.which() {
        node::Which::File => Ok(Body::File),
        node::Which::Struct(group) => Ok(Body::Struct(read_struct(alloc, &group, names)?)),
        node::Which::Enum(group) => Ok(Body::Enum(read_enumerants(alloc, &group, names)?)),
        node::Which::Interface => Ok(Body::Interface),
        node::Which::Const(group) => Ok(Body::Constant(
            read_type(&group.get_type()?)?,
            read_value(alloc, &group.get_value()?)?,
        )),
        node::Which::NotInSchema(_) => Ok(Body::Other),
    }
}

// The names of the enumerants of an enum.
fn read_enumerants<S: ReaderSegments>(
    alloc: Global,
    group: &node::enum_::Reader<'_, '_, S>,
    names: &mut Vec<String>,
) -> Result<Vec<String>> {
    let mut enumerants = Vec::new(alloc);
    let list = group.get_enumerants()?;
    for enumerant in list.iter() {
        names.push(read_text(alloc, enumerant.get_name())?)?;
        let name = read_text(alloc, enumerant.get_name())?;
        enumerants.push(name_in_code(alloc, enumerant.get_annotations(), name)?)?;
    }
    Ok(enumerants)
}

// Gives each group the name of its field.
fn name_groups(alloc: Global, nodes: &mut [Node]) -> Result<()> {
    let groups = groups_of(alloc, nodes)?;
    for node in nodes {
        for (group, name) in &groups {
            if *group == node.id {
                node.name = String::from_str(alloc, name)?;
            }
        }
    }
    Ok(())
}

// The groups of some nodes, with the names of their fields.
fn groups_of(alloc: Global, nodes: &[Node]) -> Result<Vec<(u64, String)>> {
    let mut groups: Vec<(u64, String)> = Vec::new(alloc);
    for node in nodes {
        if let Body::Struct(body) = &node.body {
            for field in &body.fields {
                if let Slot::Group(group) = field.slot {
                    groups.push((group, String::from_str(alloc, &field.name)?))?;
                }
            }
        }
    }
    Ok(groups)
}

// What a node says of a struct.
fn read_struct<S: ReaderSegments>(
    alloc: Global,
    group: &node::struct_::Reader<'_, '_, S>,
    names: &mut Vec<String>,
) -> Result<Struct> {
    let mut fields = Vec::new(alloc);
    let list = group.get_fields()?;
    for field in list.iter() {
        names.push(read_text(alloc, field.get_name())?)?;
        fields.push(read_field(alloc, &field)?)?;
    }
    Ok(Struct {
        is_group: group.get_is_group(),
        discriminant: if group.get_discriminant_count() == 0 {
            None
        } else {
            Some(group.get_discriminant_offset())
        },
        data_words: group.get_data_word_count() as u32,
        pointers: group.get_pointer_count() as u32,
        fields,
    })
}

// A field.
fn read_field<S: ReaderSegments>(alloc: Global, read: &field::Reader<'_, S>) -> Result<Field> {
    let member = read.get_discriminant_value();
    let name = read_text(alloc, read.get_name())?;
    Ok(Field {
        name: name_in_code(alloc, read.get_annotations(), name)?,
        member: if member == field::NO_DISCRIMINANT {
            None
        } else {
            Some(member)
        },
        slot: read_slot(alloc, read)?,
    })
}

// Where a field is in its struct.
fn read_slot<S: ReaderSegments>(alloc: Global, read: &field::Reader<'_, S>) -> Result<Slot> {
    match read.which() {
        field::Which::Slot(slot) => Ok(Slot::At(Place {
            offset: slot.get_offset(),
            of: read_type(&slot.get_type()?)?,
            default: read_value(alloc, &slot.get_default_value()?)?,
        })),
        field::Which::Group(id) => Ok(Slot::Group(id)),
        field::Which::NotInSchema(_) => Ok(Slot::Unknown),
    }
}

// Adds the comments to their nodes.
fn add_comments<S: ReaderSegments>(
    root: &code_generator_request::Reader<'_, S>,
    request: &mut Request,
) -> Result<()> {
    let alloc = request.alloc;
    let list = root.get_source_info()?;
    for info in list.iter() {
        let id = info.get_id();
        for node in request.nodes.as_mut_slice() {
            if node.id == id {
                node.comment = read_text(alloc, info.get_doc_comment())?;
                node.member_comments = read_member_comments(alloc, &info)?;
            }
        }
    }
    Ok(())
}

// The comments of the members of a node.
fn read_member_comments<S: ReaderSegments>(
    alloc: Global,
    info: &node::source_info::Reader<'_, S>,
) -> Result<Vec<String>> {
    let mut comments = Vec::new(alloc);
    let list = info.get_members()?;
    for member in list.iter() {
        comments.push(read_text(alloc, member.get_doc_comment())?)?;
    }
    Ok(comments)
}
