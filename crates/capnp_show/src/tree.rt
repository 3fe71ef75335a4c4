//! The objects of a message, one by one, each before those below it.
//!
//! A walk ends whatever the pointers are: it goes no deeper than the nesting limit, and stops where
//! the objects have more words than the limit of words.
ghost use Rattle.std.specs.Prelude.{◌≡◌, ◌↔◌, ◌≤◌, ◌+◌, ◌-◌, [], ◌∷◌, min, MatchOption, IfOk, IfSome, IsTrue, IsFalse, None, option_map};
ghost use Rattle.std.specs.List.{All};
ghost use Rattle.capnp_wire.specs.Prelude.{nesting_of};
ghost use Rattle.capnp_show.specs.NodeRuns.{run_after, pointers_run, IsSpent, IsNodeOf, LeavesRuns, LeavesWords, Comes, Finds, IsBelow};

use crate::objects::{Object, moved, object_at};
use capnp::ErrorKind;
use capnp::layout::{Body, Place, StructSize};
use capnp::message::{ReaderOptions, ReaderSegments};
use std::alloc::{AllocError, Global};

/// The place of a node in its parent.
#[derive(Clone, Copy)]
pub enum Label {
    Root,
    Pointer(u64),
    Element(u64),
}

/// What was found at a node.
#[derive(Clone, Copy)]
pub enum Found {
    Null,
    Object(Object),
    /// A struct of a list of structs.
    Element(Place, StructSize),
    /// Nothing that could be shown, with this error.
    Invalid(ErrorKind),
}

/// A pointer of a message, or an element of a list of structs.
#[derive(Clone, Copy)]
pub struct Node {
    pub label: Label,
    /// Where the pointer is, or the element begins.
    pub place: Place,
    /// How many nodes lead to it.
    pub depth: u64,
    pub found: Found,
}

// Nodes that are still to come, one after the other.
#[derive(Clone, Copy)]
struct NodeRun {
    // The next node, and how many there are.
    index: u64,
    count: u64,
    // Where the next node is.
    next: Place,
    // What each node is.
    kind: NodeRunKind,
    depth: u64,
    // How many more objects may be nested below.
    nesting: u64,
}

#[derive(Clone, Copy)]
enum NodeRunKind {
    Root,
    Pointers,
    Elements(StructSize),
}

/// A walk over the objects of a message.
#[derive(Drop)]
pub struct Walk {
    runs: Vec<NodeRun>,
    // How many more words objects may have, if there is a limit.
    left: Option<u64>,
}

impl Walk {
    /// A walk that begins at the root pointer, the first word of the first segment.
    pub fn new(alloc: Global, limits: ReaderOptions) -> Result<Walk, AllocError>
        ensures left { IfOk result (λ walk. walk.left ≡ limits.traversal_limit_in_words) }
        ensures runs { IfOk result (λ walk. walk.runs.items ≡ record {
          index = 0;
          count = 1;
          next = record { segment = 0; word = 0 };
          kind = NodeRunKind.Root;
          depth = 0;
          nesting = nesting_of limits.nesting_limit;
        } ∷ []) }
    {
        let mut runs = Vec::new(alloc);
        runs.push(NodeRun {
            index: 0,
            count: 1,
            next: Place {
                segment: 0,
                word: 0,
            },
            kind: NodeRunKind::Root,
            depth: 0,
            nesting: u64::try_from(limits.nesting_limit).unwrap_or(0),
        })?;
        let left = match limits.traversal_limit_in_words {
            Some(words) => Some(words as u64),
            None => None,
        };
        Ok(Walk { runs, left })
    }

    /// The next node; `None` at the end.
    pub fn next<S: ReaderSegments>(&mut self, segments: &S) -> Result<Option<Node>, AllocError>
        ensures { IfOk result (λ found. MatchOption found (All IsSpent self.old.runs.items)
            (λ node. Comes (S.segments segments.now) self.old.runs.items self.old.left node
            self.new.runs.items self.new.left)) }
    {
        while let Some(run) = self.runs.pop() {
            if run.index < run.count {
                self.runs.push(run.after())?;
                return Ok(Some(self.node(segments, run)?));
            }
        }
        Ok(None)
    }

    // The next node of a run.
    fn node<S: ReaderSegments>(&mut self, segments: &S, run: NodeRun) -> Result<Node, AllocError>
        ensures node { IfOk result (IsNodeOf (S.segments segments.now) run self.old.left) }
        ensures runs { IfOk result (λ node.
            LeavesRuns run node.found self.old.runs.items self.new.runs.items) }
        ensures words { IfOk result (λ node. LeavesWords node.found self.old.left self.new.left) }
    {
        let label = match run.kind {
            NodeRunKind::Root => Label::Root,
            NodeRunKind::Pointers => Label::Pointer(run.index),
            NodeRunKind::Elements(_) => Label::Element(run.index),
        };
        let found = match run.kind {
            NodeRunKind::Elements(size) => {
                self.runs
                    .push(run.pointers_of(run.next, size, run.nesting))?;
                Found::Element(run.next, size)
            }
            _ => self.follow(segments, run)?,
        };
        Ok(Node {
            label,
            place: run.next,
            depth: run.depth,
            found,
        })
    }

    // What the next pointer of a run leads to.
    fn follow<S: ReaderSegments>(&mut self, segments: &S, run: NodeRun) -> Result<Found, AllocError>
        ensures found { IfOk result (λ found.
            Finds (S.segments segments.now) run.next run.nesting self.old.left found) }
        ensures runs { IfOk result (λ found.
            LeavesRuns run found self.old.runs.items self.new.runs.items) }
        ensures words { IfOk result (λ found. LeavesWords found self.old.left self.new.left) }
    {
        let object = match object_at(segments, run.next) {
            Ok(Some(object)) => object,
            Ok(None) => return Ok(Found::Null),
            Err(error) => return Ok(Found::Invalid(error.kind)),
        };
        if run.nesting == 0 {
            return Ok(Found::Invalid(ErrorKind::NestingLimitExceeded));
        }
        if !self.take(object.traversed()) {
            self.runs.clear();
            return Ok(Found::Invalid(ErrorKind::ReadLimitExceeded));
        }
        if let Some(below) = run.below(&object) {
            self.runs.push(below)?;
        }
        Ok(Found::Object(object))
    }

    // Counts words against the limit; returns false where fewer are left.
    fn take(&mut self, words: u64) -> bool
        ensures within { IfSome self.old.left (λ left. IsTrue result ↔ (words ≤ left)) }
        ensures unlimited { self.old.left ≡ None → IsTrue result }
        ensures taken { IsTrue result → self.new.left ≡ option_map (λ left. left - words) self.old.left }
        ensures kept { IsFalse result → self.new.left ≡ self.old.left }
        ensures runs { self.new.runs ≡ self.old.runs }
    {
        let Some(left) = self.left else {
            return true;
        };
        match left.checked_sub(words) {
            Some(less) => {
                self.left = Some(less);
                true
            }
            None => false,
        }
    }
}

impl NodeRun {
    // The run after its next node.
    fn after(self) -> NodeRun
        ensures { result ≡ run_after self }
    {
        let words = match self.kind {
            NodeRunKind::Elements(size) => size.words(),
            _ => 1,
        };
        NodeRun {
            index: self.index.saturating_add(1),
            count: self.count,
            next: moved(self.next, words),
            kind: self.kind,
            depth: self.depth,
            nesting: self.nesting,
        }
    }

    // The nodes below an object that this run leads to: its pointers, or, where its elements have
    // pointers, its elements.
    fn below(self, object: &Object) -> Option<NodeRun>
        ensures { IsBelow self object.now result }
    {
        let nesting = self.nesting.saturating_sub(1);
        match object.body {
            Body::Struct(size) => Some(self.pointers_of(object.start, size, nesting)),
            Body::Numbers(_, _) => None,
            Body::Pointers(count) => {
                Some(self.run(
                    NodeRunKind::Pointers,
                    object.start,
                    u64::from(count),
                    nesting,
                ))
            }
            Body::Structs(elements, _) if elements.size.pointers == 0 => None,
            Body::Structs(elements, _) => {
                Some(self.run(
                    NodeRunKind::Elements(elements.size),
                    moved(object.start, 1),
                    u64::from(elements.count),
                    nesting,
                ))
            }
        }
    }

    // The pointers of a struct at a place.
    fn pointers_of(self, start: Place, size: StructSize, nesting: u64) -> NodeRun
        ensures { result ≡ pointers_run self start size nesting }
    {
        let first = moved(start, u64::from(size.data_words));
        self.run(
            NodeRunKind::Pointers,
            first,
            u64::from(size.pointers),
            nesting,
        )
    }

    // Nodes one step deeper than the nodes of this run.
    fn run(self, kind: NodeRunKind, next: Place, count: u64, nesting: u64) -> NodeRun
        ensures { result ≡ record {
          index = 0;
          count = count;
          next = next;
          kind = kind;
          depth = min (self.depth + 1) u64.MAX;
          nesting = nesting;
        } }
    {
        NodeRun {
            index: 0,
            count,
            next,
            kind,
            depth: self.depth.saturating_add(1),
            nesting,
        }
    }
}
