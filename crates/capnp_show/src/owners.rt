//! Which object each word of a message belongs to, and where its pointers lead.
ghost use Rattle.std.specs.Prelude.{◌≡◌, ◌↔◌, ◌/◌, ◌^◌, ◌<◌, ℕ, length, map, IfOk, IsTrue, Some, MatchOption, option_copied};
ghost use Rattle.std.specs.Simd.{first_chunks};
ghost use Rattle.capnp_show.specs.Words.{IsDrawnAsPointer, IsRole, IsRoleInElement, word_in, free_word};

use crate::objects::{Object, moved, words_of_landing_pad};
use crate::tree::{Found, Label, Node, Walk};
use capnp::ErrorKind;
use capnp::layout::{Body, Elements, Place};
use capnp::message::{ReaderOptions, ReaderSegments};
use capnp::serialize::SEGMENTS_COUNT_LIMIT;
use std::alloc::{AllocError, Global};

/// How many nodes of a message are followed at most.
pub const MOST_NODES: u64 = 65536;

/// The role of a word in its object.
#[derive(Clone, Copy)]
pub enum Role {
    Data,
    Pointer,
    Tag,
    /// A word of the landing pad that leads to the object.
    Landing,
}

/// The owner of a word.
#[derive(Clone, Copy)]
pub enum Owner {
    /// No object that the walk reaches.
    Free,
    /// The root pointer.
    Root,
    /// The object of this number, counted from 0 in the order of the walk, and the word's role in
    /// it.
    Object(u64, Role),
}

impl Owner {
    /// The owner of a word once another one claims it: the first one keeps it.
    fn claimed_by(self, claimant: Owner) -> Owner
        ensures claimed { self ≡ Owner.Free → result ≡ claimant }
        ensures kept { (self ≡ Owner.Free → ⊥) → result ≡ self }
    {
        match self {
            Owner::Free => claimant,
            owner => owner,
        }
    }
}

/// Where the pointer at a word leads.
#[derive(Clone, Copy)]
pub enum Lead {
    /// The walk follows no pointer there, or the pointer can't be followed.
    Nowhere,
    Null,
    /// To the object of this number, which begins at this place.
    Object(u64, Place),
}

/// A word of a message.
#[derive(Clone, Copy)]
pub struct Word {
    /// Its bytes, in the order of memory.
    pub bytes: [u8; 8],
    pub owner: Owner,
    pub lead: Lead,
    /// Why the pointer there is not followed, if it is not.
    pub error: Option<ErrorKind>,
}

impl Word {
    /// Whether the word is drawn as a pointer.
    pub fn is_pointer(&self) -> bool
        ensures { IsTrue result ↔ IsDrawnAsPointer self.now.owner }
    {
        matches!(self.owner, Owner::Root | Owner::Object(_, Role::Pointer))
    }

    /// The object that the word leads to, by its number, and where it begins.
    pub fn target(&self) -> Option<(u64, Place)>
        ensures { let leads = λ (number : ℕ) (start : Place). IsDrawnAsPointer self.now.owner
            × (self.now.lead ≡ Lead.Object number start) in
            MatchOption result ((number : ℕ) (start : Place) → leads number start → ⊥)
            (λ target. leads target.0 target.1) }
    {
        match self.lead {
            Lead::Object(number, start) if self.is_pointer() => Some((number, start)),
            _ => None,
        }
    }
}

/// The words of a message, each with the object that it belongs to: the first object through which
/// the walk reaches it.
#[derive(Drop)]
pub struct Owners {
    segments: Vec<Vec<Word>>,
    // How many objects the walk has come to.
    objects: u64,
    // Why the root pointer is not followed, where there is no word for it.
    no_root: Option<ErrorKind>,
}

impl Owners {
    /// The words of a message, after a walk over its first `MOST_NODES` nodes.
    pub fn of_message<S: ReaderSegments>(
        alloc: Global,
        limits: ReaderOptions,
        segments: &S,
    ) -> Result<Owners, AllocError> {
        let mut owners = Owners::free(alloc, segments)?;
        let mut walk = Walk::new(alloc, limits)?;
        for _ in 0..MOST_NODES {
            let Some(node) = walk.next(segments)? else {
                break;
            };
            owners.add(&node);
        }
        Ok(owners)
    }

    /// The words of each segment.
    pub fn segments(&self) -> &[Vec<Word>]
        ensures { result.now ≡ self.now.segments.items }
    {
        self.segments.as_slice()
    }

    /// Why the root pointer is not followed, where there is no word for it.
    pub fn no_root(&self) -> Option<ErrorKind>
        ensures { result ≡ self.now.no_root }
    {
        self.no_root
    }

    /// The word at a place; `None` where the message has none there.
    pub fn word(&self, place: Place) -> Option<&Word>
        ensures { option_copied result ≡ word_in self.now place }
    {
        let words = self.segments.get(place.segment as usize)?;
        words.get(place.word)
    }

    // The words of a message before the walk.
    fn free<S: ReaderSegments>(alloc: Global, segments: &S) -> Result<Owners, AllocError> {
        let mut words = Vec::new(alloc);
        for id in 0..SEGMENTS_COUNT_LIMIT as u32 {
            let Some(segment) = segments.get_segment(id) else {
                break;
            };
            words.push(free_words(alloc, segment)?)?;
        }
        Ok(Owners {
            segments: words,
            objects: 0,
            no_root: None,
        })
    }

    // Adds what a node says about the words.
    fn add(&mut self, node: &Node) {
        if let Label::Root = node.label {
            self.claim(node.place, Owner::Root);
        }
        match node.found {
            Found::Null => self.lead(node.place, Lead::Null),
            Found::Object(object) => {
                self.lead(node.place, Lead::Object(self.objects, object.start));
                self.claim_object(&object);
                self.objects = self.objects.saturating_add(1);
            }
            Found::Element(_, _) => {}
            Found::Invalid(kind) => self.note_error(node.place, kind),
        }
    }

    // Claims the words of an object and of its landing pad.
    fn claim_object(&mut self, object: &Object) {
        let number = self.objects;
        if let Some(far) = object.far {
            for index in 0..words_of_landing_pad(far) {
                let place = moved(far.landing_pad, index);
                self.claim(place, Owner::Object(number, Role::Landing));
            }
        }
        for index in 0..object.words() {
            let role = role_of(object.body, index);
            if !self.claim(moved(object.start, index), Owner::Object(number, role)) {
                break;
            }
        }
    }

    // Claims a word, unless another object has; false where there is no such word.
    fn claim(&mut self, place: Place, owner: Owner) -> bool {
        let Some(word) = self.word_mut(place) else {
            return false;
        };
        word.owner = word.owner.claimed_by(owner);
        true
    }

    // Says where the pointer at a word leads, unless that was said before.
    fn lead(&mut self, place: Place, lead: Lead) {
        if let Some(word) = self.word_mut(place)
            && matches!(word.lead, Lead::Nowhere)
        {
            word.lead = lead;
        }
    }

    // Says why the pointer at a word is not followed; the first reason is kept.
    fn note_error(&mut self, place: Place, kind: ErrorKind) {
        match self.word_mut(place) {
            Some(word) => word.error = word.error.or(Some(kind)),
            None => self.no_root = Some(kind),
        }
    }

    fn word_mut(&mut self, place: Place) -> Option<&mut Word> {
        let words = self.segments.get_mut(place.segment as usize)?;
        words.get_mut(place.word)
    }
}

// The words of a segment before the walk.
fn free_words(alloc: Global, segment: &[u8]) -> Result<Vec<Word>, AllocError>
    ensures { IfOk result (λ words. words.items
        ≡ map free_word (first_chunks 8 (length segment.now / 8) segment.now)) }
{
    let (words, _) = segment.as_chunks::<8>();
    let mut free = Vec::new(alloc);
    for word in words {
        free.push(Word {
            bytes: *word,
            owner: Owner::Free,
            lead: Lead::Nowhere,
            error: None,
        })?;
    }
    Ok(free)
}

// The role of the word of an object that is this many words after the object's start.
fn role_of(body: Body, index: u64) -> Role
    ensures { IsRole body index result }
{
    match body {
        Body::Struct(size) if index >= size.data_words as u64 => Role::Pointer,
        Body::Pointers(_) => Role::Pointer,
        Body::Structs(_, _) if index == 0 => Role::Tag,
        Body::Structs(elements, _) => role_in_element(elements, index.saturating_sub(1)),
        _ => Role::Data,
    }
}

// The role of the word of a list of structs that is this many words after the list's tag.
fn role_in_element(elements: Elements, after_tag: u64) -> Role
    ensures { IsRoleInElement elements.size elements.count after_tag result }
{
    let words = elements.size.words();
    if words != 0
        && after_tag / words < elements.count as u64
        && after_tag % words >= elements.size.data_words as u64
    {
        Role::Pointer
    } else {
        Role::Data
    }
}
