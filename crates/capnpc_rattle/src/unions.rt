//! Unions: which member is set, as an enum.
use crate::code::{Code, Holes};
use crate::getters::{Shown, Site};
use crate::names::{snake, variant};
use crate::schema::Field;
use crate::templates::{CASE, LONG_CASE, MEMBERS, WHICH};
use std::alloc::{AllocError, Global};

/// How many bytes of a member's fact are too many for the line of its case.
const LONG_FACT: usize = 39;

/// The members of a union, as they are written.
#[derive(Drop)]
pub struct Members {
    /// The cases of the clause.
    cases: Code,
    /// The arms of the match.
    arms: Code,
    /// The variants of the enum.
    variants: Code,
    /// How many there are.
    count: u32,
}

impl Members {
    /// No members.
    pub fn new(alloc: Global) -> Members {
        Members {
            cases: Code::new(alloc, 0),
            arms: Code::new(alloc, 0),
            variants: Code::new(alloc, 0),
            count: 0,
        }
    }

    /// Adds a member, which has this number, with what its getter returns.
    pub fn push(&mut self, field: &Field, number: u16, shown: Option<&Shown>) {
        let alloc = self.cases.alloc;
        self.count = self.count.saturating_add(1);
        let holes = Holes::new(alloc)
            .holding("variant", variant(alloc, &field.name))
            .number("number", number);
        match shown {
            None => {
                self.cases
                    .add("  | Which.@variant@ ↦ number $≡ @number@", &holes);
                self.arms.add("@number@ => Which::@variant@,", &holes);
                self.variants.add("@variant@,", &holes);
            }
            Some(shown) => {
                let holes = holes
                    .holding("getter", snake(alloc, &field.name))
                    .holding("payload", shown.type_for(alloc, "'b"));
                self.arms.add("@number@ => Which::@variant@(self.get_@getter@()),", &holes);
                self.variants.add("@variant@(@payload@),", &holes);
                self.push_case(holes, shown);
            }
        }
    }

    // Adds the case of a member that has a value.
    fn push_case(&mut self, holes: Holes, shown: &Shown) {
        let alloc = self.cases.alloc;
        let fact = self.cases.text(shown.fact_of(alloc, "value"));
        let is_long = fact.len() > LONG_FACT || fact.contains("\n");
        let template = if is_long { LONG_CASE } else { CASE };
        self.cases.add(template, &holes.with("fact", &fact));
    }

    // The parameters of the enum, out of the ones that its variants name.
    fn parameters(&self, borrow: &str, segments: &str) -> Result<String, AllocError> {
        let variants = self.variants.as_str();
        let mut list = Code::new(self.cases.alloc, 0);
        if variants.contains("'b") {
            push_parameter(&mut list, borrow);
        }
        if variants.contains("'a") {
            push_parameter(&mut list, "'a");
        }
        if variants.contains(" S>") || variants.contains(" S,") {
            push_parameter(&mut list, segments);
        }
        if !list.as_str().is_empty() {
            list.add_code(">");
        }
        list.whole()
    }

    /// Adds the method that returns which member is set, by the number at this offset, after the
    /// last member.
    pub fn push_which(&mut self, code: &mut Code, site: Site<'_>, offset: u32) {
        let count = self.count;
        let last = "  | Which.NotInSchema unknown ↦ (unknown $≡ number) × (@count@ $≤ number)";
        self.cases.add(last, &code.holes().number("count", count));
        self.arms
            .add_lines("unknown => Which::NotInSchema(unknown),");
        let holes = code
            .holes()
            .code("cases", &self.cases)
            .code("arms", &self.arms)
            .number("offset", offset)
            .holding("arguments", self.parameters(site.borrow(), "S"))
            .with("fields", site.fields());
        code.add(WHICH, &holes);
    }

    /// Adds the enum of the members.
    pub fn push_enum(&self, code: &mut Code) {
        let holes = code
            .holes()
            .holding("parameters", self.parameters("'b", "S: $ReaderSegments"))
            .code("variants", &self.variants);
        code.add(MEMBERS, &holes);
    }
}

// Adds a parameter to a list of them that is still open.
fn push_parameter(list: &mut Code, parameter: &str) {
    list.add_code(if list.as_str().is_empty() { "<" } else { ", " });
    list.add_code(parameter);
}
