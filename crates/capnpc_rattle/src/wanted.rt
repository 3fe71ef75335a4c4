//! What is written.

/// What is written in addition to readers.
#[derive(Clone, Copy)]
pub struct Wanted {
    pub builders: bool,
    /// The methods that print structs.
    pub printing: bool,
    /// Headers for C, and nothing in Rattle.
    pub for_c: bool,
    /// Imports from each crate of the library that has a name, and not from `capnp` alone.
    pub crates: bool,
    /// The namespaces of C++ before the names of headers.
    pub namespaces: bool,
}

impl Wanted {
    /// Builders alone.
    pub fn new() -> Wanted {
        Wanted {
            builders: true,
            printing: false,
            for_c: false,
            crates: false,
            namespaces: false,
        }
    }

    /// Adds what a word asks for: no builders for `readers`, the methods that print structs for
    /// `print`, headers for `c`, namespaces before their names for `namespace`, imports by crate for
    /// `crates`. `builders` asks for nothing, and `c::prefixes` reads `prefix=FILE:NAME`. Returns
    /// whether it is one of these words, and can be asked for together with the words before it: no
    /// header prints.
    pub fn ask(&mut self, word: &str) -> bool {
        match word {
            "builders" => {}
            "readers" => self.builders = false,
            "print" => self.printing = true,
            "c" => self.for_c = true,
            "crates" => self.crates = true,
            "namespace" => self.namespaces = true,
            _ if word.starts_with("prefix=") => {}
            _ => return false,
        }
        !(self.printing && self.for_c)
    }
}
