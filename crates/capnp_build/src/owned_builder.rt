//! Types of schemas that can be built.
ghost use Rattle.std.specs.Prelude.{◌≡◌, ℕ, List, IfOk, IfErr, OnOk};
ghost use Rattle.capnp_frame.specs.declared.error.ErrorKind.{ErrorKind};
ghost use Rattle.capnp_layout.specs.Prelude.{Form};
ghost use Rattle.capnp_build.specs.NewBody.{new_form, OptionFits};
ghost use Rattle.capnp_build.specs.RootKind.{ShowsRoot, HoldsForm};

use crate::object::NewBody;
use crate::root_kind::RootKind;
use capnp_frame::Result;

/// A type of a schema whose objects can be built in place, at the root of a message: which new
/// object is made for a length, and which objects have a view of this type.
///
/// ```
/// assert!(rt; any_struct::Owned::object(65535)?.is_some());
/// assert!(rt; any_struct::Owned::object(65536).is_err());
/// assert!(rt; any_pointer::Owned::object(0)?.is_none());
/// ```
pub trait OwnedBuilder {
    /// The object that is made for this length.
    ghost inits: { ℕ → Form → Type 0 };

    /// With which errors making an object of this length fails.
    ghost fails: { ℕ → ErrorKind → Type 0 };

    /// The object that is made for length `n`; `None` for null. Fails with a kind that `fails`
    /// names.
    fn object(n: u32) -> Result<Option<NewBody>>
        ensures inits { IfOk result (λ body. inits n (new_form body)) }
        ensures fits { IfOk result OptionFits }
        ensures errors { IfErr result (λ error. fails n error.kind) };

    /// Which objects have a view.
    ghost takes: { Form → Type 0 };

    /// With which error an object without a view fails.
    ghost form_error: { Form → ErrorKind → Type 0 };

    /// Checks that an object of this kind, with these bytes, can be viewed as this type. Fails with
    /// a kind that `form_error` names.
    fn accept(shown: RootKind, bytes: &[u8]) -> Result<()>
        ensures taken { OnOk result ((form : Form) → ShowsRoot shown form →
            HoldsForm bytes.now form → takes form) }
        ensures form_errors { IfErr result (λ error. (form : Form) → ShowsRoot shown form →
            HoldsForm bytes.now form → form_error form error.kind) };
}
