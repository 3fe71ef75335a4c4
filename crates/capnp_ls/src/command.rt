//! The words that the program takes.
ghost use Rattle.std.specs.Prelude.{◌≡◌, ◌↔◌, true, [], ◌∷◌, map, string_bytes, IfSome, IfNone};
ghost use Rattle.capnp.specs.Prelude.{Padding, Any};
ghost use Rattle.capnp.specs.declared.streams.Format.{Format};
ghost use Rattle.capnp.specs.declared.streams.Format.TheVariants.{Packed};
ghost use Rattle.capnp_ls.specs.declared.command.Command.{Command};
ghost use Rattle.capnp_ls.specs.Commands.{AreOptions, IsCommand};

use capnp::Way;
use capnp::serialize::Padding;
use capnp::streams::Format;

/// What the program is to do.
#[derive(Clone, Copy, Debug, PartialEq, Eq)]
pub enum Command {
    /// `list`, with `--packed`, `--lenient` or both after it, in either order: print a line for each
    /// message.
    Listing(Format, Padding),
    /// `pack` and `unpack`, each with `--lenient` after it or not: write each message in the other
    /// format.
    Transcoding(Way, Padding),
    /// `canon`, with `--packed` after it or not: write the canonical form of each message, framed.
    Canonical(Format),
}

impl Command {
    /// The command that these words, which follow the program's name, stand for.
    pub fn from_words(words: &[String]) -> Option<Command>
        ensures some { IfSome result (λ command. IsCommand command (map string_bytes words.now)) }
        ensures none { IfNone result
            ((command : Command) → IsCommand command (map string_bytes words.now) → ⊥) }
    {
        let (name, options) = words.split_first()?;
        let (format, padding) = options_of(options)?;
        match name.as_str() {
            "list" => Some(Command::Listing(format, padding)),
            "pack" if format == Format::Framed => Some(Command::Transcoding(Way::Pack, padding)),
            "unpack" if format == Format::Framed => {
                Some(Command::Transcoding(Way::Unpack, padding))
            }
            "canon" if padding == Padding::Zero => Some(Command::Canonical(format)),
            _ => None,
        }
    }
}

// The format and the rule of padding that options stand for.
fn options_of(words: &[String]) -> Option<(Format, Padding)>
    ensures some { IfSome result (λ options.
        AreOptions options.0 options.1 (map string_bytes words.now)) }
    ensures none { IfNone result ((format : Format) (padding : Padding) →
        AreOptions format padding (map string_bytes words.now) → ⊥) }
{
    match words {
        [] => Some((Format::Framed, Padding::Zero)),
        [option] => match option.as_str() {
            "--packed" => Some((Format::Packed, Padding::Zero)),
            "--lenient" => Some((Format::Framed, Padding::Any)),
            _ => None,
        },
        [first, second] if are_both(first, second) => Some((Format::Packed, Padding::Any)),
        _ => None,
    }
}

// Whether these are the words of both options, in either order.
fn are_both(first: &str, second: &str) -> bool
    ensures { result ≡ true ↔ AreOptions Packed Any (first.now ∷ second.now ∷ []) }
{
    first == "--packed" && second == "--lenient" || first == "--lenient" && second == "--packed"
}
