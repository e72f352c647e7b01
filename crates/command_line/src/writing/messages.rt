//! Writing messages, as far as the writer takes them.
ghost use Rattle.std.specs.Prelude.{◌≡◌, ℕ, List, IfOk, IsTrue, flat_map, string_bytes};
ghost use Rattle.std.specs.Io.KnownBytes.{Appends};
ghost use Rattle.command_line.specs.Writing.{AppendsPrefix};

use std::alloc::AllocError;
use std::io::Write;
use verity_io::put_all;

/// Writes a text as far as the writer takes it. The answer says whether it took all of it.
pub fn write_text<W: Write>(text: &str, msgs: &mut W) -> bool
    ensures whole { IsTrue result → Appends (W.contents msgs.old) (W.contents msgs.new) text.now }
    ensures prefix { AppendsPrefix text.now (W.contents msgs.old) (W.contents msgs.new) }
{
    match put_all(msgs, text.as_bytes()) {
        Ok(()) => true,
        Err(_) => false,
    }
}

/// Writes a message as far as the writer takes it, and nothing if there was no memory for it. The answer says whether
/// the writer took all of it.
pub fn write_message<W: Write>(message: Result<String, AllocError>, msgs: &mut W) -> bool
    ensures whole { (text : List ℕ) → IfOk message (λ s. string_bytes s ≡ text)
        → IsTrue result → Appends (W.contents msgs.old) (W.contents msgs.new) text }
    ensures prefix { (text : List ℕ) → IfOk message (λ s. string_bytes s ≡ text)
        → AppendsPrefix text (W.contents msgs.old) (W.contents msgs.new) }
{
    match message {
        Ok(text) => write_text(text.as_str(), msgs),
        Err(_) => false,
    }
}

/// Writes the pieces of a text one after another, as far as the writer takes them. This needs no memory. The answer
/// says whether the writer took all of them.
pub fn write_pieces<W: Write>(pieces: &[&str], msgs: &mut W) -> bool
    ensures whole { IsTrue result
        → Appends (W.contents msgs.old) (W.contents msgs.new) (flat_map (λ p. p.now) pieces.now) }
    ensures prefix { AppendsPrefix (flat_map (λ p. p.now) pieces.now) (W.contents msgs.old) (W.contents msgs.new) }
{
    for piece in pieces {
        match put_all(msgs, piece.as_bytes()) {
            Ok(()) => {}
            Err(_) => return false,
        }
    }
    true
}
