//! Octets that are sent to a sink, as those who have to know how far it came use it.

ghost use Rattle.std.specs.Prelude.{◌≡◌, ◌+◌, IsFalse, IsTrue};
ghost use Rattle.std.specs.Io.KnownBytes.{Appends};
ghost use Rattle.rpki_der.specs.Write.Sink.{AppendsFront};

use rpki::der::Sink;

/// Whether a sink took all of these octets. Where it did not, one call of it failed, the last one,
/// and what it took before that is a beginning of them.
pub fn is_sent<S: Sink>(octets: &[u8], out: &mut S) -> bool
    ensures whole { IsTrue result → Appends (S.taken out.old) (S.taken out.new) octets.now }
    ensures begun { IsFalse result → AppendsFront (S.taken out.old) (S.taken out.new) octets.now }
    ensures once { IsFalse result → S.failures out.new ≡ S.failures out.old + 1 }
{
    match out.take_all(octets) {
        Ok(()) => true,
        Err(_) => false,
    }
}
