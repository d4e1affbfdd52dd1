//! What is read from and written to.

ghost use Rattle.std.specs.Prelude.{◌≡◌, ◌<◌, ◌≤◌, ℕ, Option, [], ◌∷◌, length, take, IfOk, OnOk, OnErr};
ghost use Rattle.bwe_io.specs.Faults.{HasRisen};
ghost use Rattle.live_stream.specs.Talk.{Talk, Faults, Goes, GivesPrefix, IsOver, NeverFall, Took, gives};

use bwe_io::Failed;

/// Something that gives bytes and takes texts, and counts its faults.
pub trait Stream {
    /// What is still to come and what has happened so far, where the stream tells it.
    ghost talk: { Self → Option Talk };

    /// How often a read and a write failed.
    ghost faults: { Self → Faults };

    /// Puts the next bytes into the front of the buffer as they come, and says how many. None is
    /// the end of input.
    fn read(&mut self, buffer: &mut [u8]) -> Result<usize, Failed>
        requires { 0 < length buffer.old }
        ensures fits { IfOk result (λ count. count ≤ length buffer.new) }
        ensures took { IfOk result (λ count.
            Goes (talk self.old) (talk self.new) (Took (take count buffer.new) ∷ [])) }
        ensures end { IfOk result (λ count. count ≡ 0 → IsOver (talk self.new)) }
        // A failed read takes nothing.
        ensures nothing { OnErr result (Goes (talk self.old) (talk self.new) []) }
        ensures counted { NeverFall (faults self.old) (faults self.new) }
        ensures failed { OnErr result (HasRisen (faults self.old).reads (faults self.new).reads) };

    /// Gives all of the text, which has left when the call returns. After a fault a prefix of it
    /// was given.
    fn write(&mut self, text: &[u8]) -> Result<(), Failed>
        ensures whole { OnOk result (Goes (talk self.old) (talk self.new) (gives text.now)) }
        ensures prefix { OnErr result (GivesPrefix (talk self.old) (talk self.new) text.now) }
        ensures counted { NeverFall (faults self.old) (faults self.new) }
        ensures failed { OnErr result
            (HasRisen (faults self.old).writes (faults self.new).writes) };
}
