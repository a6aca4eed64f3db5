//! Laws of the spellings: functions that do nothing, whose clauses hold of all bytes.

ghost use Rattle.std.specs.Prelude.{◌≡◌, ◌≢◌, ◌↔◌, ◌++◌, List, ℕ, []};
ghost use Rattle.hessian_text.specs.Reader.{Advances, Reading, Spells};
ghost use Rattle.hessian_text.specs.Refusal.{RefusesBinary, RefusesText};
ghost use Rattle.hessian_text.specs.Spelling.{AreBytes, BinarySpelling, IsSpelledAt, Spelling, TextSpelling};
ghost use Rattle.hessian_text.specs.Written.{WrittenBinary, WrittenText};
ghost use Rattle.hessian_text.specs.declared.fault.BinaryFault.TheVariants as binaries;
ghost use Rattle.hessian_text.specs.declared.fault.BinaryFault.{BinaryFault};
ghost use Rattle.hessian_text.specs.declared.fault.TextFault.TheVariants as texts;
ghost use Rattle.hessian_text.specs.declared.fault.TextFault.{TextFault};
ghost use Rattle.hessian_text.specs.declared.stage.Kind.TheVariants as kinds;
ghost use Rattle.hessian_text.specs.declared.stage.Kind.{Kind};
ghost use Rattle.hessian_text.specs.declared.stage.Stage.TheVariants as stages;

/// Bytes spell at most one value, and nothing that goes on behind a spelling is a spelling of the
/// same kind.
pub fn spelled_once()
    ensures { (kind : Kind) (value other bytes more : List ℕ) → AreBytes bytes
        → Spelling kind value bytes → Spelling kind other (bytes ++ more)
        → (more ≡ []) × (other ≡ value) }
{}

/// The writer's form of a binary is a spelling of it.
pub fn written_binary_spells()
    ensures { (contents written : List ℕ) → AreBytes contents
        → WrittenBinary contents written → BinarySpelling contents written }
{}

/// The writer's form of a text is a spelling of it.
pub fn written_text_spells()
    ensures { (text written : List ℕ) → WrittenText text written → TextSpelling text written }
{}

/// Where bytes lead a reading from its begin, they and what follows spell just the values that the
/// reading is followed by.
pub fn reading_goes_on()
    ensures { (kind : Kind) (after : Reading) (bytes value rest : List ℕ) → AreBytes bytes
        → Advances (record { kind = kind; done = []; stage = stages.Code }) bytes after
        → Spelling kind value (bytes ++ rest) ↔ Spells after value rest }
{}

/// Bytes have one refusal as a text at most, but for want of memory.
pub fn one_refusal_of_text()
    ensures { (bytes : List ℕ) (at : ℕ) (one other : TextFault) → AreBytes bytes
        → RefusesText bytes at one → RefusesText bytes at other
        → one ≢ texts.OutOfMemory → other ≢ texts.OutOfMemory → one ≡ other }
{}

/// Bytes have one refusal as a binary at most, but for want of memory.
pub fn one_refusal_of_binary()
    ensures { (bytes : List ℕ) (at : ℕ) (one other : BinaryFault) → AreBytes bytes
        → RefusesBinary bytes at one → RefusesBinary bytes at other
        → one ≢ binaries.OutOfMemory → other ≢ binaries.OutOfMemory → one ≡ other }
{}

/// Where a text stands, no refusal holds but want of memory.
pub fn no_refusal_of_a_text()
    ensures { (bytes value : List ℕ) (at end : ℕ) (fault : TextFault) → AreBytes bytes
        → IsSpelledAt kinds.Text bytes at value end → RefusesText bytes at fault
        → fault ≡ texts.OutOfMemory }
{}

/// Where a binary stands, no refusal holds but want of memory.
pub fn no_refusal_of_a_binary()
    ensures { (bytes value : List ℕ) (at end : ℕ) (fault : BinaryFault) → AreBytes bytes
        → IsSpelledAt kinds.Binary bytes at value end → RefusesBinary bytes at fault
        → fault ≡ binaries.OutOfMemory }
{}
