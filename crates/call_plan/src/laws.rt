//! Laws of scripts and of printed lines, as functions whose clauses are the laws. They do nothing when they are called.

ghost use Rattle.std.specs.Prelude.{◌≡◌, ◌≢◌, ℕ, List};
ghost use Rattle.call_plan.specs.declared.calls.CallResult.{CallResult as AResult};
ghost use Rattle.call_plan.specs.declared.calls.Mode.{Mode as AMode};
ghost use Rattle.call_plan.specs.declared.fault.ScriptFault.{ScriptFault as AFault};
ghost use Rattle.call_plan.specs.declared.fault.ScriptFault.TheVariants.{OutOfMemory};
ghost use Rattle.call_plan.specs.ResultLine.{IsLine};
ghost use Rattle.call_plan.specs.ScriptReading.{IsScript, Plan, Refuses};

/// Bytes are a script in at most one way.
pub fn has_one_reading()
    ensures { (bytes : List ℕ) → (p q : Plan) → IsScript bytes p → IsScript bytes q → p ≡ q }
{}

/// Bytes are refused for at most one cause, want of memory aside.
pub fn has_one_refusal()
    ensures { (bytes : List ℕ) → (a b : AFault) → a ≢ OutOfMemory → b ≢ OutOfMemory → Refuses bytes a → Refuses bytes b → a ≡ b }
{}

/// No script is refused but for want of memory.
pub fn no_script_is_refused()
    ensures { (bytes : List ℕ) → (plan : Plan) → (fault : AFault) → fault ≢ OutOfMemory → IsScript bytes plan → Refuses bytes fault → ⊥ }
{}

/// A result is told by one line.
pub fn has_one_line()
    ensures { (k : ℕ) → (mode : AMode) → (outcome : AResult) → (a b : List ℕ) → IsLine k mode outcome a → IsLine k mode outcome b → a ≡ b }
{}
