//! What holds of scripts of the first form, whatever the bytes.

ghost use Rattle.std.specs.Prelude.{◌≡◌, ℕ, List};
ghost use Rattle.dubbo_play.specs.FirstForm.{Call};
ghost use Rattle.dubbo_play.specs.FirstScript.{IsFirstOther, Reads};

/// A script has one list of calls, other bytes are refused at one line, and no bytes are both.
pub fn first_script_laws()
    ensures once { (bytes : List ℕ) (calls others : List Call) →
        Reads bytes calls → Reads bytes others → calls ≡ others }
    ensures apart { (bytes : List ℕ) (calls : List Call) (line : ℕ) →
        Reads bytes calls → ¬ IsFirstOther bytes line }
    ensures first { (bytes : List ℕ) (line other : ℕ) →
        IsFirstOther bytes line → IsFirstOther bytes other → line ≡ other }
{}
