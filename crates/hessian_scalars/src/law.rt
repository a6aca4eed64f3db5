//! What holds of all spellings. Each law is a function without work: its clause is the law.

ghost use Rattle.std.specs.Prelude.{◌≡◌, List, ℕ, [], ◌∷◌, ◌++◌, length};
ghost use Rattle.hessian_scalars.specs.ScalarSpelling.{ScalarSpelling};
ghost use Rattle.hessian_scalars.specs.Written.{Appends, IsShortest};
ghost use Rattle.hessian_scalars.specs.Read.{IsSpelledAt, BeginsInt, IsInt};
ghost use Rattle.hessian_scalars.specs.declared.scalar.Scalar.{Scalar};

/// No spelling goes on as a longer one, of whatever value.
pub fn no_spelling_goes_on()
    ensures { (v w : Scalar) (bytes more : List ℕ) → ScalarSpelling v bytes → ScalarSpelling w (bytes ++ more) → more ≡ [] }
{}

/// Bytes spell at most one value.
pub fn bytes_have_one_value()
    ensures { (v w : Scalar) (bytes : List ℕ) → ScalarSpelling v bytes → ScalarSpelling w bytes → v ≡ w }
{}

/// What a writer appends is spelled there, whatever follows.
pub fn written_is_read_back()
    ensures { (old new more : List ℕ) (v : Scalar) → Appends old new v → IsSpelledAt (new ++ more) (length old) v (length new) }
{}

/// A value has one shortest spelling, which is the writer's.
pub fn writer_has_one_spelling()
    ensures { (v : Scalar) (this other : List ℕ) → IsShortest v this → IsShortest v other → this ≡ other }
{}

/// Where an int may begin, nothing else begins.
pub fn int_codes_begin_ints_alone()
    ensures { (v : Scalar) (code : ℕ) (more : List ℕ) → BeginsInt code → ScalarSpelling v (code ∷ more) → IsInt v }
{}
