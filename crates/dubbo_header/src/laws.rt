//! What holds of every header, whoever writes or reads it.

ghost use Rattle.std.specs.Prelude.{◌≡◌, ℕ, List, ◌++◌, length};
ghost use Rattle.dubbo_header.specs.Header.{IsHeader, header_bytes};
ghost use Rattle.dubbo_header.specs.declared.header.Header.{Header};

/// A header has sixteen bytes, and no other header begins with the same.
///
/// So what `write_header` writes is read back by `read_header` as the same header, and bytes that
/// begin with a header begin with that one alone.
#[tactic(auto, unfolding(crate::specs::Header::header_bytes))]
pub fn one_spelling()
    ensures sixteen { (h : Header) → length (header_bytes h) ≡ 16 }
    ensures unique { (h other : Header) (rest more : List ℕ) → IsHeader h → IsHeader other
        → header_bytes h ++ rest ≡ header_bytes other ++ more → h ≡ other }
{}
