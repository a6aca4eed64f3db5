//! Bodies that are taken as their bytes come.

ghost use Rattle.std.specs.Prelude.{◌≡◌, ◌≤◌, ◌+◌, ◌++◌, List, ℕ, [], Option, Some, IsSome, length};
ghost use Rattle.dubbo_header.specs.declared.header.Header.{Header};
ghost use Rattle.dubbo_header.specs.declared.header.TheConstants.{BODY_LIMIT};

use dubbo_header::Header;

/// Takes the body of one frame after another, piece by piece.
pub trait BodySink {
    /// The header of the body that was started last, if any was.
    ghost started: { Self → Option Header };

    /// The bytes that were fed since then.
    ghost fed: { Self → List ℕ };

    /// Begins the body of a frame with this header; what came of another one is over.
    fn start(&mut self, header: &Header)
        ensures started { started self.new ≡ Some header.now }
        ensures fed { fed self.new ≡ [] };

    /// Takes the next bytes of the body.
    fn feed(&mut self, piece: &[u8])
        requires started { IsSome (started self.old) }
        requires room { length (fed self.old) + length piece.now ≤ BODY_LIMIT }
        ensures started { started self.new ≡ started self.old }
        ensures fed { fed self.new ≡ fed self.old ++ piece.now };
}
