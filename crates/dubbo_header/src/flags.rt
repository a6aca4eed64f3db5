//! The third byte of a header: three marks above, a serialization's number below.

ghost use Rattle.std.specs.Prelude.{◌≡◌, ◌<◌, ℕ};
ghost use Rattle.dubbo_header.specs.Flags.{flag_byte, weight};

/// The mark of a request; a reply lacks it.
const REQUEST: u8 = 0x80;
/// The mark of a request that wants a reply.
const TWO_WAY: u8 = 0x40;
/// The mark of an event, such as a heartbeat.
const EVENT: u8 = 0x20;

/// What the third byte of a header says.
#[derive(Clone, Copy, Debug, PartialEq, Eq)]
pub struct Flags {
    /// A request, and no reply.
    pub request: bool,
    /// A reply is wanted.
    pub two_way: bool,
    /// An event, and no call.
    pub event: bool,
    /// The number of the body's serialization, below 32.
    pub serial: u8,
}

/// The byte of these marks.
pub fn pack(flags: Flags) -> u8
    requires { flags.serial < 32 }
    ensures { result ≡ flag_byte flags.request flags.two_way flags.event flags.serial }
{
    weight(flags.request, REQUEST)
        + weight(flags.two_way, TWO_WAY)
        + weight(flags.event, EVENT)
        + flags.serial
}

/// What a byte says.
pub fn unpack(byte: u8) -> Flags
    ensures serial { result.serial < 32 }
    ensures byte { byte ≡ flag_byte result.request result.two_way result.event result.serial }
{
    Flags {
        request: byte >= REQUEST,
        two_way: byte % REQUEST >= TWO_WAY,
        event: byte % TWO_WAY >= EVENT,
        serial: byte % EVENT,
    }
}

/// What a mark adds to the byte.
fn weight(is_set: bool, mark: u8) -> u8
    ensures { result ≡ weight is_set mark }
{
    if is_set { mark } else { 0 }
}
