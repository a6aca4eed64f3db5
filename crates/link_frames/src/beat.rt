//! When an idle link asks for a sign of life.

ghost use Rattle.std.specs.Prelude.{◌≤◌, ◌*◌};
ghost use Rattle.link_frames.specs.declared.beat.TheConstants.{INTERVAL};

/// How long after a beat the next one is due, in milliseconds: Dubbo's default.
const INTERVAL: u64 = 60_000;

/// The id of the first beat; no call of a script has one so great.
const FIRST_ID: u64 = 4_294_967_296;

/// What a moment asks for.
#[derive(Clone, Copy, Debug, PartialEq, Eq)]
pub enum BeatAct {
    /// No beat is due.
    Nothing,
    /// A heartbeat with this id is to be sent now.
    SendBeat { id: u64 },
}

/// The beats of one link.
#[derive(Clone, Copy, Debug, PartialEq, Eq)]
pub struct Beat {
    last: u64,
    sent: u64,
    ghost spaced: { sent * INTERVAL ≤ last },
}

impl Beat {
    ghost use Rattle.std.specs.Prelude.{◌≡◌};
    ghost use Rattle.link_frames.specs.Beat.{last_of, sent_of, IsDue, AsksBeat};

    /// The beats of a link that is opened at the moment `first`, in milliseconds.
    pub fn new(first: u64) -> Beat
        ensures last { last_of result ≡ first }
        ensures sent { sent_of result ≡ 0 }
    {
        Beat {
            last: first,
            sent: 0,
        }
    }

    /// Asks for a beat exactly where `INTERVAL` has passed since the last, or since the opening.
    pub fn tick(&mut self, now: u64) -> BeatAct
        ensures due { IsDue self.old now → AsksBeat self.old self.new now result }
        ensures early { ¬ (IsDue self.old now) → (result ≡ BeatAct.Nothing) × (self.new ≡ self.old) }
    {
        if now.saturating_sub(self.last) < INTERVAL {
            return BeatAct::Nothing;
        }
        let id = FIRST_ID + self.sent;
        self.last = now;
        self.sent += 1;
        BeatAct::SendBeat { id }
    }
}
