//! Lists of calls, each with the answer that is wanted, made at a table of one slot.
ghost use Rattle.pending_table.specs.Beside.{KeepsDesks};
ghost use Rattle.std.specs.Prelude.{◌≡◌, ◌<◌, ◌≤◌, ◌^◌, ℕ, true, false};

mod plain;
mod shared;
mod threads;

use crate::word::{SlotState, from_word};
use crate::{Abandoned, Desk, Look, Offered, Tag, Taken, Window};
use std::process::Abort;

/// A call of the desk or of a window. A reply is a tag.
#[derive(Clone, Copy, Debug)]
pub(crate) enum Call {
    Open { id: u64, deadline: u64 },
    Look,
    Abandon,
    Reply { id: u64, tag: u64 },
    Expire { now: u64 },
    Lose { number: u64 },
}

#[derive(Debug, Drop, PartialEq)]
pub(crate) enum Answer {
    /// The call's condition isn't met, so it wasn't made.
    Refused,
    Made,
    Looked(Look<Tag>),
    Left(Abandoned),
    Offered(Offered<Tag>),
}

/// What a caller has to know of its desk.
#[derive(Clone, Copy)]
pub(crate) struct Known {
    pub(crate) last: u64,
    pub(crate) is_open: bool,
}

/// Makes a call at any desk.
pub(crate) fn at_desk<D: Desk<Tag>>(desk: &mut D, known: &mut Known, call: Call) -> Answer
    requires slots { ((D.site desk.old).slots ≡ 1) × ((D.site desk.old).number ≡ 0) }
    requires last { (D.log desk.old).last ≡ known.old.last }
    requires is_open { (D.log desk.old).is_open ≡ known.old.is_open }
    ensures site { D.site desk.new ≡ D.site desk.old }
    ensures last { (D.log desk.new).last ≡ known.new.last }
    ensures is_open { (D.log desk.new).is_open ≡ known.new.is_open }
{
    match call {
        Call::Open { id, deadline } => {
            if known.is_open || id < known.last || id >= 1 << 60 {
                return Answer::Refused;
            }
            desk.open(id, deadline);
            known.last = id + 1;
            known.is_open = true;
            Answer::Made
        }
        Call::Look => {
            if !known.is_open {
                return Answer::Refused;
            }
            let answer = desk.look();
            known.is_open = matches!(&answer, Look::Pending);
            Answer::Looked(answer)
        }
        Call::Abandon => {
            if !known.is_open {
                return Answer::Refused;
            }
            let answer = desk.abandon();
            known.is_open = matches!(&answer, Abandoned::Claimed);
            Answer::Left(answer)
        }
        _ => Answer::Refused,
    }
}

/// Makes a call at any window.
pub(crate) fn at_window<W: Window<Tag>>(window: &mut W, call: Call) -> Answer
    ensures site { W.site window.new ≡ W.site window.old }
    ensures desks { KeepsDesks (W.beside window.old) (W.beside window.new) }
{
    match call {
        Call::Reply { id, tag } => {
            if tag != id {
                return Answer::Refused;
            }
            Answer::Offered(window.offer(id, Taken::Reply(Tag(tag))))
        }
        Call::Expire { now } => {
            window.expire(now);
            Answer::Made
        }
        Call::Lose { number } => {
            if number == 0 {
                return Answer::Refused;
            }
            window.lose(number);
            Answer::Made
        }
        _ => Answer::Refused,
    }
}

/// A table of one slot, at which calls are made one after another.
pub(crate) trait Driver {
    fn call(&mut self, call: Call) -> Answer;
}

fn timeout(deadline: u64, moment: u64) -> Answer {
    Answer::Looked(Look::Ready(Taken::Timeout { deadline, moment }))
}

fn reply(tag: u64) -> Answer {
    Answer::Looked(Look::Ready(Taken::Reply(Tag(tag))))
}

fn dropped(seen: u64, tag: u64) -> Answer {
    let given = Taken::Reply(Tag(tag));
    Answer::Offered(Offered::Dropped { seen, given })
}

/// A deadline is kept to the millisecond, and a reply resolves the call of its own id alone.
pub(crate) fn runs_due<D: Driver>(rt: &impl Abort, at: &mut D) {
    assert_eq!(rt;
        at.call(Call::Open {
            id: 0,
            deadline: 1000
        }),
        Answer::Made
    );
    assert_eq!(rt; at.call(Call::Expire { now: 999 }), Answer::Made);
    assert_eq!(rt; at.call(Call::Look), Answer::Looked(Look::Pending));
    assert_eq!(rt; at.call(Call::Expire { now: 1000 }), Answer::Made);
    assert_eq!(rt; at.call(Call::Look), timeout(1000, 1000));
    assert_eq!(rt;
        at.call(Call::Open {
            id: 1,
            deadline: 3000
        }),
        Answer::Made
    );
    assert_eq!(rt; at.call(Call::Reply { id: 0, tag: 0 }), dropped(9, 0));
    assert_eq!(rt; at.call(Call::Reply { id: 0, tag: 0 }), dropped(9, 0));
    assert_eq!(rt; at.call(Call::Look), Answer::Looked(Look::Pending));
    assert_eq!(rt;
        at.call(Call::Reply { id: 1, tag: 1 }),
        Answer::Offered(Offered::Taken)
    );
    assert_eq!(rt; at.call(Call::Look), reply(1));
    assert_eq!(rt; at.call(Call::Look), Answer::Refused);
}

/// The first loss stays, and a call that was resolved before it was seen is still ready.
pub(crate) fn runs_lost<D: Driver>(rt: &impl Abort, at: &mut D) {
    assert_eq!(rt;
        at.call(Call::Open {
            id: 0,
            deadline: 1000
        }),
        Answer::Made
    );
    assert_eq!(rt; at.call(Call::Lose { number: 2 }), Answer::Made);
    assert_eq!(rt; at.call(Call::Lose { number: 4 }), Answer::Made);
    assert_eq!(rt;
        at.call(Call::Look),
        Answer::Looked(Look::Lost { number: 2 })
    );
    assert_eq!(rt;
        at.call(Call::Open {
            id: 1,
            deadline: 1000
        }),
        Answer::Made
    );
    assert_eq!(rt;
        at.call(Call::Reply { id: 1, tag: 1 }),
        Answer::Offered(Offered::Taken)
    );
    assert_eq!(rt; at.call(Call::Look), reply(1));
}

/// A call that was given up drops its reply; one that was resolved can't be given up.
pub(crate) fn runs_abandoned<D: Driver>(rt: &impl Abort, at: &mut D) {
    assert_eq!(rt;
        at.call(Call::Open {
            id: 0,
            deadline: 1000
        }),
        Answer::Made
    );
    assert_eq!(rt; at.call(Call::Abandon), Answer::Left(Abandoned::Free));
    assert_eq!(rt; at.call(Call::Reply { id: 0, tag: 0 }), dropped(4, 0));
    assert_eq!(rt;
        at.call(Call::Open {
            id: 1,
            deadline: 1000
        }),
        Answer::Made
    );
    assert_eq!(rt;
        at.call(Call::Reply { id: 1, tag: 1 }),
        Answer::Offered(Offered::Taken)
    );
    assert_eq!(rt; at.call(Call::Abandon), Answer::Left(Abandoned::Claimed));
    assert_eq!(rt; at.call(Call::Reply { id: 1, tag: 1 }), dropped(11, 1));
    assert_eq!(rt; at.call(Call::Look), reply(1));
}

/// The reply of a later call in the same slot is dropped, the greatest number too.
pub(crate) fn runs_next_round<D: Driver>(rt: &impl Abort, at: &mut D) {
    assert_eq!(rt; at.call(Call::Reply { id: 3, tag: 3 }), dropped(0, 3));
    assert_eq!(rt;
        at.call(Call::Open {
            id: 3,
            deadline: 1000
        }),
        Answer::Made
    );
    assert_eq!(rt; at.call(Call::Reply { id: 19, tag: 19 }), dropped(17, 19));
    assert_eq!(rt;
        at.call(Call::Reply {
            id: u64::MAX,
            tag: u64::MAX
        }),
        dropped(17, u64::MAX)
    );
    assert_eq!(rt;
        at.call(Call::Reply { id: 3, tag: 3 }),
        Answer::Offered(Offered::Taken)
    );
    assert_eq!(rt; at.call(Call::Look), reply(3));
    assert_eq!(rt;
        at.call(Call::Open {
            id: 19,
            deadline: 1000
        }),
        Answer::Made
    );
    assert_eq!(rt; at.call(Call::Reply { id: 3, tag: 3 }), dropped(81, 3));
}

/// A slot is used again and again.
pub(crate) fn runs_thousand<D: Driver>(rt: &impl Abort, at: &mut D) {
    for id in 0..1000 {
        assert_eq!(rt; at.call(Call::Open { id, deadline: 1000 }), Answer::Made);
        assert_eq!(rt;
            at.call(Call::Reply { id, tag: id }),
            Answer::Offered(Offered::Taken)
        );
        assert_eq!(rt; at.call(Call::Look), reply(id));
    }
}

#[test]
fn a_word_shows_its_state(rt: HostRuntime) {
    assert_eq!(rt; from_word(0), SlotState::Unused);
    assert_eq!(rt; from_word(4), SlotState::Free { id: 0 });
    assert_eq!(rt; from_word(9), SlotState::Waiting { id: 1 });
    assert_eq!(rt; from_word(10), SlotState::Claimed { id: 1 });
    assert_eq!(rt; from_word(11), SlotState::Done { id: 1 });
}
