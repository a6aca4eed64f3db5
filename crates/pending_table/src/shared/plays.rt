//! What each kind of step tells the seat that makes it.
use crate::Taken;
use crate::shared::meaning::Meaning;
use crate::shared::parts::View;
use atomic_table::{Join, Play, Split};

/// A desk stores the deadline.
pub(crate) struct DeskDates;

impl<R, K> Play<Option<Taken<R>>, View<R, K>> for DeskDates {
    ghost use Rattle.pending_table.specs.SharedPlays.{dated};

    ghost then = { dated };
}

/// A desk stores waiting.
pub(crate) struct DeskOpens;

impl<R, K> Play<Option<Taken<R>>, View<R, K>> for DeskOpens {
    ghost use Rattle.pending_table.specs.SharedPlays.{opened};

    ghost then = { opened };
}

/// A desk loads the state of its open id, and takes the slot where it sees done.
pub(crate) struct DeskLooks;

impl<R: Meaning> Play<Option<Taken<R>>, View<R, R::Key>> for DeskLooks {
    ghost use Rattle.pending_table.specs.SharedPlays.{looked};

    ghost then = { looked R.fits };
}

/// A desk stores free, after it took the value out.
pub(crate) struct DeskEmpties;

impl<R, K> Play<Option<Taken<R>>, View<R, K>> for DeskEmpties {
    ghost use Rattle.pending_table.specs.SharedPlays.{emptied};

    ghost then = { emptied };
}

/// A desk loads the lost word.
pub(crate) struct DeskAsksLost;

impl<R, K> Play<Option<Taken<R>>, View<R, K>> for DeskAsksLost {
    ghost use Rattle.pending_table.specs.SharedPlays.{asked_lost};

    ghost then = { asked_lost };
}

/// A desk frees a waiting id, since its link is lost, and takes the slot where it finds done.
pub(crate) struct DeskLosesId;

impl<R: Meaning> Play<Option<Taken<R>>, View<R, R::Key>> for DeskLosesId {
    ghost use Rattle.pending_table.specs.SharedPlays.{lost_id};

    ghost then = { lost_id R.fits };
}

/// A desk frees a waiting id, since it gives it up.
pub(crate) struct DeskLeavesId;

impl<R, K> Play<Option<Taken<R>>, View<R, K>> for DeskLeavesId {
    ghost use Rattle.pending_table.specs.SharedPlays.{left_id};

    ghost then = { left_id };
}

/// A window loads the state of the one slot that it looks at.
pub(crate) struct WindowSeesOne;

impl<R, K> Play<Option<Taken<R>>, View<R, K>> for WindowSeesOne {
    ghost use Rattle.pending_table.specs.SharedPlays.{saw_one};

    ghost then = { saw_one };
}

/// A scan loads the state of the next slot.
pub(crate) struct WindowSeesNext;

impl<R, K> Play<Option<Taken<R>>, View<R, K>> for WindowSeesNext {
    ghost use Rattle.pending_table.specs.SharedPlays.{saw_next};

    ghost then = { saw_next };
}

/// A scan loads the deadline of a slot that it saw waiting.
pub(crate) struct WindowSeesDue;

impl<R, K> Play<Option<Taken<R>>, View<R, K>> for WindowSeesDue {
    ghost use Rattle.pending_table.specs.SharedPlays.{saw_due};

    ghost then = { saw_due };
}

/// A window claims an id for a value that it was given.
pub(crate) struct WindowClaims;

impl<R, K> Play<Option<Taken<R>>, View<R, K>> for WindowClaims {
    ghost use Rattle.pending_table.specs.SharedPlays.{claimed_one};

    ghost then = { claimed_one };
}

/// A scan claims an id that is due.
pub(crate) struct WindowClaimsDue;

impl<R, K> Play<Option<Taken<R>>, View<R, K>> for WindowClaimsDue {
    ghost use Rattle.pending_table.specs.SharedPlays.{claimed_due};

    ghost then = { claimed_due };
}

/// A window stores done, after it put the value in.
pub(crate) struct WindowPuts;

impl<R, K> Play<Option<Taken<R>>, View<R, K>> for WindowPuts {
    ghost use Rattle.pending_table.specs.SharedPlays.{put};

    ghost then = { put };
}

/// A window sets the lost word.
pub(crate) struct WindowSetsLost;

impl<R, K> Play<Option<Taken<R>>, View<R, K>> for WindowSetsLost {
    ghost use Rattle.pending_table.specs.SharedPlays.{set_lost};

    ghost then = { set_lost };
}

/// The seat of the first desk is cut off.
pub(crate) struct CutsDesk;

impl<R, K> Split<View<R, K>> for CutsDesk {
    ghost use Rattle.pending_table.specs.SharedViews.{desk_alone, without_desk};

    ghost left = { without_desk };

    ghost right = { desk_alone };
}

/// The seat of the first window is cut off.
pub(crate) struct CutsWindow;

impl<R, K> Split<View<R, K>> for CutsWindow {
    ghost use Rattle.pending_table.specs.SharedViews.{window_alone, without_window};

    ghost left = { without_window };

    ghost right = { window_alone };
}

/// A seat is joined into another.
pub(crate) struct Gathers;

impl<R, K> Join<View<R, K>> for Gathers {
    ghost use Rattle.pending_table.specs.SharedViews.{gathered, spent};

    ghost both = { gathered };

    ghost spent = { spent };
}
