//! The rule that holds between any two steps.
use crate::Taken;
use crate::shared::meaning::Meaning;
use crate::shared::parts::{TableKey, View};
use atomic_table::TableRule;
use std::marker::PhantomData;

/// State words first, then deadlines, then the lost word; a slot for each state word.
pub(crate) struct PendingRule<R> {
    reply: PhantomData<R>,
}

impl<R: Meaning> TableRule<Option<Taken<R>>, View<R, R::Key>, TableKey<R::Key>> for PendingRule<R> {
    ghost use Rattle.pending_table.specs.SharedRule.{Kept};
    ghost use Rattle.pending_table.specs.SharedViews.{whole_view};

    ghost holds = { λ key state. Kept R.fits key.key.value key.slots state };

    ghost first = { λ key. whole_view key.key.value key.slots };
}
