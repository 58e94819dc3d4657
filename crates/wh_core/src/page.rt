//! Answers pages of views without a bookmark.

ghost use Rattle.std.specs.Prelude.{option_map};
ghost use Rattle.wh_core.specs.Log.{Log};
ghost use Rattle.wh_core.specs.Nights.{Setup};
ghost use Rattle.wh_core.specs.Replies.{IsPageReply};
ghost use Rattle.wh_core.specs.Standing.{Stands};

use crate::machine::{Machine, is_limit};
use crate::reply::{Cause, Reply};
use wh_store::told_law;

impl Machine {
    /// A page of the view behind this row, or from its beginning, in the session of the desk.
    pub(crate) fn page(
        &self,
        desk: usize,
        view: usize,
        limit: usize,
        after: Option<&[i64]>,
    ) -> Reply
        ensures { (s : Setup) (log : Log) → Stands s log self.now → IsPageReply s log desk view limit (option_map (λ row. row.now) after.entry) result }
    {
        if desk >= self.seats.len() {
            return Reply::Refused(Cause::NoDesk);
        }
        let Some(seat) = &self.seats[desk] else {
            return Reply::Refused(Cause::NoSession);
        };
        let version = seat.version;
        if !self.store.unexpired(version) {
            let current = self.store.number();
            let active = self.store.is_active();
            return Reply::Refused(Cause::Expired(version, current, active));
        }
        if view >= self.store.views(version) {
            return Reply::Refused(Cause::NoView);
        }
        if !is_limit(limit) {
            return Reply::Refused(Cause::Limit);
        }
        told_law();
        match self.store.visible(version, view, after, limit) {
            Ok(page) => Reply::Page(page),
            Err(_) => Reply::Refused(Cause::Memory),
        }
    }
}
