//! Looks, before a night begins, at what could refuse it.

ghost use Rattle.std.specs.Prelude.{◌≡◌, None, length, IfOk, IsSomeAnd, MatchOption};
ghost use Rattle.wh_store.specs.Operations.{Opens};
ghost use Rattle.wh_store.specs.Faults.{publish_refusal};
ghost use Rattle.wh_night.specs.Causes.{IsBeginCause};
ghost use Rattle.wh_night.specs.Tonight.{newest_in};

use crate::NightCause;
use std::alloc::{AllocError, Global};
use wh_row::Bag;
use wh_store::Publish;

/// Tells why no night can begin now, if none can: Held, then NightOpen, then LastVersion.
pub(crate) fn not_ready<P: Publish>(writer: &P) -> Option<NightCause>
    ensures { MatchOption (publish_refusal (P.kept writer.now) Opens) (result ≡ None) (λ fault. IsSomeAnd result (IsBeginCause fault)) }
{
    if writer.held() {
        return Some(NightCause::Held);
    }
    if writer.active() {
        return Some(NightCause::NightOpen);
    }
    if writer.current() == u64::MAX {
        return Some(NightCause::LastVersion);
    }
    None
}

/// Copies the tables of the current version, which has so many views.
/// Fails for want of memory.
pub fn current_tables<P: Publish>(
    alloc: Global,
    writer: &P,
    views: usize,
) -> Result<Vec<Bag>, AllocError>
    requires held { (P.kept writer.now).held ≡ None }
    requires views { length (newest_in (P.kept writer.now)) ≡ views }
    ensures { IfOk result (λ tables. tables.items ≡ newest_in (P.kept writer.now)) }
{
    let mut tables = Vec::new(alloc);
    for view in 0..views {
        let table = writer.table(view)?;
        tables.push(table)?;
    }
    Ok(tables)
}
