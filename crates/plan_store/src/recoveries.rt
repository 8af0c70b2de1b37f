//! The law on recoveries of a change.

ghost use Rattle.plan_store.specs.Recoveries as spec;

/// The law that recoveries complete a change, however often they are stopped: each leaves the whole old files, the whole new ones, or
/// files amid the change, and once one is done over files amid it they are the new ones.
pub fn recoveries_complete()
    ensures { spec.RecoveriesComplete }
{}
