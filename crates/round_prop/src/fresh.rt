use clause_pool::Pool;
use lit_base::Name;
use std::snapshot::Snapshot;

/// A clause that was attached since the last propagation ended: its name, and the pool as it was at `attach`.
///
/// The snapshot has no bytes. It ties the clause's literals to that pool, so that no other pool with the same names will do.
#[derive(Drop)]
pub(crate) struct Fresh {
    pub(crate) name: Name,
    pub(crate) pool: Snapshot<Pool>,
}
