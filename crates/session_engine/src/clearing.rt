//! Caches of statements whose tables have changed: what they hold isn't true any more, so it goes.
ghost use Rattle.std.specs.Prelude.{◌≡◌, ◌<◌, ◌≤◌, length, slice_get, Some};
ghost use Rattle.catalog_model.specs.Catalogs.{StatementState, reads_table};
ghost use Rattle.session_engine.specs.Serving.{AreCleared, IsClearedIf};

use anchor_cache::Cache;
use row_values::Words;
use session_store::Store;

/// The cache of the statement of this number is cleared, where the statement reads the table.
fn clear_if_read(store: &Store, number: u32, table: &Words, cache: &mut Cache)
    requires { number < length store.now.catalog.statements }
    ensures { (prepared : StatementState) → slice_get store.now.catalog.statements number ≡ Some prepared
        → IsClearedIf (reads_table table.now prepared.statement.places) cache.old cache.new }
{
    if store.reads(number, table) {
        cache.clear();
    }
}

/// The caches of the statements that read the table are cleared.
pub fn clear_for(store: &Store, table: &Words, caches: &mut [Cache])
    requires one_each { length caches.old ≡ length store.now.catalog.statements }
    requires few { length store.now.catalog.statements ≤ 256 }
    ensures { AreCleared table.now store.now.catalog.statements caches.old caches.new }
{
    for number in 0..caches.len() {
        clear_if_read(store, number as u32, table, &mut caches[number]);
    }
}
