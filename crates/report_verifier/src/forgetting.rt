//! What a ledger forgets where a table changes.
ghost use Rattle.std.specs.Prelude.{◌≡◌, ◌≤◌, length};
ghost use Rattle.report_verifier.specs.Walk.{forgotten_for};

use certificate_check::Ledger;
use row_values::Words;
use session_store::Store;

/// The optima of each statement that reads the table go, of so many statements that there are.
pub fn forget_for(store: &Store, statements: u32, table: &Words, ledger: &mut Ledger)
    requires { statements ≡ length store.now.catalog.statements }
    ensures { ledger.new ≡ forgotten_for table.now store.now.catalog.statements ledger.old }
{
    for number in 0..statements {
        if store.reads(number, table) {
            ledger.forget(number);
        }
    }
}
