//! What a certificate is, and which numbers it may have.
ghost use Rattle.std.specs.Prelude.{◌↔◌, IsTrue};
ghost use Rattle.bound_certificate.specs.Certificates.{IsExecution, IsInRange};

use plan_costs::Potentials;
use row_values::OutOfMemory;

/// The most cells: a statement of five places has as many sets that aren't empty.
pub const CELL_LIMIT: usize = 31;

/// The executions that a certificate names are below this.
pub const EXECUTION_LIMIT: u64 = 1 << 63;

/// Why an execution's cost is within the bound: by lower bounds on the costs of all plans, or since its plan passed
/// the selectivity check or the cost check at an execution that was optimised, whose number it names.
#[derive(Debug, Drop)]
pub enum Cert {
    Optimum(Potentials),
    Selectivity(u64),
    Cost(u64),
}

/// Why there is no certificate.
#[derive(Clone, Copy, Debug, PartialEq, Eq)]
pub enum CertFault {
    NotACert,
    Memory,
}

impl From<OutOfMemory> for CertFault {
    ghost use Rattle.std.specs.Prelude.{◌≡◌};
    ghost use Rattle.bound_certificate.specs.declared.certificates.CertFault.TheVariants.{Memory};

    ghost from_gives = { λ _ fault. fault ≡ Memory };

    fn from(_error: OutOfMemory) -> CertFault {
        CertFault::Memory
    }
}

/// Whether an execution has this number.
fn is_execution(number: u64) -> bool
    ensures { IsTrue result ↔ IsExecution number }
{
    1 <= number && number < EXECUTION_LIMIT
}

/// Whether the certificate names an execution, or has no more cells than there are sets.
pub(crate) fn is_in_range(cert: &Cert) -> bool
    ensures { IsTrue result ↔ IsInRange cert.now }
{
    match cert {
        Cert::Optimum(potentials) => potentials.cells().len() <= CELL_LIMIT,
        Cert::Selectivity(anchor) => is_execution(*anchor),
        Cert::Cost(anchor) => is_execution(*anchor),
    }
}
