//! Certificates read, from any text of the JSON value that is written.
//!
//! What the text may be is taken from its members, and written again: it is a certificate where that gives the value
//! that was read. So no member more, no set out of order and no leading zero gets through. A reuse that stands as it is
//! written is known by that alone.
ghost use Rattle.std.specs.Prelude.{ℕ, List, ◌≡◌, ◌≤◌, ◌<◌, ◌^◌, ◌↔◌, All, IfOk, IfSome, IsTrue, Err, Option, Some};
ghost use Rattle.std.specs.Prelude.{codes, option_and_then};
ghost use Rattle.serde_json.specs.Find.{as_str, get};
ghost use Rattle.std.specs.Option.{option_map};
ghost use Rattle.serde_json.specs.Data.{array, depth};
ghost use Rattle.serde_json.specs.Read.{max_depth};
ghost use Rattle.serde_json.specs.View.{items_view, view};
ghost use Rattle.plan_costs.specs.LowerBounds.{LowerBounds};
ghost use Rattle.plan_costs.specs.declared.potentials.Cell.{Cell as ACell};
ghost use Rattle.bound_certificate.specs.Certificates.{HasCosts, IsCell, IsCertificate, IsReuse, IsTextOf};
ghost use Rattle.bound_certificate.specs.Certificates.{anchor_data};
ghost use Rattle.bound_certificate.specs.Certificates.{cell_data, cells_data, certificate_data, cost_data, sorted_data};
ghost use Rattle.bound_certificate.specs.declared.certificates.Cert.{Cert as ACert};
ghost use Rattle.bound_certificate.specs.declared.certificates.CertFault.TheVariants.{NotACert};

use crate::certificates::{Cert, CertFault, is_in_range};
use crate::numbers::number_spelled;
use crate::writing::to_text;
use plan_costs::{Cell, Potentials};
use row_values::OutOfMemory;
use serde_json::Value;
use std::alloc::Global;

/// The cost that the value may be.
fn cost_in(value: &Value) -> Option<u128>
    ensures fits { IfSome result (λ cost. cost < 2 ^ 128) }
    ensures found { (cost : ℕ) → cost < 2 ^ 128 → view value.now ≡ cost_data cost → result ≡ Some cost }
{
    value.as_str()?.parse::<u128>().ok()
}

/// The bound that the value may be.
fn sorted_in(value: &Value) -> Option<Option<u128>>
    ensures fits { IfSome result (λ sorted. IfSome sorted (λ cost. cost < 2 ^ 128)) }
    ensures found { (sorted : Option ℕ) → IfSome sorted (λ cost. cost < 2 ^ 128)
        → view value.now ≡ sorted_data sorted → result ≡ Some sorted }
{
    if value.is_null() {
        return Some(None);
    }
    let cost = cost_in(value)?;
    Some(Some(cost))
}

/// The cell that the value may be, whatever its set.
fn cell_in(value: &Value) -> Option<Cell>
    ensures fits { IfSome result IsCell }
    ensures found { (set : ℕ) (cell : ACell) → IsCell cell → view value.now ≡ cell_data set cell
        → result ≡ Some cell }
{
    let any = cost_in(value.get("any")?)?;
    let sorted = sorted_in(value.get("sorted")?)?;
    Some(Cell { any, sorted })
}

/// The cells that the values may be.
fn cells_in(alloc: Global, values: &[Value]) -> Result<Option<Vec<Cell>>, OutOfMemory>
    ensures fits { IfOk result (λ found. IfSome found (λ list. All IsCell list.items)) }
    ensures found { IfOk result (λ found. (set : ℕ) (cells : List ACell) → All IsCell cells
        → items_view values.now ≡ cells_data set cells → option_map (λ list. list.items) found ≡ Some cells) }
{
    let mut list = Vec::new(alloc);
    for value in values {
        let Some(cell) = cell_in(value) else {
            return Ok(None);
        };
        list.push(cell)?;
    }
    Ok(Some(list))
}

/// The cells that a member may be, if it is a list.
fn table_in(alloc: Global, value: &Value) -> Result<Option<Vec<Cell>>, OutOfMemory>
    ensures fits { IfOk result (λ found. IfSome found (λ list. All IsCell list.items)) }
    ensures found { IfOk result (λ found. (set : ℕ) (cells : List ACell) → All IsCell cells
        → view value.now ≡ array (cells_data set cells) → option_map (λ list. list.items) found ≡ Some cells) }
{
    match value.as_array() {
        Some(values) => {
            let cells = cells_in(alloc, values)?;
            Ok(cells)
        }
        None => Ok(None),
    }
}

/// The optimum that the value may be.
fn optimum_in(alloc: Global, value: &Value) -> Result<Option<Cert>, OutOfMemory>
    ensures fits { IfOk result (λ found. IfSome found HasCosts) }
    ensures found { IfOk result (λ found. (potentials : LowerBounds) → HasCosts (Cert.Optimum potentials)
        → view value.now ≡ certificate_data (Cert.Optimum potentials) → found ≡ Some (Cert.Optimum potentials)) }
{
    let Some(least) = value.get("least") else {
        return Ok(None);
    };
    let Some(least) = cost_in(least) else {
        return Ok(None);
    };
    let Some(table) = value.get("table") else {
        return Ok(None);
    };
    let Some(cells) = table_in(alloc, table)? else {
        return Ok(None);
    };
    Ok(Some(Cert::Optimum(Potentials::of(cells, least))))
}

/// The anchor that the value may name.
fn anchor_in(value: &Value) -> Option<u64>
    ensures { (kind : List ℕ) (anchor : ℕ) → view value.now ≡ anchor_data kind anchor → result ≡ Some anchor }
{
    value.get("anchor")?.as_u64()
}

/// The reuse by selectivity that the value may be.
fn selectivity_in(value: &Value) -> Option<Cert>
    ensures fits { IfSome result HasCosts }
    ensures found { (anchor : ℕ) → view value.now ≡ certificate_data (Cert.Selectivity anchor)
        → result ≡ Some (Cert.Selectivity anchor) }
{
    let anchor = anchor_in(value)?;
    Some(Cert::Selectivity(anchor))
}

/// The reuse by cost that the value may be.
fn reuse_by_cost_in(value: &Value) -> Option<Cert>
    ensures fits { IfSome result HasCosts }
    ensures found { (anchor : ℕ) → view value.now ≡ certificate_data (Cert.Cost anchor)
        → result ≡ Some (Cert.Cost anchor) }
{
    let anchor = anchor_in(value)?;
    Some(Cert::Cost(anchor))
}

/// Whether the value is an object of this kind.
fn is_of_kind(value: &Value, kind: &str) -> bool
    ensures { IsTrue result ↔ (option_and_then as_str (get (codes "kind") (view value.now)) ≡ Some kind.now) }
{
    let Some(member) = value.get("kind") else {
        return false;
    };
    match member.as_str() {
        Some(text) => text == kind,
        None => false,
    }
}

/// The certificate that the value may be.
fn certificate_in(alloc: Global, value: &Value) -> Result<Option<Cert>, OutOfMemory>
    ensures fits { IfOk result (λ found. IfSome found HasCosts) }
    ensures found { IfOk result (λ found. (cert : ACert) → HasCosts cert → view value.now ≡ certificate_data cert
        → found ≡ Some cert) }
{
    if is_of_kind(value, "optimum") {
        let cert = optimum_in(alloc, value)?;
        return Ok(cert);
    }
    if is_of_kind(value, "selectivity") {
        return Ok(selectivity_in(value));
    }
    if is_of_kind(value, "cost") {
        return Ok(reuse_by_cost_in(value));
    }
    Ok(None)
}

/// Whether the certificate is written as this value.
fn is_written_as(alloc: Global, cert: &Cert, value: &Value) -> Result<bool, OutOfMemory>
    requires { depth (view value.now) ≤ max_depth }
    ensures { IfOk result (λ same. IsTrue same ↔ (view value.now ≡ certificate_data cert.now)) }
{
    let wanted = to_text(alloc, cert)?;
    let found = value.to_string(alloc)?;
    Ok(wanted.as_str() == found.as_str())
}

/// The reuse that the text is, where it stands as it is written: most certificates do, and take no reading of JSON.
fn written_reuse(text: &str) -> Option<Cert>
    ensures { IfSome result (λ cert. IsReuse cert × IsTextOf cert text.now) }
{
    let rest = text.strip_prefix("{\"anchor\":")?;
    if let Some(digits) = rest.strip_suffix(",\"kind\":\"selectivity\"}") {
        let anchor = number_spelled(digits)?;
        return Some(Cert::Selectivity(anchor));
    }
    let digits = rest.strip_suffix(",\"kind\":\"cost\"}")?;
    let anchor = number_spelled(digits)?;
    Some(Cert::Cost(anchor))
}

/// The certificate that the text is.
pub fn from_text(alloc: Global, text: &str) -> Result<Cert, CertFault>
    ensures ok { IfOk result (λ cert. IsCertificate cert × IsTextOf cert text.now) }
    ensures only { IfOk result (λ found. (cert : ACert) → IsCertificate cert → IsTextOf cert text.now → found ≡ cert) }
    ensures not_a_cert { result ≡ Err NotACert → (cert : ACert) → IsCertificate cert → ¬ IsTextOf cert text.now }
{
    if let Some(cert) = written_reuse(text) {
        if is_in_range(&cert) {
            return Ok(cert);
        }
    }
    let value = match Value::from_str(alloc, text) {
        Ok(value) => value,
        Err(fault) => {
            return Err(if fault.is_memory() {
                CertFault::Memory
            } else {
                CertFault::NotACert
            });
        }
    };
    let Some(cert) = certificate_in(alloc, &value)? else {
        return Err(CertFault::NotACert);
    };
    if !is_in_range(&cert) {
        return Err(CertFault::NotACert);
    }
    if !is_written_as(alloc, &cert, &value)? {
        return Err(CertFault::NotACert);
    }
    Ok(cert)
}
