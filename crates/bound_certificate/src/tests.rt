//! Certificates as they are written, and texts that are none.
use crate::{Cert, CertFault, from_text, to_text};
use plan_costs::{Cell, Potentials};
use row_values::{OutOfMemory, Words};
use std::alloc::Global;
use std::test::Fail;

/// An optimum over one place, with a bound on the plans in the wanted order or none.
fn one_place(alloc: Global, sorted: Option<u128>) -> Result<Cert, OutOfMemory> {
    let mut cells = Vec::new(alloc);
    cells.push(Cell { any: 12, sorted })?;
    Ok(Cert::Optimum(Potentials::of(cells, 12)))
}

#[test]
fn each_kind_on_a_line(rt: HostRuntime) -> Result<(), Fail> {
    let alloc = rt.alloc();
    let cases = [
        (
            Cert::Selectivity(1),
            "{\"anchor\":1,\"kind\":\"selectivity\"}",
        ),
        (
            Cert::Cost(9223372036854775807),
            "{\"anchor\":9223372036854775807,\"kind\":\"cost\"}",
        ),
        (
            one_place(alloc, None)?,
            "{\"kind\":\"optimum\",\"least\":\"12\",\"table\":[{\"any\":\"12\",\"set\":1,\"sorted\":null}]}",
        ),
        (
            one_place(alloc, Some(340282366920938463463374607431768211455))?,
            "{\"kind\":\"optimum\",\"least\":\"12\",\"table\":[{\"any\":\"12\",\"set\":1,\"sorted\":\"340282366920938463463374607431768211455\"}]}",
        ),
    ];
    for (cert, wanted) in &cases {
        assert_eq!(rt; to_text(alloc, cert)?.as_str(), *wanted);
    }
    Ok(())
}

/// What is written of the certificate that was read, or why it is none.
fn read_and_written(alloc: Global, text: &str) -> Result<Words, CertFault> {
    let cert = from_text(alloc, text)?;
    let written = to_text(alloc, &cert)?;
    Ok(written)
}

#[test]
fn the_same_value_in_other_words(rt: HostRuntime) -> Result<(), Fail> {
    let wanted = "{\"anchor\":7,\"kind\":\"cost\"}";
    let cases = [
        ("white space", " {\n\"anchor\" : 7, \"kind\" : \"cost\" }\t"),
        ("another order", "{\"kind\":\"cost\",\"anchor\":7}"),
        (
            "the last of equal members",
            "{\"anchor\":1,\"kind\":\"cost\",\"anchor\":7}",
        ),
        ("an escape", "{\"anchor\":7,\"kind\":\"\\u0063ost\"}"),
    ];
    for (what, text) in cases {
        match read_and_written(rt.alloc(), text) {
            Ok(found) => assert_eq!(rt; found.as_str(), wanted, "{what}"),
            Err(fault) => assert!(rt; false, "{what}: {fault:?}"),
        }
    }
    Ok(())
}

#[test]
fn what_is_no_certificate(rt: HostRuntime) {
    let cases = [
        ("no text", ""),
        ("no JSON", "{\"anchor\":7,\"kind\":\"cost\""),
        ("two values", "{\"anchor\":7,\"kind\":\"cost\"} {}"),
        ("no object", "[7,\"cost\"]"),
        ("null", "null"),
        ("an empty object", "{}"),
        ("another kind", "{\"anchor\":7,\"kind\":\"luck\"}"),
        ("a member more", "{\"anchor\":7,\"at\":1,\"kind\":\"cost\"}"),
        ("a member less", "{\"kind\":\"cost\"}"),
        (
            "members of two kinds",
            "{\"anchor\":7,\"kind\":\"optimum\"}",
        ),
        ("an anchor of null", "{\"anchor\":null,\"kind\":\"cost\"}"),
        ("no execution", "{\"anchor\":0,\"kind\":\"cost\"}"),
        ("minus nought", "{\"anchor\":-0,\"kind\":\"cost\"}"),
        ("below nought", "{\"anchor\":-7,\"kind\":\"cost\"}"),
        (
            "an execution too many",
            "{\"anchor\":9223372036854775808,\"kind\":\"cost\"}",
        ),
        ("a fraction", "{\"anchor\":7.0,\"kind\":\"cost\"}"),
        ("an exponent", "{\"anchor\":7e0,\"kind\":\"cost\"}"),
        ("a number in quotes", "{\"anchor\":\"7\",\"kind\":\"cost\"}"),
        (
            "the last of equal members is none",
            "{\"anchor\":7,\"kind\":\"cost\",\"anchor\":0}",
        ),
        (
            "a cost without quotes",
            "{\"kind\":\"optimum\",\"least\":12,\"table\":[]}",
        ),
        (
            "a cost without digits",
            "{\"kind\":\"optimum\",\"least\":\"\",\"table\":[]}",
        ),
        (
            "a leading zero",
            "{\"kind\":\"optimum\",\"least\":\"012\",\"table\":[]}",
        ),
        (
            "a sign",
            "{\"kind\":\"optimum\",\"least\":\"+12\",\"table\":[]}",
        ),
        (
            "a cost of 2^128",
            "{\"kind\":\"optimum\",\"least\":\"340282366920938463463374607431768211456\",\"table\":[]}",
        ),
        (
            "a table of null",
            "{\"kind\":\"optimum\",\"least\":\"12\",\"table\":null}",
        ),
        (
            "a cell of null",
            "{\"kind\":\"optimum\",\"least\":\"12\",\"table\":[null]}",
        ),
        (
            "a set out of order",
            "{\"kind\":\"optimum\",\"least\":\"12\",\"table\":[{\"any\":\"12\",\"set\":2,\"sorted\":null}]}",
        ),
        (
            "a set twice",
            "{\"kind\":\"optimum\",\"least\":\"12\",\"table\":[{\"any\":\"12\",\"set\":1,\"sorted\":null},{\"any\":\"12\",\"set\":1,\"sorted\":null}]}",
        ),
        (
            "a cell without an order",
            "{\"kind\":\"optimum\",\"least\":\"12\",\"table\":[{\"any\":\"12\",\"set\":1}]}",
        ),
        (
            "no bound on any plan",
            "{\"kind\":\"optimum\",\"least\":\"12\",\"table\":[{\"any\":null,\"set\":1,\"sorted\":null}]}",
        ),
    ];
    for (what, text) in cases {
        assert!(rt; is_none(rt.alloc(), text), "{what}");
    }
}

/// Whether the text is no certificate.
fn is_none(alloc: Global, text: &str) -> bool {
    match from_text(alloc, text) {
        Ok(_) => false,
        Err(fault) => fault == CertFault::NotACert,
    }
}

/// The written text of an optimum with so many cells.
fn with_cells(alloc: Global, count: u8) -> Result<Words, OutOfMemory> {
    let mut cells = Vec::new(alloc);
    for _ in 0..count {
        cells.push(Cell {
            any: 0,
            sorted: None,
        })?;
    }
    let written = to_text(alloc, &Cert::Optimum(Potentials::of(cells, 0)))?;
    Ok(written)
}

#[test]
fn as_many_cells_as_five_places_have_sets(rt: HostRuntime) -> Result<(), Fail> {
    let alloc = rt.alloc();
    let most = with_cells(alloc, 31)?;
    match read_and_written(alloc, most.as_str()) {
        Ok(found) => assert_eq!(rt; found.as_str(), most.as_str(), "31 cells"),
        Err(fault) => assert!(rt; false, "31 cells: {fault:?}"),
    }
    let more = with_cells(alloc, 32)?;
    assert!(rt; is_none(alloc, more.as_str()), "32 cells");
    Ok(())
}
