//! What the optimiser gives is accepted, and so is its plan where it is used again.
use crate::checked::{optima, reuses};
use crate::joins::join_of;
use crate::vector_of;
use bound_certificate::Cert;
use std::test::Fail;

#[test]
fn optima_of_joins_are_accepted(rt: HostRuntime) -> Result<(), Fail> {
    let alloc = rt.alloc();
    for places in 1..6_u8 {
        let w = join_of(alloc, places)?.ok_or("not sound")?;
        for number in 0..3_u64 {
            let all = vector_of(number);
            let q = &all[..usize::from(places)];
            let accepted = optima(alloc, &w, q, 2)?;
            assert_eq!(rt; accepted, 2, "{places} places, vector {number}");
            let accepted = reuses(alloc, &w, q, &Cert::Cost(1), 2)?;
            assert_eq!(rt; accepted, 2, "{places} places again, vector {number}");
        }
    }
    Ok(())
}
