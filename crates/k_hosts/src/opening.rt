//! Which hosts are not made.
use crate::usual::{NODE, USUAL, rooms};
use k_chronicle::{Host, OpenError};
use k_types::TypeId;
use std::test::Fail;

/// Its last line names a limit that is not declared, which is the eighth reason.
const BAD: &[u8] = b"kaffe 1\nkernel 200 2\nlimit root 1000\nproc p1 a\n";

// A text that spells no trace, a type that is not declared, and more events than a host can be made for.
#[test]
fn unfit_hosts_are_not_made(rt: HostRuntime) -> Result<(), Fail> {
    let bad = Some(OpenError::Bad { line: 4, reason: 8 });
    assert_eq!(rt; Host::read(rt.alloc(), BAD, NODE, 1, rooms(1)).err(), bad);
    let unfit = Some(OpenError::Terms);
    assert_eq!(rt;
        Host::read(rt.alloc(), USUAL, TypeId(1), 1, rooms(1)).err(),
        unfit
    );
    assert_eq!(rt;
        Host::read(rt.alloc(), USUAL, NODE, 1, rooms(1 << 30)).err(),
        unfit
    );
    Ok(())
}
