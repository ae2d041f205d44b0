//! Bodies of a trace.
use k_process::bodies;
use k_reader::read_trace;
use k_types::TypeId;
use std::test::Fail;

#[test]
fn makes_a_body_for_each_object(rt: HostRuntime) -> Result<(), Fail> {
    let trace = read_trace(
        rt.alloc(),
        b"kaffe 1\nkernel 96 0\ntype A\ntype B ref int\nlimit a 80\nproc p a\nproc q a\nshared s\np new r0 A\nq knew r0 B\np dir r1\np snew r2 s B\n",
    )?;
    let all = bodies(rt.alloc(), &trace)?;
    assert_eq!(rt; all.len(), 2);
    assert_eq!(rt; all[0].len(), 2);
    assert_eq!(rt; all[1].len(), 1);
    for (pid, ty, bytes) in [(0, TypeId(0), 16), (1, TypeId(1), 32)] {
        let first = all[pid].front();
        assert!(rt; first.and_then(|body| body.type_of()) == Some(ty));
        assert!(rt; first.map(|body| body.bytes()) == Some(bytes));
    }
    Ok(())
}
