// A pool whose entries are numbered.
use lw_pool::{NetId, Pool};
use std::process::Abort;
use std::test::Fail;

#[test]
fn entries_are_numbered(rt: HostRuntime) -> Result<(), Fail> {
    let mut pool: Pool<NetId, u64> = Pool::new(rt.alloc());
    assert!(rt; pool.is_empty());
    pool.reserve(2)?;
    let first = pool.push_reserved(7);
    let second = pool.push_reserved(5);
    pool.reserve(1)?;
    let third = pool.push_reserved(9);
    assert!(rt; pool.push(8).is_ok());
    assert!(rt; pool.len() == 4);
    assert!(rt; *pool.get(first) == 7);
    assert!(rt; *pool.get(second) == 5);
    assert!(rt; *pool.get(third) == 9);
    assert!(rt; third == NetId(2));
    assert!(rt; *pool.get(NetId(3)) == 8);
    Ok(())
}
