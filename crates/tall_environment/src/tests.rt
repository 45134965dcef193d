use super::*;
use std::test::Fail;

#[test]
fn an_environment_starts_without_datastores(rt: HostRuntime) -> Result<(), Fail> {
    let environment = Environment::new(rt.alloc());
    assert!(rt; environment.store_count() == 0);
    Ok(())
}
