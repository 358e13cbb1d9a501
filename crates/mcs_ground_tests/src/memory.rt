//! Want of memory.

use mcs_base::Memory;
use std::alloc::{AllocError, AllocFailed};
use std::test::Fail;

#[test]
fn comes_of_each_refusal(rt: HostRuntime) -> Result<(), Fail> {
    let memory = Memory::from(AllocError);
    assert!(rt; memory == Memory::from(AllocFailed { value: 1 }));
    assert!(rt; format!(in rt.alloc(); "{memory}")?.as_str() == "out of memory");
    Ok(())
}
