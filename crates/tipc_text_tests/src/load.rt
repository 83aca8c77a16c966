//! Tests of generated load.

use std::alloc::Global;
use std::process::Abort;
use std::test::Fail;
use tipc_load::generate;

/// Numbers, how many bytes their scripts have, and what these come to by `weighed`. (Worked out by a program in another language, by the
/// formula of docs/FORMATS.md.)
static LOADS: [(u64, usize, u64); 4] = [
    (1, 22_647, 12_129_852_419_755_643_278),
    (2, 22_127, 4_719_170_383_104_913_645),
    (3, 22_692, 3_506_883_694_751_989_585),
    (1000, 22_758, 3_206_277_545_371_964_351),
];

/// One number for some bytes, which depends on each of them and on its place.
fn weighed(bytes: &[u8]) -> u64 {
    let mut sum: u64 = 0;
    for byte in bytes {
        sum = sum.wrapping_mul(31).wrapping_add(u64::from(*byte));
    }
    sum
}

/// A number stands for a script of so many bytes, which come to this sum.
fn stands_for(rt: &impl Abort, alloc: Global, load: &(u64, usize, u64)) -> Result<(), Fail> {
    let (seed, length, sum) = *load;
    let script = generate(alloc, seed)?;
    assert!(rt; script.len() == length);
    assert!(rt; weighed(script.as_slice()) == sum);
    Ok(())
}

#[test]
fn numbers_stand_for_scripts(rt: HostRuntime) -> Result<(), Fail> {
    for load in &LOADS {
        stands_for(&rt, rt.alloc(), load)?;
    }
    Ok(())
}
