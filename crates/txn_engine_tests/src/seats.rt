//! As many seats as a hall may have, on as many threads at once.

use hall_accounts::{Load, Workload, open, puts_at_once};
use log_disk::FaultPlan;
use std::test::Fail;

/// The bytes of a region, in which all rows of the run have room.
const REGION: u64 = 1_048_576;

// Each seat but one may have begun a transaction more as the last place is given.
#[test]
fn eighteen_seats_put_at_once(rt: HostRuntime) -> Result<(), Fail> {
    let workload = Workload {
        times: 20_160,
        load: Load::Short,
    };
    let plan = FaultPlan::none(rt.alloc());
    let Some(opened) = open(rt.alloc(), 18, REGION, plan) else {
        return Err("memory")?;
    };
    let Some(counts) = puts_at_once(&rt, rt.alloc(), opened, workload) else {
        return Err("memory")?;
    };
    assert!(rt; 20_160 <= counts.place && counts.place <= 20_177);
    Ok(())
}
