use crate::crowd::Crowd;
use crate::job::Job;
use crate::meeting::Meeting;
use crate::pair;
use crate::turns::Turns;
use chip_run::run_core;
use core_rows::five::power_on;
use md_outer::FreeGate;
use std::sync::Arc;
use std::test::Fail;

// In each of two runs the first two chips wait for one another at the gate: workers that were run
// one after the other would never meet there.
#[test]
fn several_workers_meet_at_the_gate(rt: HostRuntime) -> Result<(), Fail> {
    for workers in 2..6u32 {
        let gate = Meeting::new();
        for _segment in 0..2 {
            let core = power_on(rt.alloc(), 5000)?;
            let _core = run_core(&rt, core, 1000, workers, &gate);
        }
        assert!(rt; gate.met(2), "with {workers} workers");
    }
    Ok(())
}

// Each of several workers passes for its own chip on a thread of its own: with fewer threads, or with a chip that
// another worker moves, they would never all be at the gate. Each of the five chips has an event below the end.
#[test]
fn each_worker_passes_for_its_chip_on_its_own_thread(rt: HostRuntime) -> Result<(), Fail> {
    for workers in 2..6u32 {
        let gate = Crowd::new(u64::from(workers));
        let core = power_on(rt.alloc(), 5000)?;
        let _core = run_core(&rt, core, 16200, workers, &gate);
        assert!(rt; gate.met(), "with {workers} workers");
    }
    Ok(())
}

// The first private work of each chip waits for the other's: with it under the lock, or with a bound
// that rises only after it, they would never meet.
#[test]
fn private_work_of_two_workers_overlaps(rt: HostRuntime) -> Result<(), Fail> {
    for sample in [false, true] {
        let meeting = Arc::new(rt.alloc(), Meeting::new())?;
        let core = pair::power_on(rt.alloc(), sample, &meeting, 1, None, 2)?;
        let _core = run_core(&rt, core, 1, 2, &FreeGate);
        assert!(rt; meeting.met(1), "samples: {sample}");
    }
    Ok(())
}

// Each of five private works of each chip waits for the other's: workers that went on one after the other
// after their first events would never meet again.
#[test]
fn private_work_of_two_workers_overlaps_to_the_end(rt: HostRuntime) -> Result<(), Fail> {
    let meeting = Arc::new(rt.alloc(), Meeting::new())?;
    let core = pair::power_on(rt.alloc(), false, &meeting, 5, None, 12)?;
    let _core = run_core(&rt, core, 50, 2, &FreeGate);
    assert!(rt; meeting.met(5));
    Ok(())
}

// The second chip waits at the gate for the job: with none who runs it beside the turns, it would continue
// after a while, and the job would be queued to the end.
#[test]
fn a_helper_runs_a_job(rt: HostRuntime) -> Result<(), Fail> {
    let meeting = Arc::new(rt.alloc(), Meeting::new())?;
    let job = Arc::new(rt.alloc(), Job::new())?;
    let laid = Arc::try_clone(&job)?;
    let core = pair::power_on(rt.alloc(), false, &meeting, 0, Some(laid), 2)?;
    let _core = run_core(&rt, core, 1, 2, &*job);
    assert!(rt; job.was_run(1));
    Ok(())
}

#[test]
fn one_worker_alone_runs_no_job(rt: HostRuntime) -> Result<(), Fail> {
    let meeting = Arc::new(rt.alloc(), Meeting::new())?;
    let job = Arc::new(rt.alloc(), Job::new())?;
    let laid = Arc::try_clone(&job)?;
    let core = pair::power_on(rt.alloc(), false, &meeting, 0, Some(laid), 2)?;
    let _core = run_core(&rt, core, 1, 1, &FreeGate);
    assert!(rt; job.was_run(0));
    Ok(())
}

// Below cycle 1,000 the first two chips move twice, before the third's access and with one lease after it,
// each after a pass; the last two have no event there.
#[test]
fn a_chip_passes_the_gate_before_each_of_its_moves(rt: HostRuntime) -> Result<(), Fail> {
    let gate = Turns::new();
    let core = power_on(rt.alloc(), 100)?;
    let _core = run_core(&rt, core, 1000, 2, &gate);
    assert!(rt; gate.are_right());
    for (chip, least) in [(0, 2), (1, 2), (2, 1)] {
        assert!(rt; gate.passed(chip, least));
    }
    assert!(rt; !gate.passed(4, 1));
    Ok(())
}
