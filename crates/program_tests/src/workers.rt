// Runs of several workers, which meet at a gate.
use crate::meeting::{Crowd, Meeting};
use md_outer::{Gate, MemDepot, MemSink};
use md_top::drive;
use std::alloc::{AllocError, Global};
use std::sync::Wait;
use std::test::Fail;
use std::thread::Threads;

/// A cartridge of 512 bytes whose program at 1FCh is a branch to itself.
fn idle(alloc: Global) -> Result<Vec<u8>, AllocError> {
    let mut image = [0u8; 512];
    image[1..8].copy_from_slice(&[0xff, 0xf0, 0, 0, 0, 0x01, 0xfc]);
    image[0x100..0x104].copy_from_slice(b"SEGA");
    image[0x1fc..0x1fe].copy_from_slice(&[0x60, 0xfe]);
    image.to_vec(alloc)
}

/// A depot with that cartridge as `Z`.
fn depot_of(alloc: Global) -> Result<MemDepot, AllocError> {
    let mut files = Vec::new(alloc);
    files.push((String::from_str(alloc, "Z")?, idle(alloc)?))?;
    MemDepot::new(alloc, files, 1 << 20, Vec::new(alloc), Vec::new(alloc))
}

/// The words of a run of two segments by so many workers.
fn words_of(alloc: Global, workers: u32) -> Result<Vec<String>, AllocError> {
    let mut words = Vec::new(alloc);
    for word in ["run", "Z", "--cycles", "1792080", "--workers"] {
        words.push(String::from_str(alloc, word)?)?;
    }
    words.push(format!(in alloc; "{workers}")?)?;
    Ok(words)
}

/// The status of a run of two segments by so many workers, who pass a gate.
fn status_at<R: Threads + Wait + Sync, G: Gate>(
    rt: &R,
    alloc: Global,
    workers: u32,
    gate: &G,
) -> Result<u8, AllocError> {
    let words = words_of(alloc, workers)?;
    let mut depot = depot_of(alloc)?;
    let mut out = MemSink::new(alloc, 1 << 16, Vec::new(alloc))?;
    Ok(drive(rt, alloc, &words, &mut depot, &mut out, gate))
}

/// Whether a run of two segments by so many workers ends well, and the first two chips wait for one another in each.
fn meets<R: Threads + Wait + Sync>(
    rt: &R,
    alloc: Global,
    workers: u32,
) -> Result<bool, AllocError> {
    let gate = Meeting::new();
    let status = status_at(rt, alloc, workers, &gate)?;
    Ok(status == 0 && gate.met(2))
}

/// The same where the first chips of all workers wait for one another.
fn gathers<R: Threads + Wait + Sync>(
    rt: &R,
    alloc: Global,
    workers: u32,
) -> Result<bool, AllocError> {
    let gate = Crowd::new(u64::from(workers));
    let status = status_at(rt, alloc, workers, &gate)?;
    Ok(status == 0 && gate.met(2))
}

// In each of two segments the first two chips wait for one another at the gate: workers that were run
// one after the other would never meet there.
#[test]
fn several_workers_meet_in_each_segment(rt: HostRuntime) -> Result<(), Fail> {
    for workers in 2..6 {
        if !meets(&rt, rt.alloc(), workers)? {
            return Err(Fail::from(workers));
        }
    }
    Ok(())
}

// In each of two segments each worker passes for its own chip on a thread of its own.
#[test]
fn each_worker_has_a_thread_in_each_segment(rt: HostRuntime) -> Result<(), Fail> {
    for workers in 2..6 {
        if !gathers(&rt, rt.alloc(), workers)? {
            return Err(Fail::from(workers));
        }
    }
    Ok(())
}
