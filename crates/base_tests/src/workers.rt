//! Tests runs of jobs: results, faults, refused threads, and the calls of gates.
ghost use Rattle.std.specs.Prelude.{◌≤◌};

use crate::texts::expect_numbers;
use std::alloc::{AllocError, Global};
use std::process::Abort;
use std::sync::Wait;
use std::sync::atomic::{AtomicU64, Ordering};
use std::test::Fail;
use std::thread;
use std::thread::Threads;
use tile_jobs::{Gate, JobFault, NoGate, Work, run_jobs, run_jobs_capped};

/// The most checks for other jobs by a held job: enough time for any worker to begin a job.
const MOST_LOOKS: u32 = 10_000_000;

/// Work whose job `j` returns the square of `j`, for `j` below `most`.
#[derive(Drop)]
struct Squares {
    most: u32,
    ghost small: { most ≤ 60000 },
}

impl Work for Squares {
    type Out = u32;

    ghost use Rattle.std.specs.Prelude.{◌≡◌, ◌*◌};

    ghost most = { λ w. w.most };

    ghost gives = { λ w job out. out ≡ job * job };

    fn run(&self, _alloc: Global, job: u32) -> Result<u32, JobFault> {
        Ok(job * job)
    }
}

/// Work of which one job fails for want of memory.
#[derive(Drop)]
struct Hungry {
    most: u32,
    job: u32,
}

impl Work for Hungry {
    type Out = u32;

    ghost use Rattle.std.specs.Prelude.{◌≡◌};

    ghost most = { λ w. w.most };

    ghost gives = { λ w job out. out ≡ job };

    fn run(&self, _alloc: Global, job: u32) -> Result<u32, JobFault> {
        if job == self.job {
            return Err(JobFault::Memory);
        }
        Ok(job)
    }
}

/// A gate that holds job `j` until the jobs of `waits[j]` have entered, or for `looks` checks.
/// Records the order in which jobs enter.
#[derive(Drop)]
struct Turns {
    // bit k of `waits[j]`: job j waits for job k
    waits: [u8; 4],
    // the most checks of a held job for the jobs that it waits for
    looks: u32,
    // the position of each job in the order of entering, from 1; 0 before the job enters
    entries: [AtomicU64; 4],
    count: AtomicU64,
    // how many jobs ran because their checks were used up
    missed: AtomicU64,
}

impl Turns {
    fn new(waits: [u8; 4]) -> Turns {
        Turns {
            waits,
            looks: MOST_LOOKS,
            entries: [
                AtomicU64::new(0),
                AtomicU64::new(0),
                AtomicU64::new(0),
                AtomicU64::new(0),
            ],
            count: AtomicU64::new(0),
            missed: AtomicU64::new(0),
        }
    }

    fn have_entered(&self, jobs: u8) -> bool {
        for k in 0..4usize {
            if (jobs >> k) & 1 == 1 && self.entries[k].load(Ordering::SeqCst) == 0 {
                return false;
            }
        }
        true
    }

    /// Returns the job's position in the order of entering, from 1; 0 if it did not enter.
    fn position_of(&self, job: usize) -> u64 {
        self.entries
            .get(job)
            .map_or(0, |entry| entry.load(Ordering::SeqCst))
    }

    fn missed(&self) -> u64 {
        self.missed.load(Ordering::SeqCst)
    }
}

impl Gate for Turns {
    fn enter(&self, job: u32) {
        let place = self.count.fetch_add(1, Ordering::SeqCst);
        if let Some(entry) = self.entries.get(job as usize) {
            entry.store(place.wrapping_add(1), Ordering::SeqCst);
        }
        let waits = self.waits.get(job as usize).copied().unwrap_or(0);
        for _ in 0..self.looks {
            if self.have_entered(waits) {
                return;
            }
            thread::yield_now();
        }
        self.missed.fetch_add(1, Ordering::SeqCst);
    }
}

/// Returns the squares of the numbers below `jobs`, by work that allows jobs below `most`.
fn run_squares<R: Threads + Wait + Sync>(
    rt: &R,
    alloc: Global,
    most: u32,
    jobs: u32,
    workers: u32,
) -> Result<Vec<u32>, JobFault>
    requires most { most ≤ 60000 }
    requires jobs { jobs ≤ most }
{
    run_jobs(rt, alloc, &Squares { most }, jobs, workers, &NoGate)
}

fn run_by_turns<R: Threads + Wait + Sync>(
    rt: &R,
    alloc: Global,
    jobs: u32,
    workers: u32,
    turns: &Turns,
) -> Result<(), JobFault>
    requires { jobs ≤ 60000 }
{
    run_jobs(rt, alloc, &Squares { most: jobs }, jobs, workers, turns)?;
    Ok(())
}

#[test]
fn answers_come_in_job_order(rt: HostRuntime) -> Result<(), Fail> {
    for workers in [1, 2, 3, 10, 64] {
        let squares = run_squares(&rt, rt.alloc(), 10, 10, workers)?;
        expect_numbers(&rt, &squares, &[0, 1, 4, 9, 16, 25, 36, 49, 64, 81]);
    }
    Ok(())
}

#[test]
fn five_squares_by_three_workers(rt: HostRuntime) -> Result<(), Fail> {
    let squares = run_squares(&rt, rt.alloc(), 5, 5, 3)?;
    expect_numbers(&rt, &squares, &[0, 1, 4, 9, 16]);
    let none = run_squares(&rt, rt.alloc(), 5, 0, 3)?;
    expect_numbers(&rt, &none, &[]);
    Ok(())
}

#[test]
fn fewer_jobs_than_may_be_run(rt: HostRuntime) -> Result<(), Fail> {
    for workers in [1, 4] {
        let none = run_squares(&rt, rt.alloc(), 10, 0, workers)?;
        expect_numbers(&rt, &none, &[]);
        let two = run_squares(&rt, rt.alloc(), 10, 2, workers)?;
        expect_numbers(&rt, &two, &[0, 1]);
    }
    Ok(())
}

/// 60,000 jobs, of the 65,536 that one run may have.
#[test]
fn most_jobs(rt: HostRuntime) -> Result<(), Fail> {
    let squares = run_squares(&rt, rt.alloc(), 60000, 60000, 4)?;
    assert_eq!(rt; squares.len(), 60000);
    assert_eq!(rt; squares.get(59999).copied(), Some(3_599_880_001));
    Ok(())
}

#[test]
fn bad_workers(rt: HostRuntime) {
    for workers in [0, 65] {
        let refused = run_squares(&rt, rt.alloc(), 5, 5, workers);
        assert!(rt;
            matches!(refused, Err(JobFault::BadWorkers)),
            "{workers} workers"
        );
    }
}

/// Runs `most` jobs, of which `job` fails for want of memory.
fn run_hungry<R: Threads + Wait + Sync>(
    rt: &R,
    alloc: Global,
    most: u8,
    job: u32,
    workers: u32,
) -> Result<Vec<u32>, JobFault> {
    let most = u32::from(most);
    run_jobs(rt, alloc, &Hungry { most, job }, most, workers, &NoGate)
}

#[test]
fn fault_of_a_job_is_told(rt: HostRuntime) {
    for (most, job) in [(5, 4), (8, 3)] {
        for workers in [1, 2, 8] {
            let refused = run_hungry(&rt, rt.alloc(), most, job, workers);
            assert!(rt;
                matches!(refused, Err(JobFault::Memory)),
                "{workers} workers"
            );
        }
    }
}

#[test]
fn one_worker_takes_jobs_in_turn(rt: HostRuntime) -> Result<(), Fail> {
    let turns = Turns::new([0; 4]);
    run_by_turns(&rt, rt.alloc(), 4, 1, &turns)?;
    for job in 0..4usize {
        assert_eq!(rt; turns.position_of(job), job as u64 + 1);
    }
    Ok(())
}

#[test]
fn two_jobs_meet(rt: HostRuntime) -> Result<(), Fail> {
    let turns = Turns::new([0b10, 0b01, 0, 0]);
    run_by_turns(&rt, rt.alloc(), 2, 2, &turns)?;
    assert_eq!(rt; turns.missed(), 0);
    Ok(())
}

/// If `rt try --fail-alloc` refuses memory, a run returns a fault or all its results.
#[test]
fn refused_memory_is_reported(rt: HostRuntime) {
    for workers in [1, 3] {
        match run_squares(&rt, rt.alloc(), 5, 5, workers) {
            Ok(squares) => expect_numbers(&rt, &squares, &[0, 1, 4, 9, 16]),
            Err(JobFault::Memory) => {}
            Err(fault) => assert_eq!(rt; (fault, workers), (JobFault::NoThread, 3)),
        }
    }
}

/// Each case holds one job. Without stealing, the held job of the first case would wait in vain.
#[test]
fn idle_worker_steals(rt: HostRuntime) -> Result<(), Fail> {
    for waits in [[0b110, 0, 0, 0], [0, 0b101, 0, 0], [0, 0, 0b011, 0]] {
        let turns = Turns::new(waits);
        run_by_turns(&rt, rt.alloc(), 3, 2, &turns)?;
        assert_eq!(rt; turns.missed(), 0, "{waits:?}");
    }
    Ok(())
}

/// Jobs 0 and 2 are in the first worker's deque, jobs 1 and 3 in the second's.
#[test]
fn own_jobs_first(rt: HostRuntime) -> Result<(), Fail> {
    let turns = Turns::new([0b1000, 0, 0, 0]);
    run_by_turns(&rt, rt.alloc(), 4, 2, &turns)?;
    assert_eq!(rt; turns.missed(), 0);
    assert!(rt; turns.position_of(3) < turns.position_of(2));
    let turns = Turns::new([0, 0b100, 0, 0]);
    run_by_turns(&rt, rt.alloc(), 4, 2, &turns)?;
    assert_eq!(rt; turns.missed(), 0);
    assert!(rt; turns.position_of(2) < turns.position_of(3));
    Ok(())
}

/// How often a job's call of `enter` began and ended, and how often the job ran.
#[derive(Drop)]
struct Visit {
    entered: AtomicU64,
    let_in: AtomicU64,
    ran: AtomicU64,
}

/// Work and gate that count how often each job enters and runs.
#[derive(Drop)]
struct Visits {
    visits: Vec<Visit>,
    // how often `enter` found that its job had run, or `run` that its job was not let in
    early: AtomicU64,
}

impl Visits {
    fn new(alloc: Global, jobs: u32) -> Result<Visits, AllocError> {
        let mut visits = Vec::new(alloc);
        for _ in 0..jobs {
            visits.push(Visit {
                entered: AtomicU64::new(0),
                let_in: AtomicU64::new(0),
                ran: AtomicU64::new(0),
            })?;
        }
        Ok(Visits {
            visits,
            early: AtomicU64::new(0),
        })
    }
}

impl Gate for Visits {
    fn enter(&self, job: u32) {
        let Some(visit) = self.visits.get(job as usize) else {
            return;
        };
        visit.entered.fetch_add(1, Ordering::SeqCst);
        for _ in 0..3 {
            thread::yield_now();
        }
        if visit.ran.load(Ordering::SeqCst) != 0 {
            self.early.fetch_add(1, Ordering::SeqCst);
        }
        visit.let_in.fetch_add(1, Ordering::SeqCst);
    }
}

impl Work for Visits {
    type Out = u32;

    ghost use Rattle.std.specs.Prelude.{◌≡◌};

    ghost most = { λ w. 65536 };

    ghost gives = { λ w job out. out ≡ job };

    fn run(&self, _alloc: Global, job: u32) -> Result<u32, JobFault> {
        if let Some(visit) = self.visits.get(job as usize) {
            if visit.let_in.load(Ordering::SeqCst) == 0 {
                self.early.fetch_add(1, Ordering::SeqCst);
            }
            visit.ran.fetch_add(1, Ordering::SeqCst);
        }
        Ok(job)
    }
}

impl Visit {
    /// Returns how often the job entered, and how often it ran.
    fn times(&self) -> (u64, u64) {
        (
            self.entered.load(Ordering::SeqCst),
            self.ran.load(Ordering::SeqCst),
        )
    }
}

/// Runs the jobs; at most `starts` threads can be started.
fn run_capped<R: Threads + Wait + Sync>(
    rt: &R,
    alloc: Global,
    visits: &Visits,
    jobs: u32,
    workers: u32,
    starts: u32,
) -> Result<Vec<u32>, JobFault>
    requires { jobs ≤ 65536 }
{
    run_jobs_capped(rt, alloc, visits, jobs, workers, visits, starts)
}

/// Asserts that each job entered once, and ran once after it was let in.
fn have_run_once(rt: &impl Abort, visits: &Visits, workers: u32) {
    for (job, visit) in visits.visits.iter().enumerate() {
        assert_eq!(rt; visit.times(), (1, 1), "job {job}, {workers} workers");
    }
    assert_eq!(rt; visits.early.load(Ordering::SeqCst), 0, "{workers} workers");
}

#[test]
fn each_job_enters_once_and_then_runs_once(rt: HostRuntime) -> Result<(), Fail> {
    for workers in [1, 2, 3, 8] {
        let visits = Visits::new(rt.alloc(), 100)?;
        run_jobs(&rt, rt.alloc(), &visits, 100, workers, &visits)?;
        have_run_once(&rt, &visits, workers);
    }
    Ok(())
}

fn have_run_at_most_once(rt: &impl Abort, visits: &Visits) {
    for (job, visit) in visits.visits.iter().enumerate() {
        assert!(rt; visit.times().1 <= 1, "job {job}");
    }
}

/// Asserts that a run of four workers returns `NoThread` if only `starts` of them start.
fn refuses_starts<R: Abort + Threads + Wait + Sync>(
    rt: &R,
    alloc: Global,
    jobs: u32,
    starts: u32,
) -> Result<(), AllocError>
    requires { jobs ≤ 65536 }
{
    let visits = Visits::new(alloc, jobs)?;
    let refused = run_capped(rt, alloc, &visits, jobs, 4, starts);
    assert!(rt;
        matches!(refused, Err(JobFault::NoThread)),
        "{jobs} jobs, {starts} starts"
    );
    have_run_at_most_once(rt, &visits);
    Ok(())
}

/// Four workers need four threads, even for fewer jobs. One worker needs none.
#[test]
fn threads_that_cannot_be_started(rt: HostRuntime) -> Result<(), Fail> {
    for jobs in [5, 0, 1, 2] {
        for starts in 0..4u32 {
            refuses_starts(&rt, rt.alloc(), jobs, starts)?;
        }
    }
    let visits = Visits::new(rt.alloc(), 5)?;
    let answers = run_capped(&rt, rt.alloc(), &visits, 5, 1, 0)?;
    expect_numbers(&rt, &answers, &[0, 1, 2, 3, 4]);
    Ok(())
}

/// A held job blocks its worker. While all workers are blocked, no other job enters.
#[test]
fn held_workers_take_no_job(rt: HostRuntime) -> Result<(), Fail> {
    for (workers, waits) in [(1, [0b10, 0, 0, 0]), (2, [0b100, 0b100, 0, 0])] {
        let turns = Turns {
            looks: 1000,
            ..Turns::new(waits)
        };
        run_by_turns(&rt, rt.alloc(), 3, workers, &turns)?;
        assert_ne!(rt; turns.missed(), 0, "{workers} workers");
    }
    Ok(())
}
