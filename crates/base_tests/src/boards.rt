//! Tests boards of jobs: the jobs that seats take in order, by stealing and on threads.
//!
//! Also the jobs taken and left at `close`, a `close` refused memory, and bad numbers of seats.
ghost use Rattle.std.specs.Prelude.{◌≡◌, ◌<◌, ◌≤◌, ◌⊎◌, vec_len, IfOk, IfErr, IfSome};
ghost use Rattle.tile_jobs.specs.Ends.{IsBoard, SameSeat};

use std::alloc::{AllocError, Global};
use std::process::Abort;
use std::sync::Wait;
use std::test::Fail;
use std::thread;
use std::thread::Threads;
use tile_jobs::{Board, Closed, JobFault, Seat, Take};

fn dealt(alloc: Global, jobs: u32, seats: u32) -> Result<Vec<Seat>, JobFault>
    requires { jobs ≤ 65536 }
    ensures len { IfOk result (λ v. vec_len v ≡ seats) }
    ensures board { IfOk result (λ v. IsBoard (vec_len v) v.items) }
    ensures faults { IfErr result (λ e. (e ≡ JobFault.BadWorkers) ⊎ (e ≡ JobFault.Memory)) }
{
    Board::deal(alloc, jobs, seats)
}

fn take_at(seats: &mut Vec<Seat>, s: usize) -> Take
    requires at { s < vec_len seats.old }
    requires board { IsBoard (vec_len seats.old) seats.old.items }
    ensures len { vec_len seats.new ≡ vec_len seats.old }
    ensures board { IsBoard (vec_len seats.new) seats.new.items }
{
    seats[s].try_take()
}

/// Deals a board, and returns its seat `s` alone.
fn deal_one_seat(alloc: Global, jobs: u32, seats: u32, s: usize) -> Result<Seat, Fail>
    requires { jobs ≤ 65536 }
{
    let mut seats = dealt(alloc, jobs, seats)?;
    if s >= seats.len() {
        return Err(Fail::from("no seat"));
    }
    Ok(seats.swap_remove(s))
}

/// Asserts that the next take of `seat`, which has number `s`, returns `want`.
fn gets(rt: &impl Abort, seat: &mut Seat, want: Take, s: usize) {
    assert_eq!(rt; seat.try_take(), want, "seat {s}");
}

/// Asserts that the next take of seat `s` returns `want`.
fn gets_at(rt: &impl Abort, seats: &mut Vec<Seat>, s: usize, want: Take)
    requires at { s < vec_len seats.old }
    requires board { IsBoard (vec_len seats.old) seats.old.items }
    ensures len { vec_len seats.new ≡ vec_len seats.old }
    ensures board { IsBoard (vec_len seats.new) seats.new.items }
{
    assert_eq!(rt; take_at(seats, s), want);
}

fn closed(alloc: Global, seats: Vec<Seat>) -> Result<Closed, Fail>
    requires { IsBoard (vec_len seats) seats.items }
{
    let Ok(closed) = Board::close(alloc, seats) else {
        return Err(Fail::from("no memory"));
    };
    Ok(closed)
}

/// Asserts which jobs each seat took, and which jobs are left.
fn expect_jobs(rt: &impl Abort, closed: &Closed, taken: &[&[u32]], left: &[u32]) {
    assert_eq!(rt; closed.taken.len(), taken.len());
    for (list, want) in closed.taken.iter().zip(taken.iter()) {
        assert_eq!(rt; list.as_slice(), *want);
    }
    assert_eq!(rt; closed.left.as_slice(), left);
}

#[test]
fn one_seat_takes_all(rt: HostRuntime) -> Result<(), Fail> {
    let mut seat = deal_one_seat(rt.alloc(), 1000, 1, 0)?;
    for job in 0..1000 {
        gets(&rt, &mut seat, Take::Job(job), 0);
    }
    gets(&rt, &mut seat, Take::Empty, 0);
    gets(&rt, &mut seat, Take::Empty, 0);
    Ok(())
}

#[test]
fn own_jobs_then_round_the_seats(rt: HostRuntime) -> Result<(), Fail> {
    let turns = [
        (0, [0, 3, 6, 1, 4, 2, 5]),
        (1, [1, 4, 2, 5, 0, 3, 6]),
        (2, [2, 5, 0, 3, 6, 1, 4]),
    ];
    for (s, jobs) in turns {
        let mut seat = deal_one_seat(rt.alloc(), 7, 3, s)?;
        for job in jobs {
            gets(&rt, &mut seat, Take::Job(job), s);
        }
        gets(&rt, &mut seat, Take::Empty, s);
    }
    Ok(())
}

/// Takes all five jobs with two seats; the second seat steals one job of the first seat.
fn take_five(rt: &impl Abort, seats: &mut Vec<Seat>)
    requires len { vec_len seats.old ≡ 2 }
    requires board { IsBoard (vec_len seats.old) seats.old.items }
    ensures board { IsBoard (vec_len seats.new) seats.new.items }
{
    gets_at(rt, seats, 1, Take::Job(1));
    gets_at(rt, seats, 1, Take::Job(3));
    gets_at(rt, seats, 1, Take::Job(0));
    gets_at(rt, seats, 0, Take::Job(2));
    gets_at(rt, seats, 0, Take::Job(4));
    gets_at(rt, seats, 0, Take::Empty);
}

#[test]
fn five_jobs_for_two_seats(rt: HostRuntime) -> Result<(), Fail> {
    let mut seats = dealt(rt.alloc(), 5, 2)?;
    take_five(&rt, &mut seats);
    expect_jobs(
        &rt,
        &closed(rt.alloc(), seats)?,
        &[&[2, 4], &[1, 3, 0]],
        &[],
    );
    Ok(())
}

#[test]
fn jobs_that_no_seat_took_are_left(rt: HostRuntime) -> Result<(), Fail> {
    let mut seats = dealt(rt.alloc(), 5, 2)?;
    gets_at(&rt, &mut seats, 1, Take::Job(1));
    gets_at(&rt, &mut seats, 1, Take::Job(3));
    gets_at(&rt, &mut seats, 1, Take::Job(0));
    expect_jobs(
        &rt,
        &closed(rt.alloc(), seats)?,
        &[&[], &[1, 3, 0]],
        &[2, 4],
    );
    Ok(())
}

#[test]
fn one_of_three_seats_takes_all(rt: HostRuntime) -> Result<(), Fail> {
    let mut seats = dealt(rt.alloc(), 7, 3)?;
    gets_at(&rt, &mut seats, 2, Take::Job(2));
    gets_at(&rt, &mut seats, 2, Take::Job(5));
    gets_at(&rt, &mut seats, 2, Take::Job(0));
    gets_at(&rt, &mut seats, 2, Take::Job(3));
    gets_at(&rt, &mut seats, 2, Take::Job(6));
    gets_at(&rt, &mut seats, 2, Take::Job(1));
    gets_at(&rt, &mut seats, 2, Take::Job(4));
    gets_at(&rt, &mut seats, 2, Take::Empty);
    gets_at(&rt, &mut seats, 0, Take::Empty);
    gets_at(&rt, &mut seats, 1, Take::Empty);
    let all = [2, 5, 0, 3, 6, 1, 4];
    expect_jobs(&rt, &closed(rt.alloc(), seats)?, &[&[], &[], &all], &[]);
    Ok(())
}

#[test]
fn no_jobs_for_two_seats(rt: HostRuntime) -> Result<(), Fail> {
    let mut seats = dealt(rt.alloc(), 0, 2)?;
    gets_at(&rt, &mut seats, 0, Take::Empty);
    gets_at(&rt, &mut seats, 1, Take::Empty);
    Ok(())
}

#[test]
fn more_seats_than_jobs(rt: HostRuntime) -> Result<(), Fail> {
    let mut seats = dealt(rt.alloc(), 1, 64)?;
    gets_at(&rt, &mut seats, 63, Take::Job(0));
    gets_at(&rt, &mut seats, 63, Take::Empty);
    gets_at(&rt, &mut seats, 0, Take::Empty);
    let mut none = dealt(rt.alloc(), 0, 1)?;
    gets_at(&rt, &mut none, 0, Take::Empty);
    Ok(())
}

#[test]
fn most_jobs(rt: HostRuntime) -> Result<(), Fail> {
    let mut seat = deal_one_seat(rt.alloc(), 65536, 2, 1)?;
    for job in 0..32768 {
        gets(&rt, &mut seat, Take::Job(2 * job + 1), 1);
    }
    for job in 0..32768 {
        gets(&rt, &mut seat, Take::Job(2 * job), 1);
    }
    gets(&rt, &mut seat, Take::Empty, 1);
    Ok(())
}

fn refuses_seats(rt: &impl Abort, alloc: Global, seats: u32) {
    let refused = dealt(alloc, 3, seats);
    assert!(rt;
        matches!(refused, Err(JobFault::BadWorkers)),
        "{seats} seats"
    );
}

#[test]
fn bad_seats(rt: HostRuntime) {
    refuses_seats(&rt, rt.alloc(), 0);
    refuses_seats(&rt, rt.alloc(), 65);
}

/// Closes the board, at the second try if the first is refused memory.
fn close_twice(alloc: Global, seats: Vec<Seat>) -> Result<Closed, Fail>
    requires { IsBoard (vec_len seats) seats.items }
{
    match Board::close(alloc, seats) {
        Ok(closed) => Ok(closed),
        Err(back) => match Board::close(alloc, back) {
            Ok(closed) => Ok(closed),
            Err(_) => Err(Fail::from("refused twice")),
        },
    }
}

/// Deals five jobs to two seats. Returns `None` if memory is refused.
fn deal_five(rt: &impl Abort, alloc: Global) -> Option<Vec<Seat>>
    ensures len { IfSome result (λ v. vec_len v ≡ 2) }
    ensures board { IfSome result (λ v. IsBoard (vec_len v) v.items) }
{
    match dealt(alloc, 5, 2) {
        Ok(seats) => Some(seats),
        Err(fault) => {
            assert_eq!(rt; fault, JobFault::Memory);
            None
        }
    }
}

/// A refused `close` returns the seats, with the jobs that they took.
/// If `rt try --fail-alloc` refuses memory, no board is dealt, or the second try closes the board.
#[test]
fn refused_close_gives_seats_back(rt: HostRuntime) -> Result<(), Fail> {
    let Some(mut seats) = deal_five(&rt, rt.alloc()) else {
        return Ok(());
    };
    take_five(&rt, &mut seats);
    let closed = close_twice(rt.alloc(), seats)?;
    expect_jobs(&rt, &closed, &[&[2, 4], &[1, 3, 0]], &[]);
    Ok(())
}

/// If `rt try --fail-alloc` refuses memory to `close`, the seats keep the jobs that are left.
#[test]
fn refused_close_keeps_what_is_left(rt: HostRuntime) -> Result<(), Fail> {
    let Some(mut seats) = deal_five(&rt, rt.alloc()) else {
        return Ok(());
    };
    gets_at(&rt, &mut seats, 1, Take::Job(1));
    let closed = close_twice(rt.alloc(), seats)?;
    expect_jobs(&rt, &closed, &[&[], &[1]], &[0, 2, 4, 3]);
    Ok(())
}

/// Takes jobs until no deque holds one.
fn take_all<R: Wait>(rt: &R, seat: &mut Seat)
    ensures { SameSeat seat.old seat.new }
{
    for _ in rt.forever() {
        match seat.try_take() {
            Take::Job(_) => {}
            Take::Again => thread::yield_now(),
            Take::Empty => break,
        }
    }
}

/// Deals a board, takes all jobs with at most one thread a seat, and closes it.
fn take_with_threads<R: Threads + Wait + Sync>(
    rt: &R,
    alloc: Global,
    jobs: u32,
    seats: u32,
) -> Result<Closed, JobFault>
    requires { jobs ≤ 65536 }
{
    let mut dealt = Board::deal(alloc, jobs, seats)?;
    thread::for_each_mut(
        rt,
        &mut dealt,
        seats as usize,
        &|_, seat| take_all(rt, seat),
    );
    Board::close(alloc, dealt).map_err(|_| JobFault::Memory)
}

/// Returns whether the list has jobs of the seat's own deque first, in rising order.
fn own_come_first(list: &[u32], seat: u32, seats: u32) -> bool {
    let mut stolen = false;
    let mut least = seat;
    for job in list {
        if job.checked_rem(seats) != Some(seat) {
            stolen = true;
        } else if stolen || *job < least {
            return false;
        } else {
            least = job.saturating_add(1);
        }
    }
    true
}

/// Asserts that the seats took each job once, each seat the jobs of its own deque first.
fn have_each_job_once(
    rt: &impl Abort,
    alloc: Global,
    lists: &[Vec<u32>],
    jobs: u32,
    seats: u32,
) -> Result<(), AllocError> {
    let mut times = vec![in alloc; 0u32; jobs as usize]?;
    let mut total = 0usize;
    let mut seat = 0u32;
    for list in lists {
        assert!(rt; own_come_first(list, seat, seats), "seat {seat}: {list:?}");
        for job in list {
            if let Some(count) = times.get_mut(*job as usize) {
                *count = count.saturating_add(1);
            }
        }
        total = total.saturating_add(list.len());
        seat = seat.saturating_add(1);
    }
    assert_eq!(rt; total, jobs as usize);
    assert!(rt; times.iter().all(|count| *count == 1), "{jobs} jobs");
    Ok(())
}

/// Each seat is on a thread of its own, where threads can be started.
#[test]
fn seats_apart_take_each_job_once(rt: HostRuntime) -> Result<(), Fail> {
    for (jobs, seats) in [(7u32, 3u32), (0, 2), (10000, 4)] {
        let closed = take_with_threads(&rt, rt.alloc(), jobs, seats)?;
        assert_eq!(rt; closed.left.len(), 0, "{jobs} jobs");
        assert_eq!(rt; closed.taken.len(), seats as usize);
        have_each_job_once(&rt, rt.alloc(), &closed.taken, jobs, seats)?;
    }
    Ok(())
}
