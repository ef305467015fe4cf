//! Tests lines of sight, viewsheds and rises: small cases and refusals.
//! Compares viewsheds with `sees`, which tests one line of sight.
ghost use Rattle.std.specs.Prelude.{◌≡◌};

use crate::ground::{cut, land};
use sight::{Observer, SightFault, rise, sees, viewshed};
use std::alloc::{AllocError, Global};
use std::process::Abort;
use std::sync::Wait;
use std::thread::Threads;
use terrain::{Count, Grid, Place};
use tile_jobs::{JobFault, NoGate};

const LONGEST_RADIUS: u32 = 8_192;

const CORNER: Observer = Observer {
    row: 0,
    col: 0,
    eye: 0,
};

fn observer(row: u32, col: u32, eye: u32) -> Observer
    ensures { result ≡ record { row = row; col = col; eye = eye } }
{
    Observer { row, col, eye }
}

/// Draws values as digits, from 10 on as `+`, NODATA as `.`, a space between rows.
fn draw_values(alloc: Global, values: &[Count], cols: u32) -> Result<String, AllocError> {
    let mut text = String::new(alloc);
    let mut in_row = 0;
    for value in values {
        if in_row == cols {
            text.push(' ')?;
            in_row = 0;
        }
        text.push(match value.value() {
            None => '.',
            Some(number) if number < 10 => (b'0' + number as u8) as char,
            Some(_) => '+',
        })?;
        in_row = in_row.saturating_add(1);
    }
    Ok(text)
}

/// Asserts the viewshed of the land, for several tile sides and numbers of workers.
fn expect_values<R: Abort + Threads + Wait + Sync>(
    rt: &R,
    alloc: Global,
    land: &Grid,
    observers: &[Observer],
    target_height: u32,
    radius: u32,
    expected: &str,
) {
    for (side, workers) in [(256, 1), (1, 8), (2, 2), (3, 1)] {
        let tiling = cut(rt, land, side);
        let seen = viewshed(
            rt,
            alloc,
            land,
            observers,
            target_height,
            radius,
            &tiling,
            workers,
            &NoGate,
        );
        let values = seen.expect(rt, "a viewshed");
        let text = draw_values(alloc, values.as_slice(), land.cols()).expect(rt, "a text");
        assert_eq!(rt; text.as_str(), expected, "side {side}, {workers} workers");
    }
}

/// Asserts the viewshed of the land at the greatest radius.
fn expect_far<R: Abort + Threads + Wait + Sync>(
    rt: &R,
    alloc: Global,
    land: &Grid,
    observers: &[Observer],
    target_height: u32,
    expected: &str,
) {
    expect_values(
        rt,
        alloc,
        land,
        observers,
        target_height,
        LONGEST_RADIUS,
        expected,
    );
}

/// Asserts the rise of the land, for several tile sides and numbers of workers.
fn expect_rise<R: Abort + Threads + Wait + Sync>(
    rt: &R,
    alloc: Global,
    land: &Grid,
    observers: &[Observer],
    radius: u32,
    expected: &str,
) {
    for (side, workers) in [(256, 1), (1, 8), (2, 2), (3, 1)] {
        let tiling = cut(rt, land, side);
        let heights = rise(
            rt, alloc, land, observers, radius, &tiling, workers, &NoGate,
        );
        let values = heights.expect(rt, "a rise");
        let text = draw_values(alloc, values.as_slice(), land.cols()).expect(rt, "a text");
        assert_eq!(rt; text.as_str(), expected, "side {side}, {workers} workers");
    }
}

/// The second ridge is over the first at 3 units, the last cell over both at 9. A second observer
/// lowers; past the radius is none.
#[test]
fn least_heights(rt: HostRuntime) {
    let alloc = rt.alloc();
    let land = land(&rt, alloc, 5, 1, "0 3 1 6 3");
    expect_rise(&rt, alloc, &land, &[CORNER], LONGEST_RADIUS, "00539");
    let both = [CORNER, observer(0, 4, 0)];
    expect_rise(&rt, alloc, &land, &both, LONGEST_RADIUS, "00500");
    expect_rise(&rt, alloc, &land, &[CORNER], 1, "00...");
}

/// A ridge hides a cell, unless eye or target is high enough. Past the radius no cell is seen.
#[test]
fn one_line(rt: HostRuntime) {
    let land = land(&rt, rt.alloc(), 3, 1, "0 6 10");
    assert!(rt; land.cols() == 3);
    assert!(rt; land.rows() == 1);
    let ridge = Place { row: 0, col: 1 };
    let beyond = Place { row: 0, col: 2 };
    assert!(rt; sees(&land, &CORNER, ridge, 0, LONGEST_RADIUS));
    assert!(rt; !sees(&land, &CORNER, beyond, 0, LONGEST_RADIUS));
    assert!(rt; sees(&land, &observer(0, 0, 2), beyond, 0, LONGEST_RADIUS));
    assert!(rt; sees(&land, &CORNER, beyond, 2, LONGEST_RADIUS));
    assert!(rt; !sees(&land, &CORNER, beyond, 1, LONGEST_RADIUS));
    assert!(rt; !sees(&land, &CORNER, beyond, 2, 1));
}

/// Ground as high as the line of sight does not block; ground one unit higher does.
#[test]
fn as_high_as_the_line(rt: HostRuntime) {
    let level = land(&rt, rt.alloc(), 3, 1, "0 5 10");
    expect_far(&rt, rt.alloc(), &level, &[CORNER], 0, "111");
    let higher = land(&rt, rt.alloc(), 3, 1, "0 6 10");
    expect_far(&rt, rt.alloc(), &higher, &[CORNER], 0, "110");
}

/// A crossing between a high cell and NODATA does not block.
#[test]
fn no_data_tests_nothing(rt: HostRuntime) {
    let gap = land(&rt, rt.alloc(), 3, 2, "0 30000 0\n0 -9999 0");
    expect_far(&rt, rt.alloc(), &gap, &[CORNER], 0, "110 1.1");
}

/// At a crossing halfway between two cells their average height decides.
#[test]
fn heights_between_two_cells(rt: HostRuntime) {
    let above = land(&rt, rt.alloc(), 3, 2, "0 8 0\n0 -7 0");
    expect_far(&rt, rt.alloc(), &above, &[CORNER], 0, "110 110");
    let level = land(&rt, rt.alloc(), 3, 2, "0 8 0\n0 -8 0");
    expect_far(&rt, rt.alloc(), &level, &[CORNER], 0, "110 111");
}

#[test]
fn hidden_by_a_row_alone(rt: HostRuntime) {
    let hills = land(&rt, rt.alloc(), 4, 3, "0 -9 0 0\n0 4 1 0\n0 0 -9 0");
    expect_far(&rt, rt.alloc(), &hills, &[CORNER], 0, "1111 1110 1000");
}

#[test]
fn an_observer_twice(rt: HostRuntime) {
    let flat = land(&rt, rt.alloc(), 3, 3, "0 0 0\n0 0 0\n0 0 0");
    let twice = [observer(1, 1, 0); 2];
    expect_values(&rt, rt.alloc(), &flat, &twice, 0, 1, "020 222 020");
}

#[test]
fn eye_and_target_heights(rt: HostRuntime) {
    let ridge = land(&rt, rt.alloc(), 3, 1, "0 6 10");
    expect_far(&rt, rt.alloc(), &ridge, &[observer(0, 0, 2)], 0, "111");
    expect_far(&rt, rt.alloc(), &ridge, &[CORNER], 2, "111");
    expect_far(&rt, rt.alloc(), &ridge, &[CORNER], 1, "110");
}

#[test]
fn no_observers(rt: HostRuntime) {
    let gap = land(&rt, rt.alloc(), 3, 1, "0 -9999 10");
    expect_far(&rt, rt.alloc(), &gap, &[], 0, "0.0");
}

/// Heights, eyes and targets at their limits.
#[test]
fn greatest_numbers(rt: HostRuntime) {
    let heights =
        "-1000000000000000 1000000000000000 -1000000000000000\n1000000000000000 -1000000000000000 1000000000000000";
    let peaks = land(&rt, rt.alloc(), 3, 2, heights);
    let high = [observer(0, 0, 1_000_000), observer(1, 2, 1_000_000)];
    expect_far(&rt, rt.alloc(), &peaks, &high, 1_000_000, "221 222");
    let level = "-1000000000000000 0 1000000000000000";
    let level = land(&rt, rt.alloc(), 3, 1, level);
    expect_far(&rt, rt.alloc(), &level, &[CORNER], 0, "111");
    let higher = "-1000000000000000 1 1000000000000000";
    let higher = land(&rt, rt.alloc(), 3, 1, higher);
    expect_far(&rt, rt.alloc(), &higher, &[CORNER], 0, "110");
}

const HEIGHTS: &str = "-5 -8 -9999 2 7 -7 -7 8 -2\n\
    -2 9 9 -8 -8 -5 -5 9 -4\n\
    9 2 -7 -3 8 1 5 -2 -2\n\
    0 1 0 -7 3 1 6 -7 9\n\
    1 2 9 -7 -1 -7 -9999 9 5\n\
    3 2 -9999 -4 6 -9999 -5 0 6\n\
    5 5 4 -1 2 3 -5 -5 -2";

/// The expected values come from a separate program, not from this code.
#[test]
fn rough_land(rt: HostRuntime) {
    let rough = land(&rt, rt.alloc(), 9, 7, HEIGHTS);
    let observers = [
        observer(3, 4, 2),
        observer(0, 8, 6),
        observer(6, 1, 1),
        observer(5, 7, 0),
    ];
    let near = "00.100021 022000021 221132201 222133402 113232.32 12.23.322 222123222";
    expect_values(&rt, rt.alloc(), &rough, &observers, 1, 6, near);
    let far = "00.100031 033000031 331132301 222133403 113232.42 12.23.323 222124322";
    expect_far(&rt, rt.alloc(), &rough, &observers, 1, far);
}

const ROUGH_COLS: u32 = 53;

const ROUGH_ROWS: u32 = 37;

/// Returns pseudorandom heights from 0 to 39; about one cell in 23 is NODATA.
fn rough_heights(rt: &impl Abort, alloc: Global, seed: u32) -> String {
    let mut text = String::new(alloc);
    let mut state = seed;
    for _ in 0..ROUGH_COLS * ROUGH_ROWS {
        state = state.wrapping_mul(1_664_525).wrapping_add(1_013_904_223);
        let word = state / 65_536;
        let height = if word % 23 == 0 {
            -9_999
        } else {
            i64::from(word % 40)
        };
        let next = format!(in alloc; "{height} ").expect(rt, "a word");
        text.push_str(next.as_str()).expect(rt, "a text");
    }
    text
}

/// Appends for each data cell of row `row` 1 if `sees` is true, else 0; for other cells NODATA.
fn push_plain_row(
    rt: &impl Abort,
    land: &Grid,
    observer: &Observer,
    row: u32,
    target_height: u32,
    values: &mut Vec<Count>,
) {
    assert!(rt; row < land.rows());
    assert!(rt; observer.row < land.rows());
    assert!(rt; observer.col < land.cols());
    assert!(rt; observer.eye <= 1_000_000);
    assert!(rt; target_height <= 1_000_000);
    for col in 0..land.cols() {
        let place = Place { row, col };
        let value = if land.at(place).is_none() {
            Count::none()
        } else {
            Count::of(sees(land, observer, place, target_height, LONGEST_RADIUS) as u32)
        };
        values.push(value).expect(rt, "a value");
    }
}

/// Asserts that at each data cell one observer's viewshed is 1 if `sees` is true, else 0.
fn expect_plain<R: Abort + Threads + Wait + Sync>(
    rt: &R,
    alloc: Global,
    land: &Grid,
    observer: Observer,
    target_height: u32,
) {
    let mut plain = Vec::new(alloc);
    for row in 0..land.rows() {
        push_plain_row(rt, land, &observer, row, target_height, &mut plain);
    }
    let tiling = cut(rt, land, 20);
    let seen = viewshed(
        rt,
        alloc,
        land,
        &[observer],
        target_height,
        LONGEST_RADIUS,
        &tiling,
        2,
        &NoGate,
    );
    let values = seen.expect(rt, "a viewshed");
    assert!(rt;
        values.as_slice() == plain.as_slice(),
        "{observer:?} {target_height}"
    );
}

#[test]
fn as_by_the_plain_rule(rt: HostRuntime) {
    for seed in [1, 2, 3] {
        let heights = rough_heights(&rt, rt.alloc(), seed);
        let rough = land(&rt, rt.alloc(), ROUGH_COLS, ROUGH_ROWS, heights.as_str());
        for row in 0..ROUGH_ROWS {
            let place = Place { row, col: row };
            if row < rough.rows() && row < rough.cols() && rough.at(place).is_some() {
                expect_plain(
                    &rt,
                    rt.alloc(),
                    &rough,
                    observer(row, row, row * row),
                    row % 8,
                );
            }
        }
    }
}

fn refusal<R: Abort + Threads + Wait + Sync>(
    rt: &R,
    alloc: Global,
    observers: &[Observer],
    target_height: u32,
    radius: u32,
    workers: u32,
) -> Option<SightFault> {
    let gap = land(rt, alloc, 3, 2, "0 1 2\n3 -9999 5");
    let tiling = cut(rt, &gap, 2);
    let seen = viewshed(
        rt,
        alloc,
        &gap,
        observers,
        target_height,
        radius,
        &tiling,
        workers,
        &NoGate,
    );
    seen.err()
}

#[test]
fn refused_observers(rt: HostRuntime) {
    for (second, fault) in [
        (observer(2, 0, 0), SightFault::Outside(1)),
        (observer(0, 3, 0), SightFault::Outside(1)),
        (observer(1, 1, 0), SightFault::OnNodata(1)),
        (observer(0, 0, 1_000_001), SightFault::BadEye(Some(1))),
        (observer(9, 9, 1_000_001), SightFault::BadEye(Some(1))),
    ] {
        let refused = refusal(&rt, rt.alloc(), &[CORNER, second], 0, LONGEST_RADIUS, 1);
        assert_eq!(rt; refused, Some(fault), "{second:?}");
    }
    let first = [observer(1, 1, 0), observer(9, 9, 0)];
    let refused = refusal(&rt, rt.alloc(), &first, 0, LONGEST_RADIUS, 1);
    assert_eq!(rt; refused, Some(SightFault::OnNodata(0)));
}

/// A target height above the limit is refused for 1 to 1,024 observers.
#[test]
fn target_too_high_for_any_number(rt: HostRuntime) {
    let bowl = land(&rt, rt.alloc(), 3, 3, "9 9 9\n9 1 9\n9 9 9");
    let tiling = cut(&rt, &bowl, 256);
    let observers = [CORNER; 1024];
    for count in 1..1025 {
        let seen = viewshed(
            &rt,
            rt.alloc(),
            &bowl,
            &observers[..count],
            1_000_001,
            LONGEST_RADIUS,
            &tiling,
            1,
            &NoGate,
        );
        assert_eq!(rt;
            seen.err(),
            Some(SightFault::BadEye(None)),
            "{count} observers"
        );
    }
}

#[test]
fn refusals_in_order(rt: HostRuntime) {
    let bad = observer(9, 9, 1_000_001);
    let outside = observer(9, 9, 0);
    let many = [bad; 1025];
    let most = [bad; 1024];
    let refused = refusal(&rt, rt.alloc(), &many, 1_000_001, 0, 0);
    assert_eq!(rt; refused, Some(SightFault::TooManyObservers));
    let refused = refusal(&rt, rt.alloc(), &most, 1_000_001, 0, 0);
    assert_eq!(rt; refused, Some(SightFault::BadEye(None)));
    let refused = refusal(&rt, rt.alloc(), &most, 1_000_000, 0, 0);
    assert_eq!(rt; refused, Some(SightFault::BadEye(Some(0))));
    for radius in [0, 8_193] {
        let refused = refusal(&rt, rt.alloc(), &[outside], 0, radius, 0);
        assert_eq!(rt; refused, Some(SightFault::BadRadius), "{radius}");
    }
    let refused = refusal(&rt, rt.alloc(), &[outside], 0, 1, 0);
    assert_eq!(rt; refused, Some(SightFault::Outside(0)));
    for workers in [0, 65] {
        let refused = refusal(&rt, rt.alloc(), &[CORNER], 0, 1, workers);
        assert_eq!(rt;
            refused,
            Some(SightFault::Jobs(JobFault::BadWorkers)),
            "{workers}"
        );
    }
    assert_eq!(rt; refusal(&rt, rt.alloc(), &[CORNER; 1024], 0, 1, 64), None);
}
