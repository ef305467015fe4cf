//! Makes several drainage maps from one filling and one search for directions.
//!
//! `make_several` makes each requested map once, `write_several` writes them in their order.
ghost use Rattle.std.specs.Prelude.{◌≡◌, ◌<◌, ◌-◌, ◌^◌, None, true, false, IfOk, IfErr, Contains};
ghost use Rattle.std.specs.List.{flat_map};
ghost use Rattle.tiles.specs.Cutting.{Cuts};
ghost use Rattle.ascii_grid.specs.Device.{Writes};
ghost use Rattle.drainage.specs.Drained.{directed_of};
ghost use Rattle.flow.specs.Catchments.{gauges_fault};
ghost use Rattle.request.specs.declared.map.DrainageMap.{DrainageMap};
ghost use Rattle.relief.specs.MadeMap.{AreFrom, AreMade, FitHeader, FitsIf, HasCounts, IsOfJobs, counts_text_if, header_grid, layer_text};

use crate::fault::RunFault;
use ascii_grid::{Counted, WriteFailed};
use drain::directions;
use drainage::{Directions, Filled};
use fill::filled;
use flow::{accumulation, basins, catchments};
use request::{DrainageMap, Options};
use std::alloc::Global;
use std::io::Write;
use std::sync::Wait;
use std::thread::Threads;
use terrain::{Count, Frame, Grid, Place};
use text_jobs::{write_codes, write_framed_counts, write_heights};
use tile_jobs::{Gate, JobFault, NoGate};
use tile_maps::Runner;
use tiles::Tiling;

/// The header that the maps share, with the filled heights if they are requested.
#[derive(Drop)]
pub(crate) enum MapHeader {
    WithHeights(Grid),
    Alone(Frame),
}

impl MapHeader {
    fn new(filled: Filled, keeps_heights: bool) -> Self
        ensures grid { header_grid result ≡ filled }
        ensures kept { keeps_heights ≡ true → result ≡ MapHeader.WithHeights filled }
    {
        let grid = filled.into_grid();
        if keeps_heights {
            MapHeader::WithHeights(grid)
        } else {
            MapHeader::Alone(grid.into_frame())
        }
    }

    fn frame(&self) -> &Frame
        ensures { result.now ≡ header_grid self.now }
    {
        match self {
            MapHeader::WithHeights(grid) => grid.frame(),
            MapHeader::Alone(frame) => frame,
        }
    }
}

/// Drainage maps of one run, each if it was requested.
#[derive(Drop)]
pub(crate) struct MadeMaps {
    header: MapHeader,
    directions: Option<Directions>,
    accumulation: Option<Vec<Count>>,
    basins: Option<Vec<Count>>,
    catchments: Option<Vec<Count>>,
}

/// Returns whether a map other than filled heights is requested.
fn needs_directions(maps: &[DrainageMap]) -> bool
    ensures { result ≡ false → (map : DrainageMap) → Contains maps.now map →
        map ≡ DrainageMap.Fill }
{
    DrainageMap::Flow.is_one_of(maps)
        || DrainageMap::Accumulate.is_one_of(maps)
        || DrainageMap::Basins.is_one_of(maps)
        || DrainageMap::Catchments.is_one_of(maps)
}

/// Makes accumulation, basins or catchments if `maps` request it.
fn make_counts<H: Threads + Wait + Sync, G: Gate + Sync>(
    runner: &Runner<H, G>,
    maps: &[DrainageMap],
    gauges: &[Place],
    map: DrainageMap,
    directions: &Directions,
    tiling: &Tiling,
) -> Result<Option<Vec<Count>>, RunFault>
    requires cuts { Cuts tiling.now directions.now.terrain }
    requires sound { gauges_fault directions.now.terrain gauges.now ≡ None }
    ensures made { IfOk result (λ counts. Contains maps.now map →
        HasCounts (directed_of directions.now) gauges.now map counts) }
    ensures size { IfOk result (FitsIf directions.now.terrain) }
    ensures fault { IfErr result (IsOfJobs runner.now.workers) }
{
    let Runner {
        rt,
        alloc,
        workers,
        gate,
    } = *runner;
    if !map.is_one_of(maps) {
        return Ok(None);
    }
    match map {
        DrainageMap::Fill | DrainageMap::Flow => Ok(None),
        DrainageMap::Accumulate => {
            let counts = accumulation(rt, alloc, directions, tiling, workers, gate)?;
            Ok(Some(counts))
        }
        DrainageMap::Basins => {
            let numbers = basins(rt, alloc, directions, tiling, workers, gate)?;
            Ok(Some(numbers))
        }
        DrainageMap::Catchments => {
            let numbers = catchments(rt, alloc, directions, gauges, tiling, workers, gate)?;
            Ok(Some(numbers))
        }
    }
}

/// Makes the requested maps from their header and directions.
fn make_from_directions<H: Threads + Wait + Sync, G: Gate + Sync>(
    runner: &Runner<H, G>,
    maps: &[DrainageMap],
    gauges: &[Place],
    header: MapHeader,
    directions: Directions,
    tiling: &Tiling,
) -> Result<MadeMaps, RunFault>
    requires cuts { Cuts tiling.now directions.terrain }
    requires sound { gauges_fault directions.terrain gauges.now ≡ None }
    requires same { directions.terrain ≡ (header_grid header).terrain }
    ensures made { IfOk result (AreFrom header directions gauges.now maps.now) }
    ensures size { IfOk result FitHeader }
    ensures fault { IfErr result (IsOfJobs runner.now.workers) }
{
    let accumulation = make_counts(
        runner,
        maps,
        gauges,
        DrainageMap::Accumulate,
        &directions,
        tiling,
    )?;
    let catchments = make_counts(
        runner,
        maps,
        gauges,
        DrainageMap::Catchments,
        &directions,
        tiling,
    )?;
    let basins = make_counts(
        runner,
        maps,
        gauges,
        DrainageMap::Basins,
        &directions,
        tiling,
    )?;
    let keeps_directions = DrainageMap::Flow.is_one_of(maps);
    Ok(MadeMaps {
        header,
        directions: keeps_directions.then_some(directions),
        accumulation,
        basins,
        catchments,
    })
}

/// Fills a grid, finds its directions if a map needs them, and makes each requested map once.
/// Frees what no later map needs.
pub(crate) fn make_several<H: Threads + Wait + Sync, G: Gate + Sync>(
    runner: &Runner<H, G>,
    maps: &[DrainageMap],
    gauges: &[Place],
    grid: Grid,
    tiling: &Tiling,
) -> Result<MadeMaps, RunFault>
    requires cuts { Cuts tiling.now grid.terrain }
    requires sound { gauges_fault grid.terrain gauges.now ≡ None }
    ensures made { IfOk result (AreMade grid gauges.now maps.now) }
    ensures size { IfOk result FitHeader }
    ensures fault { IfErr result (IsOfJobs runner.now.workers) }
{
    let Runner {
        rt,
        alloc,
        workers,
        gate,
    } = *runner;
    let filled = filled(rt, alloc, &grid, tiling, workers, gate)?;
    drop(grid);
    if !needs_directions(maps) {
        return Ok(MadeMaps {
            header: MapHeader::WithHeights(filled.into_grid()),
            directions: None,
            accumulation: None,
            basins: None,
            catchments: None,
        });
    }
    let directions = directions(rt, alloc, &filled, tiling, workers, gate)?;
    let header = MapHeader::new(filled, DrainageMap::Fill.is_one_of(maps));
    make_from_directions(runner, maps, gauges, header, directions, tiling)
}

/// Writes a list of counts with this header, if there is one.
fn write_counts_if<H: Threads + Wait + Sync, W: Write>(
    runner: &Runner<H, NoGate>,
    frame: &Frame,
    counts: &Option<Vec<Count>>,
    writer: &mut Counted<W>,
) -> Result<(), WriteFailed>
    requires few { writer.old.failures < 2 ^ 64 - 1 }
    requires size { FitsIf frame.now.terrain counts.now }
    ensures { Writes W.contents writer.old writer.new (counts_text_if frame.now counts.now) result }
{
    match counts {
        Some(counts) => write_framed_counts(runner, frame, counts, writer),
        None => Ok(()),
    }
}

/// Writes one of the maps, if it was made.
fn write_one<H: Threads + Wait + Sync, W: Write>(
    runner: &Runner<H, NoGate>,
    map: DrainageMap,
    made: &MadeMaps,
    writer: &mut Counted<W>,
) -> Result<(), WriteFailed>
    requires few { writer.old.failures < 2 ^ 64 - 1 }
    requires size { FitHeader made.now }
    ensures { Writes W.contents writer.old writer.new (layer_text made.now map) result }
{
    let frame = made.header.frame();
    match map {
        DrainageMap::Fill => match &made.header {
            MapHeader::WithHeights(grid) => write_heights(runner, grid, writer),
            MapHeader::Alone(_) => Ok(()),
        },
        DrainageMap::Flow => match &made.directions {
            Some(directions) => write_codes(runner, frame, directions.codes(), writer),
            None => Ok(()),
        },
        DrainageMap::Accumulate => write_counts_if(runner, frame, &made.accumulation, writer),
        DrainageMap::Basins => write_counts_if(runner, frame, &made.basins, writer),
        DrainageMap::Catchments => write_counts_if(runner, frame, &made.catchments, writer),
    }
}

/// Writes maps one after the other. Allocates nothing after the first byte written.
pub(crate) fn write_several<H: Threads + Wait + Sync, W: Write>(
    runner: &Runner<H, NoGate>,
    maps: &[DrainageMap],
    made: &MadeMaps,
    writer: &mut Counted<W>,
) -> Result<(), WriteFailed>
    requires few { writer.old.failures < 2 ^ 64 - 1 }
    requires size { FitHeader made.now }
    ensures { Writes W.contents writer.old writer.new (flat_map (layer_text made.now) maps.now)
        result }
{
    for (index, map) in maps.iter().enumerate() {
        let runner = Runner {
            rt: runner.rt,
            alloc: runner.alloc,
            // Several workers take memory and threads, which is allowed before the first byte only.
            workers: if index == 0 { runner.workers } else { 1 },
            gate: runner.gate,
        };
        write_one(&runner, *map, made, writer)?;
    }
    Ok(())
}
