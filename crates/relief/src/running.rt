//! [`run`] reads a grid and writes a map or several; [`run_gated`] also calls a [`Gate`].
//!
//! Both read the whole grid, cut it into tiles, and write only when each map is complete.
ghost use Rattle.std.specs.Prelude.{◌<◌, ◌-◌, ◌^◌};
ghost use Rattle.ascii_grid.specs.Device.{Writes};
ghost use Rattle.relief.specs.MadeMap.{made_text, FitsGrid};
ghost use Rattle.relief.specs.Runs.{Runs};

use crate::fault::RunFault;
use crate::making::{MadeMap, make_map, prepare};
use crate::several::write_several;
use ascii_grid::{Counted, WriteFailed, read_grid};
use request::Options;
use std::alloc::Global;
use std::io::{Read, Write};
use std::sync::Wait;
use std::thread::Threads;
use text_jobs::{write_codes, write_framed_counts, write_heights};
use tile_jobs::{Gate, NoGate};
use tile_maps::Runner;

/// Reads a grid, adds the requested sinks, and writes the requested map.
/// Several maps are written one after the other, in the order requested.
///
/// Tile side, number of workers and schedule do not change the map. At most 2^29 + 1 bytes are
/// read, in pieces of at most 4,096. Nothing is written before each map is complete, and nothing is
/// allocated after the first byte written.
///
/// The contract does not model the bytes of standard input and output. For these two streams it
/// gives only the counts of failures and of bytes moved, and that a fault other than a failed write
/// leaves `writer` unchanged.
///
/// # Errors
///
/// The first of these:
///
/// - a fault of the text, refused memory for its cells, or a failed read
/// - too many tiles
/// - a fault of the sinks
/// - a fault of the gauges, or of the observers, target height or radius
/// - other refused memory, or a refused thread
/// - a failed write
///
/// # Examples
///
/// ```ignore
/// let options = Options::new(Map::Fill, 256, 1, 0).ok_or("options")?;
/// let mut reader = Counted::new(rt.stdin());
/// let mut writer = Counted::new(rt.stdout());
/// let result = run(&rt, rt.alloc(), &options, &mut reader, &mut writer);
/// ```
pub fn run<H: Threads + Wait + Sync, R: Read, W: Write>(
    rt: &H,
    alloc: Global,
    options: &Options,
    reader: &mut Counted<R>,
    writer: &mut Counted<W>,
) -> Result<(), RunFault>
    requires reader { reader.old.failures < 2 ^ 64 - 1 }
    requires writer { writer.old.failures < 2 ^ 64 - 1 }
    ensures { Runs R.remaining W.contents options.now reader.old reader.new writer.old writer.new
        result }
{
    run_gated(rt, alloc, options, reader, writer, &NoGate)
}

/// Runs as [`run`] does, and calls a [`Gate`] at each stage and job of the map.
///
/// # Errors
///
/// Those of [`run`].
pub fn run_gated<H: Threads + Wait + Sync, R: Read, W: Write, G: Gate + Sync>(
    rt: &H,
    alloc: Global,
    options: &Options,
    reader: &mut Counted<R>,
    writer: &mut Counted<W>,
    gate: &G,
) -> Result<(), RunFault>
    requires reader { reader.old.failures < 2 ^ 64 - 1 }
    requires writer { writer.old.failures < 2 ^ 64 - 1 }
    ensures { Runs R.remaining W.contents options.now reader.old reader.new writer.old writer.new
        result }
{
    let grid = read_grid(alloc, options.scale(), reader)?;
    let (grid, tiling) = prepare(alloc, options, grid)?;
    let made = make_map(rt, alloc, options, grid, &tiling, gate)?;
    let runner = Runner {
        rt,
        alloc,
        workers: options.workers(),
        gate: &NoGate,
    };
    write_map(&runner, &made, writer)?;
    Ok(())
}

/// Writes a map with its header, or several. Allocates nothing after the first byte written.
fn write_map<H: Threads + Wait + Sync, W: Write>(
    runner: &Runner<H, NoGate>,
    made: &MadeMap,
    writer: &mut Counted<W>,
) -> Result<(), WriteFailed>
    requires few { writer.old.failures < 2 ^ 64 - 1 }
    requires size { FitsGrid made.now }
    ensures { Writes W.contents writer.old writer.new (made_text made.now) result }
{
    match made {
        MadeMap::Heights(grid) => write_heights(runner, grid, writer),
        MadeMap::Codes(frame, directions) => write_codes(runner, frame, directions.codes(), writer),
        MadeMap::Counts(frame, values) => write_framed_counts(runner, frame, values, writer),
        MadeMap::Several(maps, made) => write_several(runner, maps, made, writer),
    }
}
