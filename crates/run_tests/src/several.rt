//! Several maps of one run are the maps of single runs, one after the other.
use relief::{Counted, DrainageMap, Map, Options, Place, run};
use std::alloc::Global;
use std::process::Abort;
use std::sync::Wait;
use std::test::Fail;
use std::thread::Threads;

/// A slope with two pits and a void.
const PITS: &[u8] = b"ncols 7\nnrows 5\nxllcorner 0\nyllcorner 0\ncellsize 1
9 9 9 9 9 9 8
9 1 9 9 9 7 7
9 9 9 2 2 9 6
9 9 9 2 9 9 -9999
9 9 8 9 9 5 4
";

/// The lowest cell of a pit, which is a sink.
const SINK: Place = Place { row: 1, col: 1 };

const GAUGES: [Place; 2] = [Place { row: 2, col: 4 }, Place { row: 1, col: 5 }];

const SIDES: [u32; 4] = [1, 2, 3, 256];

/// Numbers of workers. With several, a run writes its first map by jobs.
const WORKERS: [u32; 3] = [1, 2, 8];

/// Appends to `out` what a run with [`SINK`] writes.
fn append_maps(
    rt: &(impl Abort + Threads + Wait + Sync),
    alloc: Global,
    map: Map,
    side: u32,
    workers: u32,
    out: &mut Vec<u8>,
) -> Result<(), Fail> {
    let options = Options::new(map, side, workers, 0).ok_or("options")?;
    let sinks = [SINK].to_vec(alloc)?;
    let options = options.with_sinks(sinks).ok().ok_or("sinks")?;
    let mut reader = Counted::new(PITS);
    let mut writer = Counted::new(out);
    let result = run(rt, alloc, &options, &mut reader, &mut writer);
    assert_eq!(rt; result, Ok(()));
    Ok(())
}

/// Returns the request of one map alone.
fn single_map(alloc: Global, map: DrainageMap) -> Result<Map, Fail> {
    match map {
        DrainageMap::Fill => Ok(Map::Fill),
        DrainageMap::Flow => Ok(Map::Flow),
        DrainageMap::Accumulate => Ok(Map::Accumulate),
        DrainageMap::Basins => Ok(Map::Basins),
        DrainageMap::Catchments => {
            let gauges = GAUGES.to_vec(alloc)?;
            Ok(Map::Catchments { gauges })
        }
    }
}

/// Asserts that these maps of one run are those of single runs, in the same order.
fn expect_single_maps(
    rt: &(impl Abort + Threads + Wait + Sync),
    alloc: Global,
    maps: &[DrainageMap],
    side: u32,
    workers: u32,
) -> Result<(), Fail> {
    let mut wanted = Vec::new(alloc);
    for map in maps {
        append_maps(
            rt,
            alloc,
            single_map(alloc, *map)?,
            side,
            workers,
            &mut wanted,
        )?;
    }
    let several = Map::Several {
        maps: maps.to_vec(alloc)?,
        gauges: GAUGES.to_vec(alloc)?,
    };
    let mut out = Vec::new(alloc);
    append_maps(rt, alloc, several, side, workers, &mut out)?;
    assert_eq!(rt; out.as_slice(), wanted.as_slice(), "{maps:?}, side {side}");
    Ok(())
}

/// For every tile side, number of workers and order, several maps are the single maps.
#[test]
fn several_maps_are_the_single_maps(rt: HostRuntime) -> Result<(), Fail> {
    let lists = [
        [DrainageMap::Fill].as_slice(),
        [DrainageMap::Basins].as_slice(),
        [DrainageMap::Flow, DrainageMap::Fill].as_slice(),
        [DrainageMap::Accumulate, DrainageMap::Catchments].as_slice(),
        [
            DrainageMap::Catchments,
            DrainageMap::Basins,
            DrainageMap::Accumulate,
            DrainageMap::Flow,
            DrainageMap::Fill,
        ]
        .as_slice(),
        [
            DrainageMap::Fill,
            DrainageMap::Flow,
            DrainageMap::Accumulate,
            DrainageMap::Basins,
            DrainageMap::Catchments,
        ]
        .as_slice(),
    ];
    for side in SIDES {
        for workers in WORKERS {
            for maps in lists {
                expect_single_maps(&rt, rt.alloc(), maps, side, workers)?;
            }
        }
    }
    Ok(())
}
