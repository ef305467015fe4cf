//! Finds each tile's flow, and follows exits over rims to inflows and outlets.
ghost use Rattle.std.specs.Prelude.{◌≡◌, ◌<◌, IfOk};
ghost use Rattle.drainage.specs.Drained.{AllFlowEnds, directed_of};
ghost use Rattle.flow.specs.TileFlow.{IsTileFlow, AreTileFlows};
ghost use Rattle.tiles.specs.Cutting.{Cuts, tile_count};

use crate::ground::{cut, land};
use crate::stages::{directions_of, filled_grid};
use drain::Directions;
use flow::{RimLinks, TileFlow, tile_flow};
use std::alloc::Global;
use std::process::Abort;
use terrain::{NoMemory, Place};
use tiles::Tiling;

pub(crate) fn flow_of(
    alloc: Global,
    tiling: &Tiling,
    ways: &Directions,
    tile: u32,
) -> Result<TileFlow, NoMemory>
    requires cuts { Cuts tiling.now ways.now.terrain }
    requires ends { AllFlowEnds (directed_of ways.now) }
    requires tile { tile < tile_count tiling.now }
    ensures { IfOk result (λ f. IsTileFlow (directed_of ways.now) tiling.now tile f) }
{
    tile_flow(alloc, &tiling.view(ways.codes(), tile))
}

pub(crate) fn flows_of(
    alloc: Global,
    tiling: &Tiling,
    ways: &Directions,
) -> Result<Vec<TileFlow>, NoMemory>
    requires cuts { Cuts tiling.now ways.now.terrain }
    requires ends { AllFlowEnds (directed_of ways.now) }
    ensures { IfOk result (λ v. AreTileFlows (directed_of ways.now) tiling.now v.items) }
{
    let mut flows = Vec::new(alloc);
    for tile in 0..tiling.tiles() {
        let flow = flow_of(alloc, tiling, ways, tile)?;
        if flows.push(flow).is_err() {
            return Err(NoMemory);
        }
    }
    Ok(flows)
}

fn links_of<'a>(
    alloc: Global,
    tiling: &Tiling,
    ways: &Directions,
    flows: &'a [TileFlow],
) -> Result<RimLinks<'a>, NoMemory>
    requires ends { AllFlowEnds (directed_of ways.now) }
    requires flows { AreTileFlows (directed_of ways.now) tiling.now flows.now }
    ensures { IfOk result (λ l. l.cutting ≡ tiling.now) }
{
    RimLinks::join(alloc, tiling, flows)
}

fn expect_tile_flows(rt: &impl Abort, flows: &[TileFlow]) {
    assert_eq!(rt; flows.len(), 3);
    let exit = Place { row: 0, col: 1 };
    assert_eq!(rt; flows[0].exit(Place { row: 1, col: 0 }), Some(exit));
    assert_eq!(rt; flows[0].through(exit), Some(2));
    assert_eq!(rt; flows[0].through(Place { row: 0, col: 2 }), None);
    assert_eq!(rt; flows[1].through(Place { row: 0, col: 3 }), Some(3));
    assert_eq!(rt; flows[1].exit(exit), None);
}

/// Returns the inflow at `place` and, if `place` is an exit, the outlet of its flow path.
fn link_at(
    rt: &impl Abort,
    tiling: &Tiling,
    links: &RimLinks<'_>,
    place: Place,
) -> (u32, Option<Place>)
    requires { links.now.cutting ≡ tiling.now }
{
    assert!(rt; place.row < tiling.rows());
    assert!(rt; place.col < tiling.cols());
    (links.inflow(place), links.outlet(place))
}

/// Asserts the inflow and the outlet that [`link_at`] gives at two places.
/// Links the flows once and drops the result, then again.
/// If `rt try --fail-alloc` refuses memory to the first call, the second succeeds.
pub(crate) fn expect_links(
    rt: &impl Abort,
    alloc: Global,
    tiling: &Tiling,
    ways: &Directions,
    flows: &[TileFlow],
    wanted: [(Place, (u32, Option<Place>)); 2],
)
    requires ends { AllFlowEnds (directed_of ways.now) }
    requires flows { AreTileFlows (directed_of ways.now) tiling.now flows.now }
{
    let is_refused = links_of(alloc, tiling, ways, flows).is_err();
    let attempt = if is_refused { "once more" } else { "links" };
    let links = links_of(alloc, tiling, ways, flows).expect(rt, attempt);
    for (place, link) in wanted {
        assert_eq!(rt; link_at(rt, tiling, &links, place), link);
    }
}

#[test]
fn slope_in_tiles_and_joined(rt: HostRuntime) {
    let alloc = rt.alloc();
    let slope = land(&rt, alloc, 6, 2, "6 5 4 3 2 1\n7 7 7 7 7 7");
    let tiling = cut(&rt, &slope, 2);
    let level = filled_grid(&rt, alloc, &slope, &tiling, 1).expect(&rt, "levels");
    let ways = directions_of(&rt, alloc, &level, &tiling, 1).expect(&rt, "ways");
    let flows = flows_of(alloc, &tiling, &ways).expect(&rt, "flows");
    expect_tile_flows(&rt, &flows);
    let beyond = Place { row: 0, col: 2 };
    let exit = Place { row: 0, col: 1 };
    let outlet = Place { row: 0, col: 5 };
    let wanted = [(beyond, (4, None)), (exit, (0, Some(outlet)))];
    expect_links(&rt, alloc, &tiling, &ways, &flows, wanted);
}
