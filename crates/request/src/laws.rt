//! A command line has at most one request, and is accepted if it has one. Eleven examples mean
//! what their theorems say. The functions have no code; their contracts are the theorems.
ghost use Rattle.request.specs.Laws.{BasinsOfSinks, CatchmentsOfAGauge, FillAlone, HelpOfView, MapsInOrder, NoSideOfZero, NoTargetOfARise, RiseWithRadius, SinkOfAnOption, VersionAlone, ViewWithRadius, RequestsAreAccepted, RequestsAreOne};

/// Proves that requests of one command line have the same map, options and sinks.
pub fn requests_are_one()
    ensures { RequestsAreOne }
{}

/// Proves that words with a request neither ask for help nor are refused.
pub fn requests_are_accepted()
    ensures { RequestsAreAccepted }
{}

/// Proves that `relief fill` requests filled heights with the default options.
#[tactic(auto, using(crate::proofs::Requests::fill_alone))]
pub fn fill_alone()
    ensures { FillAlone }
{}

/// Proves that `relief basins 1,2 0,3` requests basins with these two sinks.
#[tactic(auto, using(crate::proofs::Requests::basins_of_sinks))]
pub fn basins_of_sinks()
    ensures { BasinsOfSinks }
{}

/// Proves that `relief basins --sink 0,3 1,2` requests basins with sinks 1,2 and 0,3.
#[tactic(auto, using(crate::proofs::Requests::sink_of_an_option))]
pub fn sink_of_an_option()
    ensures { SinkOfAnOption }
{}

/// Proves for an example that `--sink` names sinks and a positional word a gauge.
/// The words are `relief catchments --progress --sink 1,2 --sink 0,3 4,5`.
#[tactic(auto, using(crate::proofs::Requests::catchments_of_a_gauge))]
pub fn catchments_of_a_gauge()
    ensures { CatchmentsOfAGauge }
{}

/// Proves that `relief maps --gauge 4,5 flow catchments` requests these maps in this order.
#[tactic(auto, using(crate::proofs::Requests::maps_in_order))]
pub fn maps_in_order()
    ensures { MapsInOrder }
{}

/// Proves that `relief view --radius 5 1,2,3` requests one observer and radius 5.
#[tactic(auto, using(crate::proofs::Requests::view_with_radius))]
pub fn view_with_radius()
    ensures { ViewWithRadius }
{}

/// Proves that `relief rise --radius 5 1,2,3` requests one observer and radius 5.
#[tactic(auto, using(crate::proofs::Requests::rise_with_radius))]
pub fn rise_with_radius()
    ensures { RiseWithRadius }
{}

/// Proves that `relief rise --target 1 1,2,3` is refused.
#[tactic(auto, using(crate::proofs::Requests::no_target_of_a_rise))]
pub fn no_target_of_a_rise()
    ensures { NoTargetOfARise }
{}

/// Proves that `relief fill --tile 0` is refused.
#[tactic(auto, using(crate::proofs::Requests::no_side_of_zero))]
pub fn no_side_of_zero()
    ensures { NoSideOfZero }
{}

/// Proves that `relief view --help` asks for help.
#[tactic(auto, using(crate::proofs::Requests::help_of_view))]
pub fn help_of_view()
    ensures { HelpOfView }
{}

/// Proves that `relief --version` asks for the version, which counts as help.
#[tactic(auto, using(crate::proofs::Requests::version_alone))]
pub fn version_alone()
    ensures { VersionAlone }
{}
