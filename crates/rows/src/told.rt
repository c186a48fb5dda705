//! The texts of what a network and the workers refuse.
use crate::compared::check_text;
use occ_net::NetFault;
use occ_run::RunFault;
use occ_term::Ending;

static RUN_FAULTS: [(RunFault, &str); 4] = [
    (RunFault::Foreign, "refused 80 Foreign"),
    (RunFault::BadWorkers, "refused 81 BadWorkers"),
    (RunFault::Spawn, "refused 88 Spawn"),
    (RunFault::Memory, "refused 89 Memory"),
];

#[test]
fn faults_of_runs_are_told(rt: HostRuntime) {
    for (fault, wanted) in &RUN_FAULTS {
        let text = fault.to_string(rt.alloc()).expect(&rt, "memory");
        check_text(&rt, *wanted, text.as_str(), *wanted);
    }
}

static NET_FAULTS: [(NetFault, &str); 3] = [
    (
        NetFault::Stale {
            number: 1,
            turns: 2,
        },
        "refused 70 Stale",
    ),
    (
        NetFault::Over {
            ending: Ending::Ended,
        },
        "refused 71 Over",
    ),
    (NetFault::Memory, "refused 79 Memory"),
];

#[test]
fn faults_of_networks_are_told(rt: HostRuntime) {
    for (fault, wanted) in &NET_FAULTS {
        let text = fault.to_string(rt.alloc()).expect(&rt, "memory");
        check_text(&rt, *wanted, text.as_str(), *wanted);
    }
}
