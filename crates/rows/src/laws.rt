ghost use Rattle.std.specs.Prelude.{nat_eq};
ghost use Rattle.table.specs.Law.{Stands};
ghost use Rattle.rows.specs.Keys.{same_test, same_lane, running_key, running_rank, waiting_key, script_key, binary_key, process_key, lane_key, unranked};

use crate::{KnownBinary, NamedLane, NamedProcess, RunningScript, RunningTest, WaitingTest};

// What every table of each kind keeps, where the keys that are equal are those of equal numbers.
pub fn laws_stand()
    ensures running_tests { Stands same_test running_key running_rank }
    ensures waiting_tests { Stands same_test waiting_key unranked }
    ensures running_scripts { Stands nat_eq script_key script_key }
    ensures known_binaries { Stands nat_eq binary_key unranked }
    ensures named_processes { Stands nat_eq process_key unranked }
    ensures named_lanes { Stands same_lane lane_key unranked }
{
    table::laws_stand::<RunningTest>();
    table::laws_stand::<WaitingTest>();
    table::laws_stand::<RunningScript>();
    table::laws_stand::<KnownBinary>();
    table::laws_stand::<NamedProcess>();
    table::laws_stand::<NamedLane>();
}
