//! What holds of all checkpoints.
//!
//! These functions do nothing when they run: the contract of each is the law.
ghost use Rattle.std.specs.Prelude.{List, ℕ};
ghost use Rattle.mm_model.specs.Image.{Image};
ghost use Rattle.mm_checkpoint.specs.FileOrder.{PartsComeInOrder, FaultsComeInOrder};
ghost use Rattle.mm_checkpoint.specs.Laws.{CheckpointsHaveNoFault, CheckpointsAreOne, CheckpointsAreShort};
ghost use Rattle.mm_checkpoint.specs.Laws.{RestoredRunsGoOn, RoundRobinGoesOn, RunsHaveCheckpoints};
ghost use Rattle.mm_checkpoint.specs.Laws.{RunsHaveSnapshots, SavedFormsAreStates, SnapshotsAreCheckpoints};
ghost use Rattle.mm_checkpoint.specs.Laws.{SnapshotsHaveSavedForms};

/// A file that is read against an image has no fault exactly if its bytes are a checkpoint of the image.
pub fn checkpoints_have_no_fault()
    ensures { CheckpointsHaveNoFault }
{}

/// The bytes of a checkpoint of an image are those of its header, of the records of its slots, of its outputs and of
/// its pages, one after the other.
pub fn parts_come_in_order()
    ensures { PartsComeInOrder }
{}

/// The first fault of a file that is read against an image is that of the first of its parts that has one: header,
/// records of slots, their places in queues, outputs, pages; and else it is a byte too many.
pub fn faults_come_in_order()
    ensures { (i : Image) (bytes : List ℕ) → FaultsComeInOrder i bytes }
{}

/// Bytes are at most one checkpoint of an image.
pub fn checkpoints_are_one()
    ensures { CheckpointsAreOne }
{}

/// A checkpoint of an image has at most 33,554,432 bytes, so that none is too long to be read from a file.
pub fn checkpoints_are_short()
    ensures { CheckpointsAreShort }
{}

/// There is a snapshot of the state of each run of an image, after any list of items.
pub fn runs_have_snapshots()
    ensures { RunsHaveSnapshots }
{}

/// The state of each run of an image under at most 1,000,000 items, with no last slot or any below 64, is spelled by
/// bytes that are a checkpoint of the image.
pub fn runs_have_checkpoints()
    ensures { RunsHaveCheckpoints }
{}

/// A snapshot of a machine of an image, after at most 1,000,000 items, keeps the rules of the image's checkpoints.
pub fn snapshots_are_checkpoints()
    ensures { SnapshotsAreCheckpoints }
{}

/// Two snapshots with one saved form are snapshots of the same states, put the same state back, and have the same last
/// slot.
pub fn saved_forms_are_states()
    ensures { SavedFormsAreStates }
{}

/// The snapshot of a machine of an image, after any list of items, brings the run's state back to a machine at the
/// image's start. Further items then lead where the whole list leads.
pub fn restored_runs_go_on()
    ensures { RestoredRunsGoOn }
{}

/// The saved form of a snapshot of a machine of an image, after any list of items, is that of the run's state.
pub fn snapshots_have_saved_forms()
    ensures { SnapshotsHaveSavedForms }
{}

/// Round robin of some cycles, and then of more from the state and the last slot after them, is one round robin of all
/// these cycles.
pub fn round_robin_goes_on()
    ensures { RoundRobinGoesOn }
{}
