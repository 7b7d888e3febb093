//! What the definitions imply.

ghost use Rattle.def_files.specs.Laws.{AssetFileGivesAssets, RunFileGivesRun, AssetsWantNoMemory, RunFaults};

/// What a file that isn't refused gives, and which refusals don't come.
pub fn files()
    ensures assets { AssetFileGivesAssets }
    ensures run { RunFileGivesRun }
    ensures no_memory { AssetsWantNoMemory }
    ensures run_faults { RunFaults }
{}
