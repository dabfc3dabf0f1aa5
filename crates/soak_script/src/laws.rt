//! A law over generated scripts.
ghost use Rattle.soak_script.specs.Laws.{SoakScriptsCanBePlayed};

/// Each generated script can be played: its options are valid, and each line asks a thread that there is for what scripts
/// have words for, as the grammar has it.
pub fn soak_scripts_can_be_played()
    ensures { SoakScriptsCanBePlayed }
{}
