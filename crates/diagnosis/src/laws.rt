//! A law on the faults of scripts.

ghost use Rattle.std.specs.Prelude.{◌≡◌, List, [], ◌∷◌, Ok, Err};
ghost use Rattle.serde_json.specs.Data.{Data};
ghost use Rattle.faults.specs.declared.script_error.ScriptError.{ScriptError};
ghost use Rattle.service.specs.declared.script.Script.{Script};
ghost use Rattle.service.specs.Scripts.{script_of};
ghost use Rattle.diagnosis.specs.Faults.{refusals_of};

/// Law: the first fault that is reported is the one the script is refused for; a valid script has
/// none.
pub fn first_fault_law()
    ensures refused { (value : Data) (why : ScriptError) → script_of value ≡ Err why
        → (others : List ScriptError) × (refusals_of value ≡ why ∷ others) }
    ensures script { (value : Data) (script : Script) → script_of value ≡ Ok script → refusals_of value ≡ [] }
{}
