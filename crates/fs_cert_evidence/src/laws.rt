//! Laws of witness files.

ghost use Rattle.std.specs.Prelude.{◌≡◌, ◌<◌, ℕ, List};
ghost use Rattle.fs_kinds.specs.declared.reason.OperationName.{OperationName};
ghost use Rattle.fs_kinds.specs.ReasonText.{operation_name};
ghost use Rattle.fs_model.specs.Witness.{Witness};
ghost use Rattle.fs_kinds.specs.PlaceNames.{IsOperationName};
ghost use Rattle.fs_cert_evidence.specs.WitnessFile.{IsWitnessFile};

/// A law: a witness file says one witness at most.
pub fn file_says_one_witness()
    ensures { (harts : ℕ) (bytes : List ℕ) (w v : Witness) → IsWitnessFile harts bytes w → IsWitnessFile harts bytes v
        → w ≡ v }
{}

/// A law: what is printed for an operation is its name.
pub fn operations_print_as_named()
    ensures { (operation : OperationName) → operation.hart < 256 → operation.at < 256
        → IsOperationName (operation_name operation) operation }
{}
