//! Laws of commands: functions that do nothing, and whose contracts a caller's proof may cite.
ghost use Rattle.std.specs.Prelude.{◌≡◌, ◌↔◌, ℕ, List, Some, false};
ghost use Rattle.fv_command_fault.specs.declared.place.Absence.{Absence};
ghost use Rattle.fv_command_laws.specs.Absent.{IsPart, IsSomewhere, refusal_of};
ghost use Rattle.fv_command_laws.specs.Faulty.{IsFaulty, IsFaultyPart};
ghost use Rattle.fv_command_laws.specs.Stops.{IsStop};
ghost use Rattle.fv_declare_schema.specs.Declarations.{Declarations};
ghost use Rattle.fv_engine_command.specs.Commands.{Part, Request, asks_json, batch, of_records};
ghost use Rattle.fv_engine_machine.specs.Refusals.{refusal};
ghost use Rattle.fv_engine_reply.specs.Answers.{part_refused, refused};
ghost use Rattle.fv_engine_reply.specs.declared.answer.Refusal.TheVariants.{Bundle, Shape};
ghost use Rattle.fv_form.specs.Commands.{is_command};
ghost use Rattle.fv_model.specs.declared.fault.BundleFault.{BundleFault};
ghost use Rattle.fv_store.specs.Records.{Records};
ghost use Rattle.serde_json.specs.Data as json;

/// What JSON asks of records is refused for its shape exactly where the JSON isn't a command, its bundles included:
/// where `fv_form::command_misfit` finds a misfit.
pub fn misfits_are_refused()
    ensures { (ds : Declarations) (m : Records) (j : json.Data) (r : Request) → asks_json (Some j) ≡ of_records r
        → (is_command j ≡ false) ↔ (refusal ds m r ≡ Some (refused Shape)) }
{}

/// A request that is refused for a form, a record, a group, a type, an object or a field that isn't there names it
/// at a member: at the one that `fv_command_fault::place_in_command` tells, whose clause `exact` says so.
pub fn absences_are_told()
    ensures { (ds : Declarations) (m : Records) (r : Request) (w : Absence) → refusal ds m r ≡ Some (refused (refusal_of w))
        → IsSomewhere ds m r w }
{}

/// So does the part at which a batch is refused, of the records that the parts before it leave, in which there is
/// none at the id that it needs: at the member that `fv_command_fault::place_in_part` tells. The batch has that part.
pub fn parts_are_told()
    ensures { (ds : Declarations) (m : Records) (ps : List Part) (n : ℕ) (w : Absence)
        → refusal ds m (batch ps) ≡ Some (part_refused n (refusal_of w)) → IsStop ds m ps n (λ left p. IsPart ds left p w) }
{}

/// A request that is refused for a bundle's fault has it: `read_bundle` refuses the JSON of its bundle for that, and
/// not for its form, or `set_field` that of its datum in the record's bundle, or `read_value` that of its value.
/// So `fv_model_fault` tells a place: `place_in_bundle` and `place_in_set` by their clause `found`, `place_in_value`
/// by its clause `read`.
pub fn faults_are_told()
    ensures { (ds : Declarations) (m : Records) (r : Request) (f : BundleFault) → refusal ds m r ≡ Some (refused (Bundle f))
        → IsFaulty ds m r f }
{}

/// So does the part at which a batch is refused, of the records that the parts before it leave.
pub fn part_faults_are_told()
    ensures { (ds : Declarations) (m : Records) (ps : List Part) (n : ℕ) (f : BundleFault)
        → refusal ds m (batch ps) ≡ Some (part_refused n (Bundle f)) → IsStop ds m ps n (λ left p. IsFaultyPart ds left p f) }
{}
