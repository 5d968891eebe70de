//! What holds of tables that keep no numbers.
ghost use Rattle.std.specs.Prelude.{◌≡◌, List, ℕ};
ghost use Rattle.afr_lines.specs.declared.line.Line.{Line};
ghost use Rattle.afr_model.specs.Tables.{held_before, holds};
ghost use Rattle.afr_plan.specs.declared.plan.Plan.{Plan};
ghost use Rattle.afr_trace_tables.specs.Plain.{bare, plain_tables};

/// Bytes, attributes and names follow from the lines by themselves: no changelog number is needed for them, whatever the lines say
/// of numbers.
pub fn tables_without_numbers_follow_by_themselves()
    ensures now { (p : Plan) (log : List Line) (b : ℕ) → (plain_tables p log).now b ≡ bare (holds p log b) }
    ensures past { (p : Plan) (log : List Line) (k b : ℕ) → (plain_tables p log).past k b ≡ bare (held_before p log k b) }
{}
