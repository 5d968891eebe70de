//! What holds of every line that was filled.
ghost use Rattle.std.specs.Prelude.{◌≡◌, ◌++◌, List, Some, codes, ℕ};
ghost use Rattle.afr_lines.specs.declared.line.Line.{Line};
ghost use Rattle.afr_plan.specs.declared.plan.Plan.{Plan};
ghost use Rattle.afr_trace_build.specs.Filling.{fill_with};
ghost use Rattle.afr_trace_build.specs.declared.filling.Filled.TheVariants as filled;
ghost use Rattle.afr_trace_build.specs.declared.showing.Shown.{Shown};
ghost use Rattle.afr_report_trace.specs.Lines.{line_text};
ghost use Rattle.afr_trace_build.specs.Shown.{AreOnce, listed_in};
ghost use Rattle.afr_trace_read.specs.Fit.{IsSpelled, IsTraceLine};
ghost use Rattle.afr_trace_read.specs.Texts.{spelled_text};
ghost use Rattle.afr_trace_read.specs.Stands.{trace_line_of};
ghost use Rattle.afr_trace_read.specs.declared.kinds.TraceLine.{TraceLine};

/// A line that was filled says what the text says that it was filled from, whatever the lines before it show; where these list each
/// name once, it is printed as that text.
pub fn a_filled_line_is_its_text()
    ensures said { (p : Plan) (older : List Line) (known : Shown) (s : TraceLine) (text : List ℕ) (l : Line) → IsTraceLine p s → fill_with p older known (s, text) ≡ filled.Stands l → trace_line_of p l ≡ Some s }
    ensures printed { (p : Plan) (k : ℕ) (older : List Line) (known : Shown) (s : TraceLine) (text : List ℕ) (l : Line) → AreOnce (listed_in known) → IsSpelled p (s, text) → fill_with p older known (s, text) ≡ filled.Stands l → line_text p k l ≡ spelled_text p k (s, text) ++ codes "\n" }
{}
