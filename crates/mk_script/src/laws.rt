//! Laws of scripts, over the definitions alone: each a function with an empty body whose clause is the law.

ghost use Rattle.std.specs.Prelude.{◌↔◌, ◌≡◌, ◌≢◌, ℕ, List, Ok, Some, map};
ghost use Rattle.mk_line.specs.Lines.{AreLines, cut, text_of};
ghost use Rattle.mk_line.specs.declared.cutting.Ending.{Ending};
ghost use Rattle.mk_line.specs.declared.cutting.Ending.TheVariants.{Missing};
ghost use Rattle.mk_script.specs.Endings.{HaveEnding, turned_line, turned_to};
ghost use Rattle.mk_script.specs.Script.{ScriptLine, line_of};
ghost use Rattle.mk_script.specs.ScriptSteps.{ScriptStep, script_of};
ghost use Rattle.mk_script.specs.Written.{IsLine, written_line};
ghost use Rattle.mk_script.specs.WrittenScripts.{AreSteps, written_steps};

/// A line of a script says something exactly where it is that as it is written.
pub fn lines_are_written()
    ensures { (count : ℕ) (bytes : List ℕ) (line : ScriptLine) →
        (line_of count bytes ≡ Some line) ↔ (IsLine count line × (bytes ≡ written_line line)) }
{}

/// Steps come back from the lines that they are written as, where each of these is one line.
pub fn scripts_are_written()
    ensures { (count : ℕ) (steps : List ScriptStep) → AreSteps count 1 steps → AreLines (written_steps steps) →
        script_of count (text_of (written_steps steps)) ≡ Ok steps }
{}

/// The lines of a text that is turned are those of the text, with their contents but for carriage returns before a line feed.
pub fn lines_are_turned()
    ensures { (eol : Ending) (text : List ℕ) → eol ≢ Missing → cut (turned_to eol text) ≡ map (turned_line eol) (cut text) }
{}

/// Each line of a text that is turned has the ending, but for a last one that has none.
pub fn turned_lines_have_the_ending()
    ensures { (eol : Ending) (text : List ℕ) → eol ≢ Missing → HaveEnding eol (cut (turned_to eol text)) }
{}

/// A text that is turned once more stays as it is.
pub fn turned_texts_stay()
    ensures { (eol : Ending) (text : List ℕ) → eol ≢ Missing → turned_to eol (turned_to eol text) ≡ turned_to eol text }
{}
