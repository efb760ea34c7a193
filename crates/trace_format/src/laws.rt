//! What is written is read.

ghost use Rattle.std.specs.Prelude.{◌≡◌, Some};
ghost use Rattle.trace_format.specs.declared.line.TraceLine.{TraceLine};
ghost use Rattle.trace_format.specs.Lines.{line_of};
ghost use Rattle.trace_format.specs.Spelled.{CanStand, spelling};

/// Each line of a trace, as it is written, is read as what it says.
pub fn lines_are_read()
    ensures { (line : TraceLine) → CanStand line → line_of (spelling line) ≡ Some line }
{}
