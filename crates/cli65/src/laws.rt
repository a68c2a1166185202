//! Laws of command lines, whatever their arguments. Each function's contract is a law.

ghost use Rattle.cli65.specs.Laws.{LineExists};

/// Any arguments are either a command line or bad arguments.
pub fn line_exists()
    ensures { LineExists }
{}
