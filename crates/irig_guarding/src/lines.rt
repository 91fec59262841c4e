//! The lines of a proposed script.

ghost use Rattle.std.specs.Prelude.{◌≡◌, ◌++◌, ◌∷◌, [], IfOk, OnOk};
ghost use Rattle.irig_guarding.specs.Repair.{texts};
ghost use Rattle.irig_lines.specs.Lines.{lines_of};
ghost use Rattle.irig_script.specs.Obey.Run.{IsPlain};

use crate::line::Line;
use std::alloc::{AllocError, Global};

/// The lines of a script, without their newlines. An empty script has none.
pub fn lines_of<'a>(alloc: Global, script: &'a [u8]) -> Result<Vec<Line<'a>>, AllocError>
    ensures { IfOk result (λ lines. texts lines.items ≡ lines_of script.now) }
{
    let mut lines = Vec::new(alloc);
    match cut(&mut lines, script) {
        Ok(()) => Ok(lines),
        Err(error) => Err(error),
    }
}

/// Adds the lines of a script to `lines`, where none is yet.
fn cut<'a>(lines: &mut Vec<Line<'a>>, script: &'a [u8]) -> Result<(), AllocError>
    requires { lines.old.items ≡ [] }
    ensures { OnOk result (texts lines.new.items ≡ lines_of script.now) }
{
    let mut begin = 0;
    for at in 0..script.len() {
        if script[at] == b'\n' {
            put_next(lines, &script[begin..at])?;
            begin = at + 1;
        }
    }
    put_last(lines, &script[begin..])
}

/// Adds a line.
fn put_next<'a>(lines: &mut Vec<Line<'a>>, bytes: &'a [u8]) -> Result<(), AllocError>
    requires { IsPlain bytes.now }
    ensures { OnOk result (texts lines.new.items ≡ texts lines.old.items ++ bytes.now ∷ []) }
{
    lines.push(Line { bytes })?;
    Ok(())
}

/// Adds the last line of a script to `lines`: the `bytes` after the last newline.
fn put_last<'a>(lines: &mut Vec<Line<'a>>, bytes: &'a [u8]) -> Result<(), AllocError>
    requires { IsPlain bytes.now }
    ensures { OnOk result (texts lines.new.items ≡ texts lines.old.items ++ lines_of bytes.now) }
{
    if bytes.is_empty() {
        return Ok(());
    }
    lines.push(Line { bytes })?;
    Ok(())
}
